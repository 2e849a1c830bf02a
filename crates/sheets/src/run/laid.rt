// What is met or made, laid as floats from a place on: its kind's code, once the test of refusal 7 is passed.
ghost use Rattle.std.specs.Prelude.{◌≡◌, ◌+◌, ◌≤◌};
ghost use Rattle.sheets.specs.declared.Value.{Value};
ghost use Rattle.sheets.specs.code.rows.Applied.{giving};
ghost use Rattle.sheets.specs.code.run.Floats.{IsLaid};
ghost use Rattle.sheets.specs.code.run.Evaluating.{tested_at, unapplied, LaidAs};

use crate::refusals::Refusal;
use crate::rows::args::place_of;
use crate::run::floats::{in_limit_at, lay_frame, lay_three};
use crate::{Evaluated, Halt, Unapplied};
use frames::{GeocentricPosition, GeodeticPosition, LocalFrame, LocalVector};
use numbers::{Angle, Length};

// What a value of a letter holds, where a row may give it. The type is known where it is laid, so that nothing has to be looked up in a value.
pub trait AsFloats: Copy {
    // The value that holds it.
    ghost value: { Self → Value };

    // Stores its floats from a place on, and answers its kind's code.
    fn lay(self, floats: &mut [f64; 2940], top: usize) -> u8
        requires { top + 21 ≤ 2940 }
        ensures { IsLaid (value self) floats.old top result floats.new };
}

impl AsFloats for Angle {
    ghost value = { Value.Radians };

    fn lay(self, floats: &mut [f64; 2940], top: usize) -> u8 {
        floats[top] = self.0;
        1
    }
}

impl AsFloats for Length {
    ghost value = { Value.Metres };

    fn lay(self, floats: &mut [f64; 2940], top: usize) -> u8 {
        floats[top] = self.0;
        2
    }
}

impl AsFloats for GeocentricPosition {
    ghost value = { Value.Geocentric };

    fn lay(self, floats: &mut [f64; 2940], top: usize) -> u8 {
        lay_three(floats, top, self.x.0, self.y.0, self.z.0);
        3
    }
}

impl AsFloats for GeodeticPosition {
    ghost value = { Value.Geodetic };

    fn lay(self, floats: &mut [f64; 2940], top: usize) -> u8 {
        let n = self.hp.0;
        lay_three(floats, top, n.x, n.y, n.z);
        floats[top + 3] = self.height.0;
        4
    }
}

impl AsFloats for LocalVector {
    ghost value = { Value.Vector };

    fn lay(self, floats: &mut [f64; 2940], top: usize) -> u8 {
        lay_three(floats, top, self.x.0, self.y.0, self.z.0);
        5 + place_of(self.orientation)
    }
}

impl AsFloats for LocalFrame {
    ghost value = { Value.Frame };

    fn lay(self, floats: &mut [f64; 2940], top: usize) -> u8 {
        lay_frame(floats, top, self);
        9 + place_of(self.orientation)
    }
}

// The test of refusal 7, of the value of the kind with this code (kinds go by their codes, as check/names.rt says) that lies at a place.
pub fn tested(kind: u8, floats: &[f64; 2940], top: usize) -> Evaluated
    requires { top + 21 ≤ 2940 }
    ensures { result ≡ tested_at kind floats.now top }
{
    if in_limit_at(kind, floats, top) {
        return Ok(kind);
    }
    Err(Halt::Refused(Refusal::Limit))
}

impl From<Unapplied> for Halt {
    ghost from_gives = { λ u h. h ≡ unapplied u };

    fn from(u: Unapplied) -> Halt {
        match u {
            Unapplied::NoRow => Halt::Sticks,
            Unapplied::Centre => Halt::Refused(Refusal::Centre),
        }
    }
}

// A row's answer.
pub fn laid<T: AsFloats>(r: Result<T, Unapplied>, floats: &mut [f64; 2940], top: usize) -> Evaluated
    requires { top + 21 ≤ 2940 }
    ensures { LaidAs (giving T.value r) floats.old top result floats.new }
{
    let x = r?;
    let kind = x.lay(floats, top);
    tested(kind, floats, top)
}
