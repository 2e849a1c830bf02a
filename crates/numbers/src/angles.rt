// Angles: their constants, their operators, and an angle brought into a range.
ghost use Rattle.std.specs.Prelude.{◌≡◌};
ghost use Rattle.std.specs.Float.Ieee as Ieee;
ghost use Rattle.numbers.specs.Ops.{◌⊕◌, num, pick};
ghost use Rattle.numbers.specs.Angles.{angle, from_degrees, as_degrees, angle_abs, angle_neg, raised, normalised_to};
ghost use Rattle.numbers.specs.Angles as Angles;

use crate::Angle;
use crate::float::{PI, abs, rem, to_degrees, to_radians};
use crate::numbers::EPSILON;
use std::ops::Neg;

impl Angle {
    pub const ZERO: Angle = Angle(0.0);

    pub const QUARTER_CIRCLE: Angle = Angle(PI / 2.0);

    pub const NEG_QUARTER_CIRCLE: Angle = Angle(-PI / 2.0);

    pub const HALF_CIRCLE: Angle = Angle(PI);

    pub const NEG_HALF_CIRCLE: Angle = Angle(-PI);

    pub const FULL_CIRCLE: Angle = Angle(2.0 * PI);

    pub const DBL_EPSILON: Angle = Angle(EPSILON);

    // The constants, with a contract.
    pub fn constants() -> [Angle; 7]
        ensures { result ≡ Angles.constants }
    {
        [
            Angle::ZERO,
            Angle::QUARTER_CIRCLE,
            Angle::NEG_QUARTER_CIRCLE,
            Angle::HALF_CIRCLE,
            Angle::NEG_HALF_CIRCLE,
            Angle::FULL_CIRCLE,
            Angle::DBL_EPSILON,
        ]
    }

    pub fn as_degrees(self) -> f64
        ensures { result ≡ as_degrees self }
    {
        to_degrees(self.0)
    }

    pub fn as_radians(self) -> f64
        ensures { result ≡ self.0 }
    {
        self.0
    }

    pub fn from_degrees(degrees: f64) -> Self
        ensures { result ≡ from_degrees degrees }
    {
        Angle(to_radians(degrees))
    }

    pub fn from_radians(radians: f64) -> Self
        ensures { result ≡ angle radians }
    {
        Angle(radians)
    }

    pub fn abs(self) -> Self
        ensures { result ≡ angle_abs self }
    {
        Angle(abs(self.0))
    }

    pub fn normalised(self) -> Self
        ensures { result ≡ Angles.normalised self }
    {
        self.normalised_to(Angle::FULL_CIRCLE)
    }

    pub fn normalised_to(self, max: Angle) -> Self
        ensures { result ≡ normalised_to self max }
    {
        Angle(normalised_radians(self.0, max.0))
    }
}

impl Neg for Angle {
    type Output = Angle;

    ghost neg_gives = { λ a r. r ≡ angle_neg a };

    fn neg(self) -> Angle {
        Angle(-self.0)
    }
}

// What `normalised_to` answers. Within max on either side of zero there is no division and no jump on the sign.
fn normalised_radians(radians: f64, max: f64) -> f64
    ensures { angle result ≡ normalised_to (angle radians) (angle max) }
{
    if radians > -max && radians < max {
        short_of(max, lifted(radians, max))
    } else {
        wrapped(rem(radians, max), max)
    }
}

// Moved up by max where it is below zero.
fn lifted(radians: f64, max: f64) -> f64
    ensures { result ≡ pick (Ieee.lt radians (num 0)) (radians ⊕ max) radians }
{
    if radians < 0.0 {
        radians + max
    } else {
        radians
    }
}

// 0 for max itself, to which a sum may have been rounded: a bearing is below the whole turn.
fn short_of(max: f64, radians: f64) -> f64
    ensures { result ≡ pick (Ieee.eq radians max) (num 0) radians }
{
    if radians == max { 0.0 } else { radians }
}

// A remainder, moved up where it is below zero.
fn wrapped(rest: f64, max: f64) -> f64
    ensures { angle result ≡ pick (Ieee.lt rest (num 0)) (angle (raised rest max)) (angle rest) }
{
    if rest < 0.0 && max > 0.0 {
        short_of(max, rest + max)
    } else {
        lifted(rest, max)
    }
}
