// Views of an operator's arguments: what a value holds, where it is of the letter that the operator takes.
#![tactic(auto, unfolding(crate::specs::Letters::held))]

ghost use Rattle.std.specs.Prelude.{◌≡◌, ◌≤◌};
ghost use Rattle.sheets.specs.Kinds.{place};
ghost use Rattle.sheets.specs.Letters.{𝐧, 𝐚, 𝐥, 𝐠, 𝐝, 𝐯, 𝐟};
ghost use Rattle.sheets.specs.code.rows.Applied.{argument};

use crate::{Unapplied, Value};
use frames::{GeocentricPosition, GeodeticPosition, LocalFrame, LocalVector, Orientation};
use numbers::{Angle, Length};

// The axis that an angle of a frame is about.
#[derive(Clone, Copy, Debug, PartialEq, Eq)]
pub enum Axis {
    Z,
    Y,
    X,
}

// An orientation's place in the order of document 01, which the codes of kinds are made of.
pub fn place_of(o: Orientation) -> u8
    ensures { (result ≡ place o) × (result ≤ 3) }
{
    o as u8
}

// An impl for each letter: the gate refuses impls that a macro of the repository writes.
impl TryFrom<Value> for f64 {
    type Error = Unapplied;

    ghost try_from_gives = { λ v r. r ≡ argument 𝐧 v };

    fn try_from(v: Value) -> Result<f64, Unapplied> {
        match v {
            Value::Number(x) => Ok(x),
            _ => Err(Unapplied::NoRow),
        }
    }
}

impl TryFrom<Value> for Angle {
    type Error = Unapplied;

    ghost try_from_gives = { λ v r. r ≡ argument 𝐚 v };

    fn try_from(v: Value) -> Result<Angle, Unapplied> {
        match v {
            Value::Radians(x) => Ok(x),
            _ => Err(Unapplied::NoRow),
        }
    }
}

impl TryFrom<Value> for Length {
    type Error = Unapplied;

    ghost try_from_gives = { λ v r. r ≡ argument 𝐥 v };

    fn try_from(v: Value) -> Result<Length, Unapplied> {
        match v {
            Value::Metres(x) => Ok(x),
            _ => Err(Unapplied::NoRow),
        }
    }
}

impl TryFrom<Value> for GeocentricPosition {
    type Error = Unapplied;

    ghost try_from_gives = { λ v r. r ≡ argument 𝐠 v };

    fn try_from(v: Value) -> Result<GeocentricPosition, Unapplied> {
        match v {
            Value::Geocentric(x) => Ok(x),
            _ => Err(Unapplied::NoRow),
        }
    }
}

impl TryFrom<Value> for GeodeticPosition {
    type Error = Unapplied;

    ghost try_from_gives = { λ v r. r ≡ argument 𝐝 v };

    fn try_from(v: Value) -> Result<GeodeticPosition, Unapplied> {
        match v {
            Value::Geodetic(x) => Ok(x),
            _ => Err(Unapplied::NoRow),
        }
    }
}

impl TryFrom<Value> for LocalVector {
    type Error = Unapplied;

    ghost try_from_gives = { λ v r. r ≡ argument 𝐯 v };

    fn try_from(v: Value) -> Result<LocalVector, Unapplied> {
        match v {
            Value::Vector(x) => Ok(x),
            _ => Err(Unapplied::NoRow),
        }
    }
}

impl TryFrom<Value> for LocalFrame {
    type Error = Unapplied;

    ghost try_from_gives = { λ v r. r ≡ argument 𝐟 v };

    fn try_from(v: Value) -> Result<LocalFrame, Unapplied> {
        match v {
            Value::Frame(x) => Ok(x),
            _ => Err(Unapplied::NoRow),
        }
    }
}
