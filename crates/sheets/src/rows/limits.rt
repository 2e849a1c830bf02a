// The limits of values, and how near to the centre a position may lie.
ghost use Rattle.std.specs.Prelude.{◌≡◌};
ghost use Rattle.std.specs.Float.Ieee as Ieee;
ghost use Rattle.sheets.specs.Limits.{between, near, all_near, in_limit};
ghost use Rattle.sheets.specs.Table.{far};
ghost use Rattle.sheets.specs.code.rows.Applied.{far_enough};

use crate::{Unapplied, Value};
use frames::positions::PositionVector;
use frames::{Ellipsoid, GeocentricPosition};

// A NaN lies in no range.
pub(crate) fn is_within(m: f64, x: f64) -> bool
    ensures { result ≡ between (Ieee.neg m) m x }
{
    -m <= x && x <= m
}

pub(crate) fn is_near(x: f64) -> bool
    ensures { result ≡ near x }
{
    is_within(100000000.0, x)
}

pub(crate) fn are_near(x: f64, y: f64, z: f64) -> bool
    ensures { result ≡ all_near x y z }
{
    is_near(x) && is_near(y) && is_near(z)
}

pub fn in_limit(v: Value) -> bool
    ensures { result ≡ in_limit v }
{
    match v {
        Value::Number(x) => is_near(x),
        Value::Radians(x) => is_within(64.0, x.0),
        Value::Metres(x) => is_near(x.0),
        Value::Geocentric(p) => are_near(p.x.0, p.y.0, p.z.0),
        Value::Geodetic(p) => is_near(p.height.0),
        Value::Vector(p) => are_near(p.x.0, p.y.0, p.z.0),
        Value::Frame(p) => are_near(p.origin.x, p.origin.y, p.origin.z),
    }
}

// p + q, as `geocentric_to_geodetic_position` works them out, at least a quarter.
pub fn is_far(e: Ellipsoid, g: GeocentricPosition) -> bool
    ensures { result ≡ far e g }
{
    let v = g.as_metres();
    e.p_of(v) + e.q_of(v) >= 0.25
}

// Refusal 8, where a position is too near to the centre to be converted, or to be a frame's origin.
pub fn far_enough(e: Ellipsoid, g: GeocentricPosition) -> Result<(), Unapplied>
    ensures { result ≡ far_enough e g }
{
    if is_far(e, g) {
        Ok(())
    } else {
        Err(Unapplied::Centre)
    }
}
