// The rows that convert a position or make a frame, by functions of the frame crate: each takes values, and gives what a value of the row's kind holds.
ghost use Rattle.std.specs.Prelude.{◌≡◌, [], ◌∷◌};
ghost use Rattle.sheets.specs.Text.{ascii};
ghost use Rattle.sheets.specs.declared.Value.TheVariants.{Geocentric, Geodetic, Frame};
ghost use Rattle.sheets.specs.code.rows.Applied.{RowGives, level_word};

use crate::rows::limits::far_enough;
use crate::{Unapplied, Value};
use frames::{
    Ellipsoid, GeocentricPosition, GeodeticPosition, LocalFrame, LocalVector, Orientation,
};
use numbers::Angle;

pub fn apply_togeo(e: Ellipsoid, position: Value) -> Result<GeocentricPosition, Unapplied>
    ensures { RowGives Geocentric e (ascii "togeo") (position ∷ []) result }
{
    let d = GeodeticPosition::try_from(position)?;
    Ok(e.geodetic_to_geocentric_position(d))
}

pub fn apply_tolla(e: Ellipsoid, position: Value) -> Result<GeodeticPosition, Unapplied>
    ensures { RowGives Geodetic e (ascii "tolla") (position ∷ []) result }
{
    let g = GeocentricPosition::try_from(position)?;
    far_enough(e, g)?;
    Ok(e.geocentric_to_geodetic_position(g))
}

// enu where `ned` is false, ned where it is true. A constructor cannot be handed in as a closure, which is not generic over the two forms of a position; nor can it in the three functions below.
pub fn apply_level(e: Ellipsoid, ned: bool, position: Value) -> Result<LocalFrame, Unapplied>
    ensures { RowGives Frame e (level_word ned) (position ∷ []) result }
{
    match position {
        Value::Geocentric(g) => {
            far_enough(e, g)?;
            if ned {
                Ok(LocalFrame::ned(g, e))
            } else {
                Ok(LocalFrame::enu(g, e))
            }
        }
        Value::Geodetic(d) => {
            if ned {
                Ok(LocalFrame::ned(d, e))
            } else {
                Ok(LocalFrame::enu(d, e))
            }
        }
        _ => Err(Unapplied::NoRow),
    }
}

pub fn apply_wan(e: Ellipsoid, azimuth: Value, position: Value) -> Result<LocalFrame, Unapplied>
    ensures { RowGives Frame e (ascii "wan") (azimuth ∷ position ∷ []) result }
{
    let az = Angle::try_from(azimuth)?;
    match position {
        Value::Geocentric(g) => {
            far_enough(e, g)?;
            Ok(LocalFrame::wander_azimuth(az, g, e))
        }
        Value::Geodetic(d) => Ok(LocalFrame::wander_azimuth(az, d, e)),
        _ => Err(Unapplied::NoRow),
    }
}

pub fn apply_body(
    e: Ellipsoid,
    yaw: Value,
    pitch: Value,
    roll: Value,
    position: Value,
) -> Result<LocalFrame, Unapplied>
    ensures { RowGives Frame e (ascii "body") (yaw ∷ pitch ∷ roll ∷ position ∷ []) result }
{
    let y = Angle::try_from(yaw)?;
    let p = Angle::try_from(pitch)?;
    let r = Angle::try_from(roll)?;
    match position {
        Value::Geocentric(g) => {
            far_enough(e, g)?;
            Ok(LocalFrame::body(y, p, r, g, e))
        }
        Value::Geodetic(d) => Ok(LocalFrame::body(y, p, r, d, e)),
        _ => Err(Unapplied::NoRow),
    }
}

pub fn apply_look(
    e: Ellipsoid,
    position: Value,
    target: Value,
    roll: Value,
) -> Result<LocalFrame, Unapplied>
    ensures { RowGives Frame e (ascii "look") (position ∷ target ∷ roll ∷ []) result }
{
    match position {
        Value::Geocentric(g) => {
            let t = GeocentricPosition::try_from(target)?;
            let r = Angle::try_from(roll)?;
            far_enough(e, g)?;
            Ok(LocalFrame::looking_at(g, t, r, e))
        }
        Value::Geodetic(d) => {
            let t = GeodeticPosition::try_from(target)?;
            let r = Angle::try_from(roll)?;
            Ok(LocalFrame::looking_at(d, t, r, e))
        }
        _ => Err(Unapplied::NoRow),
    }
}

pub fn apply_turn(e: Ellipsoid, frame: Value, angle: Value) -> Result<LocalFrame, Unapplied>
    ensures { RowGives Frame e (ascii "turn") (frame ∷ angle ∷ []) result }
{
    let f = LocalFrame::try_from(frame)?;
    let a = Angle::try_from(angle)?;
    if f.orientation == Orientation::Body {
        return Err(Unapplied::NoRow);
    }
    Ok(f.rotate_around_z(a))
}

pub fn apply_move(
    e: Ellipsoid,
    frame: Value,
    vector: Value,
    yaw: Value,
    pitch: Value,
    roll: Value,
) -> Result<LocalFrame, Unapplied>
    ensures { RowGives Frame e (ascii "move") (frame ∷ vector ∷ yaw ∷ pitch ∷ roll ∷ []) result }
{
    let f = LocalFrame::try_from(frame)?;
    let v = LocalVector::try_from(vector)?;
    let y = Angle::try_from(yaw)?;
    let p = Angle::try_from(pitch)?;
    let r = Angle::try_from(roll)?;
    if f.orientation != v.orientation {
        return Err(Unapplied::NoRow);
    }
    Ok(f.transform(v, y, p, r))
}
