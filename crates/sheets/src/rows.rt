// The rows of the kind table, by values and by kinds, and the limits of values.
// Here stand the rows that make a plain value or a vector, and those that read a vector or a frame: each takes values, and gives what a value of the row's kind holds.
pub(crate) mod args;
pub(crate) mod frame_rows;
pub(crate) mod kinds;
pub(crate) mod limits;
pub(crate) mod value;

ghost use Rattle.std.specs.Prelude.{◌≡◌, [], ◌∷◌};
ghost use Rattle.sheets.specs.Text.{ascii};
ghost use Rattle.sheets.specs.declared.Value.TheVariants.{Radians, Metres, Geocentric, Geodetic, Vector};
ghost use Rattle.sheets.specs.code.rows.Applied.{RowGives, vector_word, aer_word, sum_word, axis_word};

use crate::rows::args::Axis;
use crate::{Unapplied, Value};
use frames::rotation::r2zyx;
use frames::{
    Ellipsoid, GeocentricPosition, GeodeticPosition, LocalFrame, LocalVector, NVector, Orientation,
};
use numbers::{Angle, Length};

pub fn apply_deg(e: Ellipsoid, degrees: Value) -> Result<Angle, Unapplied>
    ensures { RowGives Radians e (ascii "deg") (degrees ∷ []) result }
{
    let n = f64::try_from(degrees)?;
    Ok(Angle::from_degrees(n))
}

pub fn apply_m(e: Ellipsoid, metres: Value) -> Result<Length, Unapplied>
    ensures { RowGives Metres e (ascii "m") (metres ∷ []) result }
{
    let n = f64::try_from(metres)?;
    Ok(Length::from_metres(n))
}

pub fn apply_geo(
    e: Ellipsoid,
    x: Value,
    y: Value,
    z: Value,
) -> Result<GeocentricPosition, Unapplied>
    ensures { RowGives Geocentric e (ascii "geo") (x ∷ y ∷ z ∷ []) result }
{
    let x = Length::try_from(x)?;
    let y = Length::try_from(y)?;
    let z = Length::try_from(z)?;
    Ok(GeocentricPosition::new(x, y, z))
}

pub fn apply_lla(
    e: Ellipsoid,
    latitude: Value,
    longitude: Value,
    height: Value,
) -> Result<GeodeticPosition, Unapplied>
    ensures { RowGives Geodetic e (ascii "lla") (latitude ∷ longitude ∷ height ∷ []) result }
{
    let latitude = Angle::try_from(latitude)?;
    let longitude = Angle::try_from(longitude)?;
    let height = Length::try_from(height)?;
    let n = NVector::from_lat_long(latitude, longitude);
    Ok(GeodeticPosition::new(n, height))
}

// venu, vned, vbody, vwan
pub fn apply_vector(
    e: Ellipsoid,
    o: Orientation,
    x: Value,
    y: Value,
    z: Value,
) -> Result<LocalVector, Unapplied>
    ensures { RowGives Vector e (vector_word o) (x ∷ y ∷ z ∷ []) result }
{
    let x = Length::try_from(x)?;
    let y = Length::try_from(y)?;
    let z = Length::try_from(z)?;
    Ok(LocalVector::new(o, x, y, z))
}

// aenu, aned, abody, awan
pub fn apply_aer(
    e: Ellipsoid,
    o: Orientation,
    azimuth: Value,
    elevation: Value,
    range: Value,
) -> Result<LocalVector, Unapplied>
    ensures { RowGives Vector e (aer_word o) (azimuth ∷ elevation ∷ range ∷ []) result }
{
    let azimuth = Angle::try_from(azimuth)?;
    let elevation = Angle::try_from(elevation)?;
    let range = Length::try_from(range)?;
    Ok(LocalVector::from_aer(o, azimuth, elevation, range))
}

pub fn apply_to(e: Ellipsoid, frame: Value, position: Value) -> Result<LocalVector, Unapplied>
    ensures { RowGives Vector e (ascii "to") (frame ∷ position ∷ []) result }
{
    let f = LocalFrame::try_from(frame)?;
    let g = GeocentricPosition::try_from(position)?;
    Ok(f.local_vector_to(g))
}

pub fn apply_at(e: Ellipsoid, frame: Value, vector: Value) -> Result<GeocentricPosition, Unapplied>
    ensures { RowGives Geocentric e (ascii "at") (frame ∷ vector ∷ []) result }
{
    let f = LocalFrame::try_from(frame)?;
    let v = LocalVector::try_from(vector)?;
    if f.orientation != v.orientation {
        return Err(Unapplied::NoRow);
    }
    Ok(f.destination_position(v))
}

pub fn apply_neg(e: Ellipsoid, vector: Value) -> Result<LocalVector, Unapplied>
    ensures { RowGives Vector e (ascii "neg") (vector ∷ []) result }
{
    let v = LocalVector::try_from(vector)?;
    Ok(-v)
}

// add where `minus` is false, sub where it is true: two functions, or one that is handed the operator, would say the operands' tests and the clause twice.
pub fn apply_sum(e: Ellipsoid, minus: bool, v: Value, w: Value) -> Result<LocalVector, Unapplied>
    ensures { RowGives Vector e (sum_word minus) (v ∷ w ∷ []) result }
{
    let a = LocalVector::try_from(v)?;
    let b = LocalVector::try_from(w)?;
    if a.orientation != b.orientation {
        return Err(Unapplied::NoRow);
    }
    Ok(if minus { a - b } else { a + b })
}

pub fn apply_scale(e: Ellipsoid, vector: Value, factor: Value) -> Result<LocalVector, Unapplied>
    ensures { RowGives Vector e (ascii "scale") (vector ∷ factor ∷ []) result }
{
    let v = LocalVector::try_from(vector)?;
    let k = f64::try_from(factor)?;
    Ok(v * k)
}

pub fn apply_swap(e: Ellipsoid, vector: Value) -> Result<LocalVector, Unapplied>
    ensures { RowGives Vector e (ascii "swap") (vector ∷ []) result }
{
    let v = LocalVector::try_from(vector)?;
    match v.orientation {
        Orientation::Enu | Orientation::Ned => Ok(v.swap()),
        Orientation::Body | Orientation::Wan => Err(Unapplied::NoRow),
    }
}

pub fn apply_bearing(e: Ellipsoid, vector: Value) -> Result<Angle, Unapplied>
    ensures { RowGives Radians e (ascii "bearing") (vector ∷ []) result }
{
    let v = LocalVector::try_from(vector)?;
    Ok(v.bearing())
}

pub fn apply_elev(e: Ellipsoid, vector: Value) -> Result<Angle, Unapplied>
    ensures { RowGives Radians e (ascii "elev") (vector ∷ []) result }
{
    let v = LocalVector::try_from(vector)?;
    Ok(v.elevation())
}

pub fn apply_range(e: Ellipsoid, vector: Value) -> Result<Length, Unapplied>
    ensures { RowGives Metres e (ascii "range") (vector ∷ []) result }
{
    let v = LocalVector::try_from(vector)?;
    Ok(v.slant_range())
}

pub fn apply_origin(e: Ellipsoid, frame: Value) -> Result<GeocentricPosition, Unapplied>
    ensures { RowGives Geocentric e (ascii "origin") (frame ∷ []) result }
{
    let f = LocalFrame::try_from(frame)?;
    Ok(f.origin())
}

// rz, ry, rx: by the axis, since three functions would differ in the field that they take.
pub fn apply_angle(e: Ellipsoid, axis: Axis, frame: Value) -> Result<Angle, Unapplied>
    ensures { RowGives Radians e (axis_word axis) (frame ∷ []) result }
{
    let f = LocalFrame::try_from(frame)?;
    let angles = r2zyx(f.dir_rm);
    Ok(match axis {
        Axis::Z => angles.z,
        Axis::Y => angles.y,
        Axis::X => angles.x,
    })
}
