// Operations on positions.
#![tactic(auto, unfolding(crate::specs::Rows::answered, crate::specs::FramesTable::table, crate::specs::Words::vector_at, crate::specs::Values::geocentric_at, crate::specs::Words::double_at))]

ghost use Rattle.std.specs.Prelude.{◌≡◌};
ghost use Rattle.frames.specs.Positions.{lat_long};
ghost use Rattle.test_operations.specs.Words.{padded};
ghost use Rattle.test_operations.specs.Rows.{answered};
ghost use Rattle.test_operations.specs.Values as Values;
ghost use Rattle.test_operations.specs.FramesTable.{table};

use crate::answer::Answer;
use crate::frames_ellipsoids::ellipsoids;
use crate::frames_inputs::{angle_at, geocentric_at, length_at};
use crate::words::vector_at;
use frames::positions::PositionVector;
use frames::{GeocentricPosition, GeodeticPosition, LatLong, NVector};

// Operations 0 to 9, and all that follow.
pub fn positions(op: u64, a: &[u64; 32]) -> [u64; 24]
    ensures { result ≡ padded (answered table op a.now) }
{
    let v = vector_at(a, 0);
    let g = geocentric_at(a, 0);
    let l = lat_long(a);
    match op {
        0 => coordinates(GeocentricPosition::new(g.x, g.y, g.z)).answer(),
        1 => GeocentricPosition::from_metres(v.x, v.y, v.z).answer(),
        2 => GeocentricPosition::from_vec3_metres(v).answer(),
        3 => g.as_metres().answer(),
        4 => parts(GeodeticPosition::new(NVector(v), length_at(a, 3))).answer(),
        5 => angles(LatLong::new(l.latitude, l.longitude)).answer(),
        6 => LatLong::from_nvector(NVector(v)).answer(),
        7 => l.to_nvector().answer(),
        8 => NVector::from_lat_long(l.latitude, l.longitude).answer(),
        9 => NVector::new(v).as_vec3().answer(),
        _ => ellipsoids(op, a),
    }
}

// A position of its own parts, taken by their accessors.
fn coordinates(p: GeocentricPosition) -> GeocentricPosition
    ensures { result ≡ p }
{
    let x = p.x();
    let y = p.y();
    let z = p.z();
    GeocentricPosition { x, y, z }
}

fn parts(p: GeodeticPosition) -> GeodeticPosition
    ensures { result ≡ p }
{
    let hp = p.horizontal_position();
    let height = p.height();
    GeodeticPosition { hp, height }
}

fn angles(l: LatLong) -> LatLong
    ensures { result ≡ l }
{
    let latitude = l.latitude();
    let longitude = l.longitude();
    LatLong {
        latitude,
        longitude,
    }
}

fn lat_long(a: &[u64; 32]) -> LatLong
    ensures { result ≡ lat_long (Values.angle_at a.now 0) (Values.angle_at a.now 1) }
{
    let latitude = angle_at(a, 0);
    let longitude = angle_at(a, 1);
    LatLong {
        latitude,
        longitude,
    }
}
