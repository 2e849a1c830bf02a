// Operations on ellipsoids. The ellipsoid is the first four words.
#![tactic(auto, unfolding(crate::specs::Rows::answered, crate::specs::FramesTable::ellipsoid_rows, frames::specs::Ellipsoids::wgs84, numbers::proofs::Computed::computed, crate::specs::Words::vector_at, crate::specs::Words::double_at))]

ghost use Rattle.std.specs.Prelude.{◌≡◌};
ghost use Rattle.numbers.specs.Ops.{◌⊕◌};
ghost use Rattle.frames.specs.Ellipsoids.{p_of, q_of};
ghost use Rattle.test_operations.specs.Words.{padded};
ghost use Rattle.test_operations.specs.Rows.{answered};
ghost use Rattle.numbers.specs.Vec.{raw};
ghost use Rattle.test_operations.specs.FramesTable.{ellipsoid_rows};

use crate::answer::Answer;
use crate::frames_inputs::{ellipsoid_at, geocentric_at, geodetic_at, length_at};
use crate::frames_vectors::vectors;
use crate::words::{double_at, vector_at};
use frames::Ellipsoid;
use numbers::Vec3;

// Operations 10 to 16, and all that follow.
pub fn ellipsoids(op: u64, a: &[u64; 32]) -> [u64; 24]
    ensures { result ≡ padded (answered ellipsoid_rows op a.now) }
{
    let l = ellipsoid_at(a);
    match op {
        10 => Ellipsoid::new(length_at(a, 0), double_at(a, 1)).answer(),
        11 => Ellipsoid::WGS84.answer(),
        12 => Ellipsoid::wgs84().answer(),
        13 => figures(l).answer(),
        14 => l
            .geodetic_to_geocentric_position(geodetic_at(a, 4))
            .answer(),
        15 => l
            .geocentric_to_geodetic_position(geocentric_at(a, 4))
            .answer(),
        16 => centre(l, vector_at(a, 4)).answer(),
        _ => vectors(op, a),
    }
}

// An ellipsoid of its own parts, taken by their accessors.
fn figures(l: Ellipsoid) -> Ellipsoid
    ensures { result ≡ l }
{
    let equatorial_radius = l.equatorial_radius();
    let polar_radius = l.polar_radius();
    let eccentricity = l.eccentricity();
    let flattening = l.flattening();
    Ellipsoid {
        equatorial_radius,
        polar_radius,
        eccentricity,
        flattening,
    }
}

// p, q and their sum.
fn centre(l: Ellipsoid, v: Vec3) -> Vec3
    ensures { result ≡ raw (p_of l v) (q_of l v) (p_of l v ⊕ q_of l v) }
{
    let p = l.p_of(v);
    let q = l.q_of(v);
    let z = p + q;
    Vec3 { x: p, y: q, z }
}
