// Operations on local vectors.
#![tactic(auto, unfolding(crate::specs::Rows::answered, crate::specs::FramesTable::vector_rows, crate::specs::FramesTable::combined_rows, crate::specs::Words::vector_at, crate::specs::Values::angle_at, crate::specs::Values::length_at, crate::specs::Values::local_at, crate::specs::Words::double_at))]

ghost use Rattle.std.specs.Prelude.{◌≡◌};
ghost use Rattle.test_operations.specs.Words.{padded};
ghost use Rattle.test_operations.specs.Rows.{answered};
ghost use Rattle.numbers.specs.Vec.{raw};
ghost use Rattle.test_operations.specs.FramesTable.{vector_rows, combined_rows};

use crate::answer::Answer;
use crate::frames_inputs::{local_at, orientation_at};
use crate::frames_rotations::rotations;
use crate::words::vector_at;
use frames::LocalVector;
use frames::positions::PositionVector;
use numbers::{Angle, Length, Vec3};

// Operations 17 to 21, those that make a vector, and all that follow.
pub fn vectors(op: u64, a: &[u64; 32]) -> [u64; 24]
    ensures { result ≡ padded (answered vector_rows op a.now) }
{
    let o = orientation_at(a);
    let v = vector_at(a, 1);
    match op {
        17 => LocalVector::zero(o).answer(),
        18 => components(LocalVector::new(o, Length(v.x), Length(v.y), Length(v.z))).answer(),
        19 => LocalVector::from_metres(o, v.x, v.y, v.z).answer(),
        20 => LocalVector::from_vec3_metres(o, v).answer(),
        21 => LocalVector::from_aer(o, Angle(v.x), Angle(v.y), Length(v.z)).answer(),
        _ => combined(op, a),
    }
}

// The three parts, taken by their accessors.
fn components(v: LocalVector) -> Vec3
    ensures { result ≡ raw v.x.0 v.y.0 v.z.0 }
{
    let x = v.x().0;
    let y = v.y().0;
    let z = v.z().0;
    Vec3 { x, y, z }
}

// Operations 22 to 30, and all that follow.
fn combined(op: u64, a: &[u64; 32]) -> [u64; 24]
    ensures { result ≡ padded (answered combined_rows op a.now) }
{
    let v = local_at(a, 1);
    let w = local_at(a, 4);
    match op {
        22 => v.as_metres().answer(),
        23 => v.slant_range().answer(),
        24 => v.elevation().answer(),
        25 => v.bearing().answer(),
        26 => (v + w).answer(),
        27 => (v - w).answer(),
        28 => (v * w.x.0).answer(),
        29 => (-v).answer(),
        30 => v.swap().answer(),
        _ => rotations(op, a),
    }
}
