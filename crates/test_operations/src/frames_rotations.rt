// Operations on orientations and rotation matrices.
#![tactic(auto, unfolding(crate::specs::Rows::answered, crate::specs::FramesTable::rotation_rows, crate::specs::Words::vector_at, crate::specs::Words::matrix_at, crate::specs::Words::double_at))]

ghost use Rattle.std.specs.Prelude.{◌≡◌};
ghost use Rattle.test_operations.specs.Words.{padded};
ghost use Rattle.test_operations.specs.Rows.{answered};
ghost use Rattle.test_operations.specs.FramesTable.{rotation_rows};

use crate::answer::Answer;
use crate::frames_inputs::{angle_at, orientation_at};
use crate::frames_local_frames::levels;
use crate::words::matrix_at;
use frames::orientations::align_to_z_down_matrix;
use frames::rotation;

// Operations 31 to 36, and all that follow.
pub fn rotations(op: u64, a: &[u64; 32]) -> [u64; 24]
    ensures { result ≡ padded (answered rotation_rows op a.now) }
{
    match op {
        31 => orientation_at(a).is_z_up().answer(),
        32 => align_to_z_down_matrix().answer(),
        33 => rotation::zyx2r(angle_at(a, 0), angle_at(a, 1), angle_at(a, 2)).answer(),
        34 => rotation::xyz2r(angle_at(a, 0), angle_at(a, 1), angle_at(a, 2)).answer(),
        35 => rotation::r2xyz(matrix_at(a, 0)).answer(),
        36 => rotation::r2zyx(matrix_at(a, 0)).answer(),
        _ => levels(op, a),
    }
}
