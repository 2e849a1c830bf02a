// Operations on matrices, and the constants.
#![tactic(auto, using(numbers::proofs::EqualLaws::equal_matrices), unfolding(crate::specs::Rows::answered, crate::specs::NumbersTable::matrix_rows, crate::specs::Words::padded, crate::specs::Words::with_vector, crate::specs::NumbersTable::angle_constants, crate::specs::NumbersTable::vector_constants, numbers::proofs::Computed::computed, crate::specs::Words::vector_at, crate::specs::Words::matrix_at, crate::specs::Words::double_at))]

ghost use Rattle.std.specs.Prelude.{◌≡◌};
ghost use Rattle.test_operations.specs.Words.{padded};
ghost use Rattle.test_operations.specs.Rows.{answered};
ghost use Rattle.test_operations.specs.NumbersTable.{matrix_rows, angle_constants, vector_constants};

use crate::answer::Answer;
use crate::numbers_parts::parts;
use crate::words::{matrix_at, put_vector, vector_at};
use numbers::float::bits;
use numbers::{Angle, Mat33, Vec3};

// Operations 45 to 51, and all that follow.
pub fn matrices(op: u64, a: &[u64; 32]) -> [u64; 24]
    ensures { result ≡ padded (answered matrix_rows op a.now) }
{
    match op {
        45 => matrix_at(a, 0).transpose().answer(),
        46 => (matrix_at(a, 0) * matrix_at(a, 9)).answer(),
        47 => (matrix_at(a, 0) == matrix_at(a, 9)).answer(),
        48 => (vector_at(a, 0) * matrix_at(a, 3)).answer(),
        49 => angle_constants(),
        50 => vector_constants(),
        51 => Mat33::IDENTITY.answer(),
        _ => parts(op, a),
    }
}

fn angle_constants() -> [u64; 24]
    ensures { result ≡ padded angle_constants }
{
    let mut out = [0u64; 24];
    let angles = Angle::constants();
    for (i, angle) in angles.iter().enumerate() {
        out[i] = bits(angle.0);
    }
    out
}

fn vector_constants() -> [u64; 24]
    ensures { result ≡ padded vector_constants }
{
    let mut out = [0u64; 24];
    let vectors = Vec3::constants();
    for (i, v) in vectors.iter().enumerate() {
        put_vector(&mut out, 3 * i, *v);
    }
    out
}
