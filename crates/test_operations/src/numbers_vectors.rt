// Operations on vectors.
#![tactic(auto, unfolding(crate::specs::Rows::answered, crate::specs::NumbersTable::vector_rows, crate::specs::Words::vector_at, crate::specs::Words::double_at))]

ghost use Rattle.std.specs.Prelude.{◌≡◌};
ghost use Rattle.test_operations.specs.Words.{padded};
ghost use Rattle.test_operations.specs.Rows.{answered};
ghost use Rattle.test_operations.specs.NumbersTable.{vector_rows};

use crate::answer::Answer;
use crate::numbers_matrices::matrices;
use crate::words::vector_at;
use numbers::Vec3;

// Operations 28 to 44, and all that follow.
pub fn vectors(op: u64, a: &[u64; 32]) -> [u64; 24]
    ensures { result ≡ padded (answered vector_rows op a.now) }
{
    let v = vector_at(a, 0);
    let w = vector_at(a, 3);
    match op {
        28 => Vec3::new(v.x, v.y, v.z).answer(),
        29 => Vec3::new_unit(v.x, v.y, v.z).answer(),
        30 => v.cross_prod(w).answer(),
        31 => v.cross_prod_unit(w).answer(),
        32 => v.dot_prod(w).answer(),
        33 => v.orthogonal_to(w).answer(),
        34 => v.orthogonal().answer(),
        35 => v.norm().answer(),
        36 => v.stable_cross_prod_unit(w).answer(),
        37 => v.stable_cross_prod(w).answer(),
        38 => v.squared_norm().answer(),
        39 => v.unit().answer(),
        40 => (v + w).answer(),
        41 => (v - w).answer(),
        42 => (v * w.x).answer(),
        43 => (-v).answer(),
        44 => (v == w).answer(),
        _ => matrices(op, a),
    }
}
