// Quotients by a number, and the sum of two lengths.
#![tactic(auto, unfolding(crate::specs::Rows::answered, crate::specs::NumbersTable::quotient_rows, crate::specs::Words::padded, crate::specs::Words::vector_at, crate::specs::Words::double_at))]

ghost use Rattle.std.specs.Prelude.{◌≡◌};
ghost use Rattle.test_operations.specs.Words.{padded};
ghost use Rattle.test_operations.specs.Rows.{answered};
ghost use Rattle.test_operations.specs.NumbersTable.{quotient_rows};

use crate::answer::Answer;
use crate::words::{double_at, vector_at};
use numbers::Length;

// Operations 59 to 61. All zeros where there is no such operation.
pub fn quotients(op: u64, a: &[u64; 32]) -> [u64; 24]
    ensures { result ≡ padded (answered quotient_rows op a.now) }
{
    let x = double_at(a, 0);
    let y = double_at(a, 1);
    match op {
        59 => (vector_at(a, 0) / double_at(a, 3)).answer(),
        60 => (Length(x) / y).answer(),
        61 => (Length(x) + Length(y)).answer(),
        _ => [0u64; 24],
    }
}
