// The operations of both tables: those of `numbers` as their own table counts them, those of `frames` from 100 on.
ghost use Rattle.std.specs.Prelude.{◌≤◌, IfSome};

use test_operations::counts::Counts;
use test_operations::frames_positions::positions;
use test_operations::numbers_floats::floats;
use test_operations::{frames_table, numbers_table};

// How many words an operation takes and answers. None where there is no such operation.
pub fn counts(op: u64) -> Option<Counts>
    ensures { IfSome result (λ n. (n.inputs ≤ 32) × (n.outputs ≤ 24)) }
{
    if op < 100 {
        numbers_table::counts(op)
    } else {
        frames_table::counts(op - 100)
    }
}

// The answer of an operation, its words first.
pub fn apply(op: u64, a: &[u64; 32]) -> [u64; 24] {
    if op < 100 {
        floats(op, a)
    } else {
        positions(op - 100, a)
    }
}
