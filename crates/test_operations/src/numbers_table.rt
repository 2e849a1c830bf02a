// The operations of `numbers` by their numbers: how many words each takes and answers.
ghost use Rattle.std.specs.Prelude.{◌≤◌, IfSome};

use crate::counts::Counts;

// None where there is no such operation.
pub fn counts(op: u64) -> Option<Counts>
    ensures { IfSome result (λ n. (n.inputs ≤ 18) × (n.outputs ≤ 21)) }
{
    let (inputs, outputs) = match op {
        58 => (0, 1),
        49 => (0, 7),
        51 => (0, 9),
        50 => (0, 21),
        0..=2 | 4..=10 | 13 | 17..=20 | 22 | 24 | 25 | 55..=57 => (1, 1),
        3 | 11 | 14..=16 | 21 | 23 | 26 | 27 | 60 | 61 => (2, 1),
        12 | 35 | 38 => (3, 1),
        28 | 29 | 34 | 39 | 43 | 52 => (3, 3),
        42 | 59 => (4, 3),
        32 | 44 => (6, 1),
        30 | 31 | 33 | 36 | 37 | 40 | 41 => (6, 3),
        45 | 53 | 54 => (9, 9),
        48 => (12, 3),
        47 => (18, 1),
        46 => (18, 9),
        _ => return None,
    };
    Some(Counts { inputs, outputs })
}
