// The operations of `frames` by their numbers: how many words each takes and answers.
ghost use Rattle.std.specs.Prelude.{◌≤◌, IfSome};

use crate::counts::Counts;

// None where there is no such operation.
pub fn counts(op: u64) -> Option<Counts>
    ensures { IfSome result (λ n. (n.inputs ≤ 32) × (n.outputs ≤ 24)) }
{
    let (inputs, outputs) = match op {
        11 | 12 => (0, 4),
        32 => (0, 9),
        31 => (1, 1),
        17 => (1, 4),
        5 => (2, 2),
        7 | 8 => (2, 3),
        10 => (2, 4),
        6 => (3, 2),
        0..=3 | 9 => (3, 3),
        33 | 34 => (3, 9),
        23..=25 | 58 => (4, 1),
        18 | 22 => (4, 3),
        4 | 13 | 19..=21 | 29 | 30 => (4, 4),
        54..=57 => (5, 1),
        28 | 59 => (5, 4),
        16 => (7, 3),
        15 | 26 | 27 => (7, 4),
        37 | 39 => (7, 22),
        14 => (8, 3),
        38 | 40 | 43 => (8, 22),
        35 | 36 => (9, 3),
        44 => (9, 22),
        41 => (10, 22),
        42 | 45 => (11, 22),
        46 => (13, 22),
        50 => (22, 3),
        48 | 49 => (22, 9),
        47 => (23, 22),
        53 => (25, 3),
        52 => (25, 4),
        51 => (28, 22),
        _ => return None,
    };
    Some(Counts { inputs, outputs })
}
