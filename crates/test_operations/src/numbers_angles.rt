// Operations on angles and lengths. An angle goes by its radians, a length by its metres.
#![tactic(auto, unfolding(crate::specs::Rows::answered, crate::specs::NumbersTable::angle_rows))]

ghost use Rattle.std.specs.Prelude.{◌≡◌};
ghost use Rattle.test_operations.specs.Words.{padded};
ghost use Rattle.test_operations.specs.Rows.{answered};
ghost use Rattle.test_operations.specs.NumbersTable.{angle_rows};

use crate::answer::Answer;
use crate::numbers_vectors::vectors;
use crate::words::double_at;
use numbers::{Angle, Length};

// Operations 17 to 27, and all that follow.
pub fn angles(op: u64, a: &[u64; 32]) -> [u64; 24]
    ensures { result ≡ padded (answered angle_rows op a.now) }
{
    let x = double_at(a, 0);
    let y = double_at(a, 1);
    let p = Angle(x);
    let q = Angle(y);
    let l = Length(x);
    match op {
        17 => Angle::from_degrees(x).answer(),
        18 => p.as_degrees().answer(),
        19 => p.abs().answer(),
        20 => p.normalised().answer(),
        21 => p.normalised_to(q).answer(),
        22 => (-p).answer(),
        23 => (p == q).answer(),
        24 => l.abs().answer(),
        25 => (-l).answer(),
        26 => (l * y).answer(),
        27 => (l / Length(y)).answer(),
        _ => vectors(op, a),
    }
}
