// Operations on numbers alone.
#![tactic(auto, unfolding(crate::specs::Rows::answered, crate::specs::NumbersTable::table))]

ghost use Rattle.std.specs.Prelude.{◌≡◌};
ghost use Rattle.test_operations.specs.Words.{padded};
ghost use Rattle.test_operations.specs.Rows.{answered};
ghost use Rattle.test_operations.specs.NumbersTable.{table};

use crate::answer::Answer;
use crate::numbers_angles::angles;
use crate::words::double_at;
use numbers::arctangent::{asin, atan2};
use numbers::powers::{powf_third, powf_three_halves};
use numbers::root::sqrt;
use numbers::sine::{cos, sin};
use numbers::{float, numbers as compare};

// Operations 0 to 16, and all that follow.
pub fn floats(op: u64, a: &[u64; 32]) -> [u64; 24]
    ensures { result ≡ padded (answered table op a.now) }
{
    let x = double_at(a, 0);
    let y = double_at(a, 1);
    match op {
        0 => sqrt(x).answer(),
        1 => sin(x).answer(),
        2 => cos(x).answer(),
        3 => atan2(x, y).answer(),
        4 => asin(x).answer(),
        5 => powf_third(x).answer(),
        6 => powf_three_halves(x).answer(),
        7 => float::to_radians(x).answer(),
        8 => float::to_degrees(x).answer(),
        9 => float::abs(x).answer(),
        10 => float::clamp_unit(x).answer(),
        11 => float::rem(x, y).answer(),
        12 => float::decimal(a[0] == 1, a[1], a[2]).answer(),
        13 => compare::eq_zero(x).answer(),
        14 => compare::eq(x, y).answer(),
        15 => compare::lte(x, y).answer(),
        16 => compare::gte(x, y).answer(),
        _ => angles(op, a),
    }
}
