// Operations that make a value of its parts and take it apart again.
#![tactic(auto, unfolding(crate::specs::Rows::answered, crate::specs::NumbersTable::part_rows, numbers::proofs::Computed::computed, crate::specs::Words::vector_at, crate::specs::Words::matrix_at, crate::specs::Words::double_at))]

ghost use Rattle.std.specs.Prelude.{◌≡◌};
ghost use Rattle.test_operations.specs.Words.{padded};
ghost use Rattle.test_operations.specs.Rows.{answered};
ghost use Rattle.test_operations.specs.NumbersTable.{part_rows};

use crate::answer::Answer;
use crate::numbers_quotients::quotients;
use crate::words::{double_at, matrix_at, vector_at};
use numbers::{Angle, Length, Mat33, Vec3, float};

// Operations 52 to 58, and all that follow.
pub fn parts(op: u64, a: &[u64; 32]) -> [u64; 24]
    ensures { result ≡ padded (answered part_rows op a.now) }
{
    let x = double_at(a, 0);
    match op {
        52 => components(vector_at(a, 0)).answer(),
        53 => rows(matrix_at(a, 0)).answer(),
        54 => made(matrix_at(a, 0)).answer(),
        55 => Angle::from_radians(x).as_radians().answer(),
        56 => Length::from_metres(x).as_metres().answer(),
        57 => float::sign_bit(x).answer(),
        58 => Length::ZERO.answer(),
        _ => quotients(op, a),
    }
}

fn components(v: Vec3) -> Vec3
    ensures { result ≡ v }
{
    let x = v.x();
    let y = v.y();
    let z = v.z();
    Vec3 { x, y, z }
}

fn rows(m: Mat33) -> Mat33
    ensures { result ≡ m }
{
    let r0 = m.row0();
    let r1 = m.row1();
    let r2 = m.row2();
    Mat33 { r0, r1, r2 }
}

fn made(m: Mat33) -> Mat33
    ensures { result ≡ m }
{
    let r0 = m.r0;
    let r1 = m.r1;
    let r2 = m.r2;
    Mat33::new(r0, r1, r2)
}
