// An operator at its arguments, which lie as floats: by their kinds, then by its word.
ghost use Rattle.std.specs.Prelude.{◌≡◌, ◌+◌, ◌≤◌};
ghost use Rattle.sheets.specs.code.run.Evaluating.{ForKinds, ForKindsBeyond, plain_keys, orientation_at, orientation_by};

use crate::run::bracket::Bracket;
use crate::run::oriented_rows::{
    at_row, frame_row, move_row, scale_row, to_row, turn_row, vector_row, vectors_row,
};
use crate::run::plain_rows::{
    aer_row, body_row, lengths_row, look_row, number_row, position_row, wan_row,
};
use crate::{Evaluated, Halt};
use frames::{Ellipsoid, Orientation};

// The row for the word with this code, over arguments of the kinds that made the key, which is written as in kinds.rt: by the key, then by the word.
// Compiled into the evaluator: the run of a sheet of nested brackets takes a few hundredths less so.
#[inline(always)]
pub fn apply(e: Ellipsoid, code: u64, key: u64, floats: &mut [f64; 2940], top: usize) -> Evaluated
    requires { top + 105 ≤ 2940 }
    ensures { ForKinds e code key floats.old top result floats.new }
{
    let b = Bracket { e, code, top };
    match key {
        0x1 => number_row(b, floats),
        0x333 => lengths_row(b, floats),
        0x223 => aer_row(b, floats),
        0x4 => position_row(b, 3, floats),
        0x5 => position_row(b, 4, floats),
        0x24 => wan_row(b, 3, floats),
        0x25 => wan_row(b, 4, floats),
        0x2224 => body_row(b, 3, floats),
        0x2225 => body_row(b, 4, floats),
        0x442 => look_row(b, 3, floats),
        0x552 => look_row(b, 4, floats),
        _ => oriented_row(b, key, floats),
    }
}

// The orientation of a vector or a frame, by the digit of its kind in a key: 6 to 9 and a to d. (Kinds go by their codes, as check/names.rt says, and a key is made of them.)
fn orientation_at(digit: u64) -> Orientation
    ensures { result ≡ orientation_at digit }
{
    match digit {
        0x6 | 0xa => Orientation::Enu,
        0x7 | 0xb => Orientation::Ned,
        0x8 | 0xc => Orientation::Body,
        _ => Orientation::Wan,
    }
}

// The orientation that a key's first digit tells, of one, two or five digits.
fn orientation_by(key: u64) -> Orientation
    ensures { result ≡ orientation_by key }
{
    if key < 0x10 {
        return orientation_at(key);
    }
    if key < 0x100 {
        return orientation_at(key / 0x10);
    }
    orientation_at(key / 0x10000)
}

// The keys with a vector or a frame in them; where there are two, they share the orientation, and the first digit tells it.
#[inline(always)]
fn oriented_row(b: Bracket, key: u64, floats: &mut [f64; 2940]) -> Evaluated
    ensures { ForKindsBeyond plain_keys b.e b.code key floats.old b.top result floats.new }
{
    let o = orientation_by(key);
    match key {
        0x6 | 0x7 | 0x8 | 0x9 => vector_row(b, o, floats),
        0x66 | 0x77 | 0x88 | 0x99 => vectors_row(b, o, floats),
        0x61 | 0x71 | 0x81 | 0x91 => scale_row(b, o, floats),
        0xa | 0xb | 0xc | 0xd => frame_row(b, o, floats),
        0xa2 | 0xb2 | 0xd2 => turn_row(b, o, floats),
        0xa4 | 0xb4 | 0xc4 | 0xd4 => to_row(b, o, floats),
        0xa6 | 0xb7 | 0xc8 | 0xd9 => at_row(b, o, floats),
        0xa6222 | 0xb7222 | 0xc8222 | 0xd9222 => move_row(b, o, floats),
        _ => Err(Halt::Sticks),
    }
}
