// The rows over vectors and frames, as in plain_rows.rt; the arguments share their orientation.
ghost use Rattle.std.specs.Prelude.{◌≡◌, [], ◌∷◌, ◌+◌, ◌≤◌};
ghost use Rattle.sheets.specs.Kinds.{number, angle, geocentric, vector, frame};
ghost use Rattle.sheets.specs.code.run.Evaluating.{RowLaid, axis_in};

use crate::reader::words;
use crate::rows::args::Axis;
use crate::rows::frame_rows;
use crate::run::bracket::Bracket;
use crate::run::floats::{angle_at, frame_at, geocentric_at, number_at, vector_at};
use crate::run::laid::laid;
use crate::{Evaluated, Halt, rows};
use frames::Orientation;

// v: neg, swap, bearing, elev, range.
pub fn vector_row(b: Bracket, o: Orientation, floats: &mut [f64; 2940]) -> Evaluated
    ensures { RowLaid b.e b.code (vector o ∷ []) floats.old b.top result floats.new }
{
    let vector = vector_at(floats, b.top, o);
    match b.code {
        words::NEG => laid(rows::apply_neg(b.e, vector), floats, b.top),
        words::SWAP => laid(rows::apply_swap(b.e, vector), floats, b.top),
        words::BEARING => laid(rows::apply_bearing(b.e, vector), floats, b.top),
        words::ELEV => laid(rows::apply_elev(b.e, vector), floats, b.top),
        words::RANGE => laid(rows::apply_range(b.e, vector), floats, b.top),
        _ => Err(Halt::Sticks),
    }
}

// v v: add, sub.
pub fn vectors_row(b: Bracket, o: Orientation, floats: &mut [f64; 2940]) -> Evaluated
    ensures { RowLaid b.e b.code (vector o ∷ vector o ∷ []) floats.old b.top result floats.new }
{
    let v = vector_at(floats, b.top, o);
    let w = vector_at(floats, b.top + 21, o);
    match b.code {
        words::ADD | words::SUB => {
            let minus = b.code == words::SUB;
            laid(rows::apply_sum(b.e, minus, v, w), floats, b.top)
        }
        _ => Err(Halt::Sticks),
    }
}

// v n: scale.
pub fn scale_row(b: Bracket, o: Orientation, floats: &mut [f64; 2940]) -> Evaluated
    ensures { RowLaid b.e b.code (vector o ∷ number ∷ []) floats.old b.top result floats.new }
{
    let vector = vector_at(floats, b.top, o);
    let factor = number_at(floats, b.top + 21);
    if b.code == words::SCALE {
        return laid(rows::apply_scale(b.e, vector, factor), floats, b.top);
    }
    Err(Halt::Sticks)
}

// The axis in the words rz, ry, rx.
fn axis_in(code: u64) -> Axis
    ensures { result ≡ axis_in code }
{
    match code {
        words::RZ => Axis::Z,
        words::RY => Axis::Y,
        _ => Axis::X,
    }
}

// f: origin, rz, ry, rx.
pub fn frame_row(b: Bracket, o: Orientation, floats: &mut [f64; 2940]) -> Evaluated
    ensures { RowLaid b.e b.code (frame o ∷ []) floats.old b.top result floats.new }
{
    let frame = frame_at(floats, b.top, o);
    match b.code {
        words::ORIGIN => laid(rows::apply_origin(b.e, frame), floats, b.top),
        words::RZ | words::RY | words::RX => {
            let axis = axis_in(b.code);
            laid(rows::apply_angle(b.e, axis, frame), floats, b.top)
        }
        _ => Err(Halt::Sticks),
    }
}

// f a: turn.
pub fn turn_row(b: Bracket, o: Orientation, floats: &mut [f64; 2940]) -> Evaluated
    ensures { RowLaid b.e b.code (frame o ∷ angle ∷ []) floats.old b.top result floats.new }
{
    let frame = frame_at(floats, b.top, o);
    let angle = angle_at(floats, b.top + 21);
    if b.code == words::TURN {
        return laid(frame_rows::apply_turn(b.e, frame, angle), floats, b.top);
    }
    Err(Halt::Sticks)
}

// f g: to.
pub fn to_row(b: Bracket, o: Orientation, floats: &mut [f64; 2940]) -> Evaluated
    ensures { RowLaid b.e b.code (frame o ∷ geocentric ∷ []) floats.old b.top result floats.new }
{
    let frame = frame_at(floats, b.top, o);
    let position = geocentric_at(floats, b.top + 21);
    if b.code == words::TO {
        return laid(rows::apply_to(b.e, frame, position), floats, b.top);
    }
    Err(Halt::Sticks)
}

// f v: at.
pub fn at_row(b: Bracket, o: Orientation, floats: &mut [f64; 2940]) -> Evaluated
    ensures { RowLaid b.e b.code (frame o ∷ vector o ∷ []) floats.old b.top result floats.new }
{
    let frame = frame_at(floats, b.top, o);
    let vector = vector_at(floats, b.top + 21, o);
    if b.code == words::AT {
        return laid(rows::apply_at(b.e, frame, vector), floats, b.top);
    }
    Err(Halt::Sticks)
}

// f v a a a: move.
pub fn move_row(b: Bracket, o: Orientation, floats: &mut [f64; 2940]) -> Evaluated
    ensures { RowLaid b.e b.code (frame o ∷ vector o ∷ angle ∷ angle ∷ angle ∷ []) floats.old b.top result floats.new }
{
    let frame = frame_at(floats, b.top, o);
    let vector = vector_at(floats, b.top + 21, o);
    let yaw = angle_at(floats, b.top + 42);
    let pitch = angle_at(floats, b.top + 63);
    let roll = angle_at(floats, b.top + 84);
    if b.code == words::MOVE {
        return laid(
            frame_rows::apply_move(b.e, frame, vector, yaw, pitch, roll),
            floats,
            b.top,
        );
    }
    Err(Halt::Sticks)
}
