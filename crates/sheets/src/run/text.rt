// An output line in a lent buffer: name, kind, fields and LF.
ghost use Rattle.std.specs.Prelude.{◌≡◌, ◌∷◌, ◌++◌, ◌+◌, ◌*◌, ◌≤◌, length};
ghost use Rattle.sheets.specs.Kinds.{orientation_name};
ghost use Rattle.sheets.specs.Output.{fields_text};
ghost use Rattle.sheets.specs.code.run.Writing.{Written, value_text, fitting, room, line_if, total_if};

use crate::Value;
use crate::run::fields::{put_byte, put_fields, put_text};
use frames::Orientation;
use numbers::Length;

// The name of an orientation.
fn put_orientation(o: Orientation, out: &mut [u8], at: usize) -> usize
    requires { at + 4 ≤ length out.old }
    ensures { Written out.old at (orientation_name o) out.new result }
{
    match o {
        Orientation::Enu => put_text(b"enu", out, at),
        Orientation::Ned => put_text(b"ned", out, at),
        Orientation::Body => put_text(b"body", out, at),
        Orientation::Wan => put_text(b"wan", out, at),
    }
}

// A kind without an orientation, by its letter, and fields.
fn put_plain(letter: u8, fields: &[f64], out: &mut [u8], at: usize) -> usize
    requires { at + 1 + length fields.now * 17 ≤ length out.old }
    ensures { Written out.old at (letter ∷ fields_text fields.now) out.new result }
{
    let i = put_byte(letter, out, at);
    put_fields(fields, out, i)
}

// A kind with an orientation, by its letter, and fields.
fn put_oriented(letter: u8, o: Orientation, fields: &[f64], out: &mut [u8], at: usize) -> usize
    requires { at + 5 + length fields.now * 17 ≤ length out.old }
    ensures { Written out.old at (letter ∷ (orientation_name o ++ fields_text fields.now)) out.new result }
{
    let i = put_byte(letter, out, at);
    let j = put_orientation(o, out, i);
    put_fields(fields, out, j)
}

// The value's kind and its fields: at most 209 bytes, five letters and twelve fields of 17.
fn put_value(v: Value, out: &mut [u8], at: usize) -> usize
    requires { at + 209 ≤ length out.old }
    ensures { Written out.old at (value_text v) out.new result }
{
    match v {
        Value::Number(x) => put_plain(b'n', &[x], out, at),
        Value::Radians(x) => put_plain(b'a', &[x.0], out, at),
        Value::Metres(x) => put_plain(b'l', &[x.0], out, at),
        Value::Geocentric(p) => put_plain(b'g', &[p.x.0, p.y.0, p.z.0], out, at),
        Value::Geodetic(p) => {
            let n = p.hp.0;
            put_plain(b'd', &[n.x, n.y, n.z, p.height.0], out, at)
        }
        Value::Vector(p) => put_oriented(b'v', p.orientation, &[p.x.0, p.y.0, p.z.0], out, at),
        Value::Frame(p) => {
            let m = p.dir_rm;
            let fields = [
                p.origin.x, p.origin.y, p.origin.z, m.r0.x, m.r0.y, m.r0.z, m.r1.x, m.r1.y, m.r1.z,
                m.r2.x, m.r2.y, m.r2.z,
            ];
            put_oriented(b'f', p.orientation, &fields, out, at)
        }
    }
}

// Whether the bytes from `from` to `end` are at most 12 of a sheet of this length, and 223 bytes of the buffer are left: 12, a space, 209 and LF.
#[tactic(auto, unfolding(crate::specs::code::run::Writing::fitting))]
fn has_room(length: usize, from: usize, end: usize, size: usize, at: usize) -> bool
    ensures { result ≡ fitting length from end size at }
{
    from <= end && end <= length && end - from <= 12 && 223 <= size.saturating_sub(at)
}

// The line of a value, under the name that stands in the sheet from `from` to `end`, at a place of a buffer, and the place after it. Where there is no room nothing is written.
pub fn output_line(s: &[u8], from: usize, end: usize, v: Value, out: &mut [u8], at: usize) -> usize
    ensures { Written out.old at (line_if (room s.now from end out.old at) s.now from end v) out.new result }
{
    if !has_room(s.len(), from, end, out.len(), at) {
        return at;
    }
    let i = put_text(&s[from..end], out, at);
    let j = put_byte(b' ', out, i);
    let k = put_value(v, out, j);
    put_byte(b'\n', out, k)
}

// The line of a total at a place of a buffer, and the place after it. Where there is no room nothing is written.
// It is not written by `output_line`: with two callers that would no longer be compiled into the loop over lines, and each show would copy its value once more.
pub fn total_line(sum: Length, out: &mut [u8], at: usize) -> usize
    ensures { Written out.old at (total_if out.old at sum) out.new result }
{
    if !has_room(5, 0, 5, out.len(), at) {
        return at;
    }
    let i = put_text(b"total ", out, at);
    let n = put_plain(b'l', &[sum.0], out, i);
    put_byte(b'\n', out, n)
}
