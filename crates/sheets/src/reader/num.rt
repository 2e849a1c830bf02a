// The NUM at a place: its sign, its digits as one number, and how many of them stand behind the point.
ghost use Rattle.std.specs.Prelude.{◌≡◌, ◌<◌, ◌≤◌};
ghost use Rattle.sheets.specs.code.reader.Codes.{digit};
ghost use Rattle.sheets.specs.code.reader.Reader.{chars, read_whole, read_num, read_unsigned};
ghost use Rattle.sheets.specs.code.reader.Views.{digits_read, counted, doubled, unsigned_double};

use crate::reader::bytes::{byte, digit};
use numbers::float::decimal;

// Some digits: their number, how many there are, and the place after them.
#[derive(Clone, Copy)]
pub struct DigitsRead {
    pub value: u64,
    pub count: usize,
    pub end: usize,
}

// A NUM: its sign, all its digits as one number, how many stand behind the point, and the place after it.
#[derive(Clone, Copy)]
pub struct Numeral {
    pub minus: bool,
    pub digits: u64,
    pub behind: usize,
    pub end: usize,
}

// The digits at a place, at most `most`; `before` is the number that the digits before them made.
fn digits(s: &[u8], at: usize, most: usize, before: u64) -> DigitsRead
    requires { (most ≤ 9) × (before < 1000000000) }
    ensures { result ≡ digits_read before (chars digit most s.now at) at }
{
    let mut value = before;
    for count in 0..most {
        let Some(d) = digit(byte(s, at + count)) else {
            return DigitsRead {
                value,
                count,
                end: at + count,
            };
        };
        value = value * 10 + d;
    }
    DigitsRead {
        value,
        count: most,
        end: at + most,
    }
}

// What follows the sign, or the NUM where there is none: digits, and perhaps a point and digits behind it.
fn num_whole(s: &[u8], minus: bool, at: usize) -> Option<Numeral>
    ensures { result ≡ counted (read_whole minus s.now at) }
{
    let d = digits(s, at, 9, 0);
    if d.count == 0 {
        return None;
    }
    let end = d.end;
    let b = byte(s, end);
    if b == b'.' {
        let f = digits(s, end + 1, 6, d.value);
        if f.count == 0 {
            return None;
        }
        return Some(Numeral {
            minus,
            digits: f.value,
            behind: f.count,
            end: f.end,
        });
    }
    Some(Numeral {
        minus,
        digits: d.value,
        behind: 0,
        end,
    })
}

// The NUM at a place.
pub fn num(s: &[u8], at: usize) -> Option<Numeral>
    ensures { result ≡ counted (read_num s.now at) }
{
    let b = byte(s, at);
    if b == b'-' {
        return num_whole(s, true, at + 1);
    }
    num_whole(s, false, at)
}

// The NUM at a place as a double, the nearest to it, and the place after it.
pub fn double(s: &[u8], at: usize) -> Option<(f64, usize)>
    ensures { result ≡ doubled (read_num s.now at) }
{
    let x = num(s, at)?;
    let v = decimal(x.minus, x.digits, 10u64.pow(x.behind as u32));
    Some((v, x.end))
}

// The same of a NUM without a minus; one that has it is not read.
pub fn unsigned(s: &[u8], at: usize) -> Option<(f64, usize)>
    ensures { result ≡ unsigned_double (read_unsigned s.now at) }
{
    let sign = byte(s, at);
    if sign == b'-' {
        return None;
    }
    double(s, at)
}
