// A file of readings: sixteen lines, each ended by LF, and nothing behind them. A line is a NUM as in a sheet, or the sixteen hexadecimal digits of a double's bits.
ghost use Rattle.std.specs.Prelude.{◌≡◌};
ghost use Rattle.boresheet.specs.code.Readings.{ended_at, reading_at, readings_of};

use crate::hex::hex;
use sheets::reader::bytes::byte;
use sheets::reader::num::double;

// Why a file is no file of readings: its first line that is none, by its number; how many lines there are where they are too few; or that something stands behind line 16.
#[derive(Clone, Copy, Debug, PartialEq, Eq)]
pub enum BadReadings {
    Line(usize),
    Short(usize),
    Long,
}

// What was read, if LF follows it, and the place after the LF.
pub fn ended(s: &[u8], d: Option<(f64, usize)>) -> Option<(f64, usize)>
    ensures { result ≡ ended_at s.now d }
{
    let (x, n) = d?;
    let b = byte(s, n);
    if b == b'\n' {
        return Some((x, n + 1));
    }
    None
}

// The reading of the line at a place, and the place of the next line.
pub fn reading(s: &[u8], at: usize) -> Option<(f64, usize)>
    ensures { result ≡ reading_at s.now at }
{
    match ended(s, double(s, at)) {
        Some(found) => Some(found),
        None => ended(s, hex(s, at)),
    }
}

// The readings of a file's bytes. The number of the line at `at` is `i` + 1, stepped at each LF.
pub fn readings_of(s: &[u8]) -> Result<[f64; 16], BadReadings>
    ensures { result ≡ readings_of s.now }
{
    let mut values = [0.0; 16];
    let mut at: usize = 0;
    for i in 0..16 {
        if s.len() <= at {
            return Err(BadReadings::Short(i));
        }
        let Some((x, next)) = reading(s, at) else {
            return Err(BadReadings::Line(i + 1));
        };
        values[i] = x;
        at = next;
    }
    if at < s.len() {
        return Err(BadReadings::Long);
    }
    Ok(values)
}
