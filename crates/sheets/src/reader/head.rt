// Line 1 of a sheet: `(ellipsoid wgs84)`, or an ellipsoid by two numbers.
ghost use Rattle.std.specs.Prelude.{◌≡◌};
ghost use Rattle.sheets.specs.Text.{ascii};
ghost use Rattle.sheets.specs.Trees.{wgs84, custom};
ghost use Rattle.sheets.specs.code.reader.Reader.{read_num, spaced, one, two, read_the, read_head};
ghost use Rattle.sheets.specs.code.reader.Views.{place, doubled, head_of};

use crate::reader::bytes::byte;
use crate::reader::lines::{closing, one_word, opening};
use crate::reader::num::double;
use crate::reader::words;

// What line 1 says: the ellipsoid of WGS 84, or its two numbers as doubles, the equatorial radius and the inverse flattening.
#[derive(Clone, Copy)]
pub enum HeadLine {
    Wgs84,
    Custom(f64, f64),
}

// A space and a number, as a double.
fn double_slot(s: &[u8], at: usize) -> Option<(f64, usize)>
    ensures { result ≡ doubled (spaced (read_num s.now) s.now at) }
{
    let b = byte(s, at);
    if b == b' ' {
        return double(s, at + 1);
    }
    None
}

// The rest of line 1 after `(ellipsoid`, where it has two numbers.
fn custom(s: &[u8], at: usize) -> Option<(HeadLine, usize)>
    ensures { result ≡ head_of (two read_num read_num custom s.now at) }
{
    let (radius, n) = double_slot(s, at)?;
    let (inverse, m) = double_slot(s, n)?;
    let next = closing(s, m)?;
    Some((HeadLine::Custom(radius, inverse), next))
}

// The rest of line 1 after `(ellipsoid`, where it has the word wgs84.
fn wgs_end(s: &[u8], at: usize) -> Option<usize>
    ensures { result ≡ place (one (read_the (ascii "wgs84")) (λ u. wgs84) s.now at) }
{
    let (name, next) = one_word(s, at)?;
    if name.code == words::WGS84 {
        return Some(next);
    }
    None
}

// Line 1, and the place of the next line. It has at most 48 bytes, so that it needs no test for 200.
pub fn head(s: &[u8]) -> Option<(HeadLine, usize)>
    ensures { result ≡ head_of (read_head s.now) }
{
    let (code, n) = opening(s, 0)?;
    if code == words::ELLIPSOID {
        return match wgs_end(s, n) {
            Some(next) => Some((HeadLine::Wgs84, next)),
            None => custom(s, n),
        };
    }
    None
}
