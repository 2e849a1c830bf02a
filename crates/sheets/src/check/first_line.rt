// Line 1 of a sheet by what it says: the ellipsoid, and refusal 4.
ghost use Rattle.std.specs.Prelude.{◌≡◌, ◌&&◌};
ghost use Rattle.numbers.specs.Ops.{num};
ghost use Rattle.numbers.specs.Lengths.{metres};
ghost use Rattle.frames.specs.Ellipsoids.{ellipsoid};
ghost use Rattle.sheets.specs.Limits.{between};
ghost use Rattle.sheets.specs.code.reader.Reader.{read_head};
ghost use Rattle.sheets.specs.code.check.FirstLines.{first_in, first_of};

use crate::reader::head::{HeadLine, head};
use frames::Ellipsoid;
use numbers::Length;

// The ellipsoid, where no number of line 1 is out of range, and the place of line 2.
#[derive(Clone, Copy)]
pub struct FirstLine {
    pub ellipsoid: Option<Ellipsoid>,
    pub next: usize,
}

// From the first to the second; a NaN lies in no range.
fn is_between(low: f64, high: f64, x: f64) -> bool
    ensures { result ≡ between low high x }
{
    low <= x && x <= high
}

// The equatorial radius in metres, and the inverse flattening.
fn in_range(radius: f64, inverse: f64) -> bool
    ensures { result ≡ (between (num 1000000) (num 10000000) radius && between (num 100) (num 1000) inverse) }
{
    is_between(1000000.0, 10000000.0, radius) && is_between(100.0, 1000.0, inverse)
}

// The ellipsoid with these two numbers, where they are in range.
fn by_numbers(radius: f64, inverse: f64) -> Option<Ellipsoid>
    ensures { result ≡ first_in (between (num 1000000) (num 10000000) radius && between (num 100) (num 1000) inverse) (ellipsoid (metres radius) inverse) }
{
    if in_range(radius, inverse) {
        let e = Ellipsoid::new(Length::from_metres(radius), inverse);
        return Some(e);
    }
    None
}

// None where the bytes begin with no line 1.
pub fn first_line(s: &[u8]) -> Option<FirstLine>
    ensures { result ≡ first_of (read_head s.now) }
{
    let (line, next) = head(s)?;
    let ellipsoid = match line {
        HeadLine::Wgs84 => Some(Ellipsoid::wgs84()),
        HeadLine::Custom(radius, inverse) => by_numbers(radius, inverse),
    };
    Some(FirstLine { ellipsoid, next })
}
