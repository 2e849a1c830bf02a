// The lines of the output.
use numbers::float::abs;
use std::{fmt, io};

// A figure as it is published, with the value that was computed for it.
#[derive(Clone, Copy)]
pub struct Figure {
    // What it is, and the number with its unit.
    text: &'static str,
    value: f64,
    published: f64,
    // Half a unit of the number's last decimal; 0 where the number is exact.
    half: f64,
}

impl Figure {
    // A number that is rounded to its last decimal.
    pub fn rounded(text: &'static str, value: f64, published: f64, half: f64) -> Self {
        Figure {
            text,
            value,
            published,
            half,
        }
    }

    pub fn exact(text: &'static str, value: f64, published: f64) -> Self {
        Figure::rounded(text, value, published, 0.0)
    }

    // Whether the value is within half a unit of the number, or a little more for the rounding of the number itself.
    fn is_met(&self) -> bool {
        abs(self.value - self.published) <= self.half * 1.000001
    }
}

impl fmt::Display for Figure {
    fn fmt<W: fmt::Write>(&self, f: &mut fmt::Formatter<W>) -> fmt::Result {
        let met = if self.is_met() { "met" } else { "NOT met" };
        write!(f, "{}: {met}", self.text)
    }
}

// A line for each figure. An error is that of a write that failed.
pub fn report(rt: &impl Print, figures: &[Figure]) -> io::Result<()> {
    for figure in figures {
        println!(rt; "{figure}")?;
    }
    Ok(())
}
