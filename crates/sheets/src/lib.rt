// Bore sheets: the check of a sheet and its run over sixteen readings, and what they are made of: values and the table of names, the reader of lines, words, numbers and expressions, the rows of the kind table and the limits, the walk over kinds, the evaluator and the text of a value.
// Other crates see the check, the run and their answers, and the reader: each function of these modules answers by an equation, whatever it is given.
#![tactic(auto)]

pub mod answers;
pub mod check;
pub mod check_and_run;
pub mod reader;
mod refusals;
mod rows;
pub mod run;

use crate::refusals::Refusal;
use frames::{GeocentricPosition, GeodeticPosition, LocalFrame, LocalVector};
use numbers::{Angle, Length};

// A sheet value.
#[derive(Clone, Copy)]
pub(crate) enum Value {
    Number(f64),
    Radians(Angle),
    Metres(Length),
    Geocentric(GeocentricPosition),
    Geodetic(GeodeticPosition),
    Vector(LocalVector),
    Frame(LocalFrame),
}

// Why an operator makes nothing of its arguments: no row of the kind table fits them, or the position is too near the centre.
#[derive(Clone, Copy, PartialEq, Eq, Debug)]
pub(crate) enum Unapplied {
    NoRow,
    Centre,
}

// Why the machine halts: a refusal, 7, 8 or 9, stops it, or it sticks.
#[derive(Clone, Copy, Debug, PartialEq, Eq)]
pub(crate) enum Halt {
    Refused(Refusal),
    Sticks,
}

// The kind code of an expression's value, or why there is none. The place after the expression goes by a reference: with both in one answer a run of nested brackets took up to a third more time.
pub(crate) type Evaluated = Result<u8, Halt>;
