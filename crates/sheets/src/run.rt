// The run of a sheet over sixteen readings: refusals 1 to 6 over the whole sheet before line 2 runs, then its lines.
pub(crate) mod apart;
pub(crate) mod apply;
pub(crate) mod bracket;
pub(crate) mod eval;
pub(crate) mod fields;
pub(crate) mod floats;
pub(crate) mod laid;
pub(crate) mod lines_run;
pub(crate) mod oriented_rows;
pub(crate) mod plain_rows;
pub(crate) mod readings;
pub(crate) mod shown;
pub(crate) mod text;
pub(crate) mod whole;

ghost use Rattle.sheets.specs.Answers.{RunOwes};

use crate::answers::{RunAnswer, run_answer};
use crate::check::admit::admit;
use crate::check::is_sized;
use crate::refusals::Refusal;
use crate::run::lines_run::run_lines;

// It writes exactly the text of the shows and totals, in the first bytes of the output, and answers how many bytes it has.
pub fn run(sheet: &[u8], readings: &[f64], out: &mut [u8]) -> RunAnswer
    ensures { RunOwes sheet.now readings.now out.old result out.new }
{
    let sized = is_sized(sheet.len());
    if !sized {
        return run_answer(Refusal::Size.number(), 0, 0);
    }
    if readings.len() != 16 {
        return run_answer(Refusal::Lent.number(), 0, 0);
    }
    if out.len() != 24576 {
        return run_answer(Refusal::Lent.number(), 0, 0);
    }
    let a = admit(sheet);
    match a {
        Err(r) => run_answer(r.refusal.number(), r.line, 0),
        Ok(passing) => run_lines(sheet, passing.start, passing.ellipsoid, readings, out),
    }
}
