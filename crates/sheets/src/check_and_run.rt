// Demands 1 and 3 and the sentences of requests Two and Three, said of the code: what the check and the run answer and write, over the same sheet.
ghost use Rattle.sheets.specs.Both.{Both};

use crate::answers::{CheckAnswer, RunAnswer};
use crate::check::check;
use crate::run::run;

#[derive(Clone, Copy)]
pub struct BothAnswers {
    pub checked: CheckAnswer,
    pub ran: RunAnswer,
}

pub fn check_and_run(
    sheet: &[u8],
    readings: &[f64],
    kinds: &mut [u8],
    out: &mut [u8],
) -> BothAnswers
    ensures { Both sheet.now readings.now kinds.old out.old result kinds.new out.new }
{
    let checked = check(sheet, kinds);
    let ran = run(sheet, readings, out);
    BothAnswers { checked, ran }
}
