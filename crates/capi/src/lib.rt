// The C functions of include/boresheet.h: the check and the run of `sheets`, a slice as a pointer and a length, the refusal's number as the answer. `line` and `written` are set on every return.
#![tactic(auto)]

ghost use Rattle.sheets.specs.declared.answers.CheckAnswer.{CheckAnswer};
ghost use Rattle.sheets.specs.declared.answers.RunAnswer.{RunAnswer};
ghost use Rattle.sheets.specs.Answers.{CheckOwes, RunOwes};

use sheets::check::check;
use sheets::run::run;

#[unsafe(no_mangle)]
pub extern "C" fn boresheet_check(sheet: &[u8], kinds: &mut [u8], line: &mut u32) -> u32
    ensures { CheckOwes sheet.now kinds.old (record { number = result; line = line.new }) kinds.new }
{
    let a = check(sheet, kinds);
    let at = a.line;
    *line = at as u32;
    let number = a.number;
    number as u32
}

#[unsafe(no_mangle)]
pub extern "C" fn boresheet_run(
    sheet: &[u8],
    readings: &[f64],
    out: &mut [u8],
    line: &mut u32,
    written: &mut u64,
) -> u32
    ensures { RunOwes sheet.now readings.now out.old (record { number = result; line = line.new; written = written.new }) out.new }
{
    let r = run(sheet, readings, out);
    let at = r.line;
    *line = at as u32;
    let count = r.written;
    *written = count as u64;
    let number = r.number;
    number as u32
}
