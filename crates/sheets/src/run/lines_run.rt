// The lines of an admitted sheet, run one after another over the table of names.
ghost use Rattle.std.specs.Prelude.{◌≡◌, ◌+◌, ◌≤◌};
ghost use Rattle.sheets.specs.LineNumbers.{line_number};
ghost use Rattle.sheets.specs.code.run.Running.{LetWith, GivenAt, stopped_at, Runs};

use crate::answers::{RunAnswer, run_answer};
use crate::check::names::Names;
use crate::reader::lines::{LineHead, NameAt, closing, line_head};
use crate::rows::value::{Slot, empty_slot};
use crate::run::eval::eval;
use crate::run::floats::value_at;
use crate::run::readings::put_readings;
use crate::run::shown::Shown;
use crate::run::whole::{named, whole_line};
use crate::{Evaluated, Halt};
use frames::Ellipsoid;

// What a let gives, from the place of its expression: the kind's code of its value, which lies at `top`. Where there is one, `at` is then the place of the next line.
fn let_value(
    s: &[u8],
    at: &mut usize,
    e: Ellipsoid,
    names: &Names,
    floats: &mut [f64; 2940],
    top: usize,
) -> Evaluated
    requires { top + 945 ≤ 2940 }
    ensures { LetWith s.now at.old e names.now floats.old top result at.new floats.new }
{
    let kind = eval(s, at, 11, e, names, floats, top)?;
    let after = closing(s, *at).ok_or(Halt::Sticks)?;
    *at = after;
    Ok(kind)
}

// A name is given at a place, where its value lies: `names` get its word and its kind, and its slot is answered.
fn give(name: NameAt, kind: u8, place: usize, floats: &[f64; 2940], names: &mut Names) -> Slot
    requires { place ≤ 95 }
    ensures { GivenAt name.code kind place floats.now names.old result names.new }
{
    let word = name.code;
    names.give(word, kind, place);
    let value = value_at(kind, floats, 21 * place);
    Slot { word, value }
}

// The answer where a line does not go on. An admitted sheet never sticks, so what is answered then does not matter.
fn stopped(halt: Halt, line: usize, written: usize) -> RunAnswer
    ensures { result ≡ stopped_at halt line written }
{
    match halt {
        Halt::Refused(refusal) => run_answer(refusal.number(), line, written),
        Halt::Sticks => run_answer(0, line, written),
    }
}

// The lines from line 2, which stands at `from`. The number of the line at `at` is `line` + 1 before its turn and `line` in it, stepped at each LF.
// The table of names, which document 01 wants as 96 slots of word and value beside whatever else there is, stays here; slot 0 stays empty. `names` have its words and kinds and `floats` its values, each at its slot's place, for the evaluator.
// A place kept in `shown` is never given to another name: so the position stays where it lies among the floats.
pub fn run_lines(s: &[u8], from: usize, e: Ellipsoid, readings: &[f64], out: &mut [u8]) -> RunAnswer
    requires { 2 ≡ line_number s.now from }
    ensures { Runs s.now from e readings.now out.old result out.new }
{
    let mut t = [empty_slot(); 96];
    let mut names = Names::new();
    let mut shown = Shown::new();
    let mut floats = [0.0; 2940];
    put_readings(readings, &mut floats);
    let mut at = from;
    let mut line: usize = 1;
    let mut n: usize = 0;
    let mut written: usize = 0;
    // No `for`: where the next line stands is known only when its line is read.
    while line < 96 && at < s.len() {
        line += 1;
        match line_head(s, at) {
            None => return run_answer(0, line, written),
            Some(LineHead::Let(name, value)) => {
                n += 1;
                at = value;
                match let_value(s, &mut at, e, &names, &mut floats, 21 * n) {
                    Err(halt) => {
                        return stopped(halt, line, written);
                    }
                    Ok(kind) => {
                        t[n] = give(name, kind, n, &floats, &mut names);
                    }
                }
            }
            Some(LineHead::Whole(w, next)) => {
                let j = names.place(named(w)).unwrap_or(0);
                match whole_line(s, w, j, t[j], &floats, &mut shown, out, written) {
                    Err(halt) => return stopped(halt, line, written),
                    Ok(count) => written = count,
                }
                at = next;
            }
        }
    }
    run_answer(0, 0, written)
}
