// The lines that are read whole: what each writes, and what is kept of it.
ghost use Rattle.std.specs.Prelude.{◌≡◌, ◌≤◌};
ghost use Rattle.std.proofs.Math.Option.{some};
ghost use Rattle.sheets.specs.code.run.Known.{found_at};
ghost use Rattle.sheets.specs.code.run.Apart.{apart_answer};
ghost use Rattle.sheets.specs.code.run.Wholes.{Names, TestedLine, ShownAs, TotalLine, LineDoes};

use crate::reader::lines::{NameAt, WholeLine};
use crate::refusals::Refusal;
use crate::rows::limits::{in_limit, is_near};
use crate::rows::value::Slot;
use crate::run::apart::stand_apart;
use crate::run::readings::reading_index;
use crate::run::shown::Shown;
use crate::run::text::{output_line, total_line};
use crate::{Halt, Value};
use numbers::Length;

// The code of a show's word; of another line it does not matter, so that it needs no Option. The slot at the word's place is looked up by the caller, which holds the table.
pub fn named(line: WholeLine) -> u64
    ensures { Names line result }
{
    let WholeLine::Show(name) = line else {
        return 0;
    };
    name.code
}

// A value is tested, and its line written under the name that stands in `s` from `from` to `end`: the bytes then written. Where refusal 7 meets it, nothing is written.
fn tested_line(
    s: &[u8],
    from: usize,
    end: usize,
    v: Value,
    out: &mut [u8],
    written: usize,
) -> Result<usize, Halt>
    ensures { TestedLine s.now from end v out.old written result out.new }
{
    if in_limit(v) {
        let n = output_line(s, from, end, v, out, written);
        return Ok(n);
    }
    Err(Halt::Refused(Refusal::Limit))
}

// A show of a value, which stands at a place among the names: the place of a g is kept, and a length goes into the sum.
fn show_value(
    s: &[u8],
    name: NameAt,
    v: Value,
    place: usize,
    shown: &mut Shown,
    out: &mut [u8],
    written: usize,
) -> Result<usize, Halt>
    requires { place ≤ 95 }
    ensures { ShownAs s.now name (some v) place shown.old out.old written result shown.new out.new }
{
    let n = tested_line(s, name.from, name.end, v, out, written)?;
    shown.keep(place, v);
    Ok(n)
}

// A show of a word, by its place j and the slot x there: of what the slot holds, or of a reading, whose place is 0.
fn show(
    s: &[u8],
    name: NameAt,
    j: usize,
    x: Slot,
    floats: &[f64; 2940],
    shown: &mut Shown,
    out: &mut [u8],
    written: usize,
) -> Result<usize, Halt>
    requires { j ≤ 95 }
    ensures { ShownAs s.now name (found_at x.value floats.now name.code j) j shown.old out.old written result shown.new out.new }
{
    let v = if j == 0 {
        let Some(i) = reading_index(name.code) else {
            return Err(Halt::Sticks);
        };
        Value::Number(floats[i])
    } else {
        x.value
    };
    show_value(s, name, v, j, shown, out, written)
}

// A total: the sum of the lengths shown, tested as an l.
fn total(sum: Length, out: &mut [u8], written: usize) -> Result<usize, Halt>
    ensures { TotalLine sum out.old written result out.new }
{
    if is_near(sum.0) {
        let n = total_line(sum, out, written);
        return Ok(n);
    }
    Err(Halt::Refused(Refusal::Limit))
}

// An apart: its number is tested as an n, and then what was shown.
fn apart(
    least: f64,
    floats: &[f64; 2940],
    shown: &[bool; 96],
    written: usize,
) -> Result<usize, Halt>
    ensures { result ≡ apart_answer least floats.now shown.now written }
{
    if is_near(least) {
        if stand_apart(least, floats, shown) {
            return Ok(written);
        }
        return Err(Halt::Refused(Refusal::Apart));
    }
    Err(Halt::Refused(Refusal::Limit))
}

// A line, where its word stands at the place j and x is the slot there; where it names none both are left aside.
pub fn whole_line(
    s: &[u8],
    line: WholeLine,
    j: usize,
    x: Slot,
    floats: &[f64; 2940],
    shown: &mut Shown,
    out: &mut [u8],
    written: usize,
) -> Result<usize, Halt>
    requires { j ≤ 95 }
    ensures { LineDoes s.now line j x.value floats.now shown.old out.old written result shown.new out.new }
{
    match line {
        WholeLine::Show(name) => show(s, name, j, x, floats, shown, out, written),
        WholeLine::Total => total(shown.sum, out, written),
        WholeLine::Apart(least) => apart(least, floats, &shown.places, written),
    }
}
