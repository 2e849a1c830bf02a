// The check of a sheet: refusals 1 to 6, and the kind list.
pub(crate) mod admit;
pub(crate) mod first_line;
pub(crate) mod kind_walk;
pub(crate) mod names;

ghost use Rattle.std.specs.Prelude.{◌≡◌, ◌&&◌, ◌≤◌, leb, length, take};
ghost use Rattle.sheets.specs.Refusals.{refusal_number};
ghost use Rattle.sheets.specs.code.Refusals.{refusal_of};
ghost use Rattle.sheets.specs.Answers.{laid, CheckOwes};

use crate::answers::CheckAnswer;
use crate::check::admit::admit;
use crate::refusals::{Refusal, Refused};

// Refusal 1, of a sheet of n bytes.
pub fn is_sized(n: usize) -> bool
    ensures { result ≡ (leb 1 n && leb n 16384) }
{
    1 <= n && n <= 16384
}

// The kind codes of so many lines into the kind list.
fn put_codes(codes: [u8; 96], lines: usize, kinds: &mut [u8])
    requires { (lines ≤ 96) × (length kinds.old ≡ 96) }
    ensures { kinds.new ≡ laid (take lines codes) kinds.old }
{
    kinds[..lines].copy_from_slice(&codes[..lines]);
}

// The answer where a sheet is refused.
fn refused(r: Refused) -> CheckAnswer
    ensures { result ≡ record { number = refusal_number (refusal_of r.refusal); line = r.line } }
{
    CheckAnswer {
        number: r.refusal.number(),
        line: r.line,
    }
}

// A passing check answers number 0 and writes one kind code a line, 255 for line 1; a refusing one writes nothing.
pub fn check(sheet: &[u8], kinds: &mut [u8]) -> CheckAnswer
    ensures { CheckOwes sheet.now kinds.old result kinds.new }
{
    let sized = is_sized(sheet.len());
    if !sized {
        return refused(Refusal::Size.at(0));
    }
    if kinds.len() != 96 {
        return refused(Refusal::Lent.at(0));
    }
    let a = admit(sheet);
    match a {
        Err(r) => refused(r),
        Ok(passing) => {
            put_codes(passing.codes, passing.lines, kinds);
            CheckAnswer { number: 0, line: 0 }
        }
    }
}
