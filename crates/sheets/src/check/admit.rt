// Refusals 3 to 6 over a whole sheet, in checking order: its form, its ellipsoid, and then names and kinds, line by line.
// `names` are those of kind_walk.rt.
ghost use Rattle.std.specs.Prelude.{◌≡◌, ℕ, ◌-◌};
ghost use Rattle.sheets.specs.code.reader.Reader.{got, let_word, rest, read_line, read_lines, read_sheet};
ghost use Rattle.sheets.specs.code.reader.Views.{lines_form};
ghost use Rattle.sheets.specs.Trees.{show_line};
ghost use Rattle.sheets.specs.LineNumbers.{line_number};
ghost use Rattle.sheets.specs.Answers.{of_form};
ghost use Rattle.sheets.specs.code.check.Walking.{ForKnown, BarredWord, ForScope, LineHas, WordHas, WholeHas, short_kind, LinesWalk, unless_bad, Admits};

use crate::check::first_line::first_line;
use crate::check::kind_walk::kind_at;
use crate::check::names::Names;
use crate::reader::form::form_from;
use crate::reader::lines::{LineHead, WholeLine, closing, is_short, line_head};
use crate::refusals::{Refusal, Refused};
use crate::rows::kinds::opens;
use frames::Ellipsoid;

// Of a line that passes: the code of its word, 0 for none, as `Names` stores it, its kind code, and the place of the next line.
#[derive(Clone, Copy)]
pub struct LineKind {
    pub code: u64,
    pub kind: u8,
    pub next: usize,
}

// Of a sheet that passes: how many lines it has, its ellipsoid, the place of line 2, and the kind code of each line, 255 for line 1.
#[derive(Clone, Copy)]
pub struct Admission {
    pub lines: usize,
    pub ellipsoid: Ellipsoid,
    pub start: usize,
    pub codes: [u8; 96],
}

// Whether the word with this code cannot be given: it is an operator's, or known.
fn is_barred(names: &Names, code: u64) -> bool
    ensures { ForKnown names.now (λ ps. BarredWord code ps result) }
{
    if opens(code) {
        return true;
    }
    names.kind(code).is_some()
}

// A line that names the word with this code, where the next line stands at `next`: the word's kind, or refusal 5 where it is unknown.
fn known_kind(code: u64, next: usize, names: &Names) -> Result<LineKind, Refusal>
    ensures { ForScope names.now (λ i c. WordHas code (λ w. got (show_line w) next) i c result) }
{
    let Some(kind) = names.kind(code) else {
        return Err(Refusal::Name);
    };
    Ok(LineKind { code, kind, next })
}

// A line that names no word has the code 0 for it.
fn nameless(kind: u8, next: usize) -> LineKind
    ensures { result ≡ record { code = 0; kind = kind; next = next } }
{
    LineKind {
        code: 0,
        kind,
        next,
    }
}

// A line that is read whole, where the next line stands at `next`.
fn whole_kind(line: WholeLine, next: usize, names: &Names) -> Result<LineKind, Refusal>
    ensures { ForScope names.now (λ i c. WholeHas line next i c result) }
{
    match line {
        WholeLine::Show(name) => known_kind(name.code, next, names),
        WholeLine::Total => Ok(nameless(2, next)),
        WholeLine::Apart(_) => Ok(nameless(254, next)),
    }
}

// A let of the word with this code, from the place of its expression, which is read before the name is given.
fn let_kind(s: &[u8], code: u64, at: usize, names: &Names) -> Result<LineKind, Refusal>
    ensures { ForScope names.now (λ i c. WordHas code (λ w. rest s.now (let_word w) at) i c result) }
{
    let (kind, end) = kind_at(s, at, 11, names)?;
    if is_barred(names, code) {
        return Err(Refusal::Name);
    }
    let Some(next) = closing(s, end) else {
        return Err(Refusal::Form);
    };
    Ok(LineKind { code, kind, next })
}

// A line that stands at `at`, where it has at most 200 bytes; else refusal 3.
fn short_kind(at: usize, line: LineKind) -> Result<LineKind, Refusal>
    ensures { result ≡ short_kind at (Ok line) }
{
    if is_short(at, line.next) {
        return Ok(line);
    }
    Err(Refusal::Form)
}

// The line at a place. Its expression is read once: the line ends behind it.
fn line_kind(s: &[u8], at: usize, names: &Names) -> Result<LineKind, Refusal>
    ensures { ForScope names.now (λ i c. LineHas (read_line s.now at) i c result) }
{
    match line_head(s, at) {
        None => Err(Refusal::Form),
        Some(LineHead::Let(name, value)) => {
            let r = let_kind(s, name.code, value, names)?;
            short_kind(at, r)
        }
        Some(LineHead::Whole(line, next)) => {
            let r = whole_kind(line, next, names)?;
            short_kind(at, r)
        }
    }
}

// The refusal of a line, unless a line from line `from` on, which stands at `at`, is not of the grammar: that comes first.
fn unless_bad(s: &[u8], at: usize, from: usize, refused: Refused) -> Refused
    requires { from ≡ line_number s.now at }
    ensures { (p : ℕ) → result ≡ unless_bad (lines_form from (read_lines (97 - from) from p s.now at)) refused }
{
    let f = form_from(s, at, from);
    match f {
        Err(bad) => Refusal::Form.at(bad),
        Ok(_) => refused,
    }
}

// The lines from line 2, which stands at `start`. The number of the line at `at` is `passed` + 2, stepped at each LF; a 97th is one too many.
// What the reader reads is never refused by 3, so that a 3 is final.
// `s` is the sheet as a slice of this function's own, which is lent as it stands; a slice that came from the caller would be copied for every call.
fn walk_lines(sheet: &[u8], start: usize, ellipsoid: Ellipsoid) -> Result<Admission, Refused>
    requires { 2 ≡ line_number sheet.now start }
    ensures { LinesWalk (read_lines 95 2 0 sheet.now start) ellipsoid start result }
{
    let size = sheet.len();
    let s = &sheet[..size];
    let mut names = Names::new();
    let mut passed: usize = 0;
    let mut at = start;
    // No `for`: it ends with the bytes, and one over the lines' numbers would say twice what is answered then.
    while at < s.len() {
        let line = passed + 2;
        if 95 <= passed {
            return Err(Refusal::Form.at(97));
        }
        match line_kind(s, at, &names) {
            Err(Refusal::Form) => {
                return Err(Refusal::Form.at(line));
            }
            Err(refusal) => {
                return Err(unless_bad(s, at, line, refusal.at(line)));
            }
            Ok(r) => {
                passed += 1;
                names.give(r.code, r.kind, passed);
                at = r.next;
            }
        }
    }
    Ok(Admission {
        lines: passed + 1,
        ellipsoid,
        start,
        codes: names.kinds,
    })
}

// Refusals 3 to 6 of a whole sheet: the form of every line comes before the range of line 1, and that before names and kinds. A sheet that passes is read once.
pub fn admit(s: &[u8]) -> Result<Admission, Refused>
    ensures { Admits s.now (of_form (read_sheet s.now)) result }
{
    let Some(line) = first_line(s) else {
        return Err(Refusal::Form.at(1));
    };
    match line.ellipsoid {
        None => Err(unless_bad(s, line.next, 2, Refusal::Ellipsoid.at(1))),
        Some(ellipsoid) => walk_lines(s, line.next, ellipsoid),
    }
}
