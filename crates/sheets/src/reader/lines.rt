// The lines of a sheet after line 1. `line_head` gives what every reader of a line begins with; `line_end` reads on to its end.
ghost use Rattle.std.specs.Prelude.{◌≡◌, ◌+◌, leb};
ghost use Rattle.sheets.specs.code.reader.Reader.{read_word, read_unsigned, opening, spaced, first, one, from_rows, whole_rows, read_line};
ghost use Rattle.sheets.specs.code.reader.Views.{place, closed, short_end, coded, unsigned_double, named_at, head_told, bare_head, line_head};

use crate::reader::bytes::{byte, stands, word};
use crate::reader::expr::expr;
use crate::reader::num::unsigned;
use crate::reader::words;

// A line's word: its code, and where it stands, from its first byte to the place after it.
#[derive(Clone, Copy)]
pub struct NameAt {
    pub code: u64,
    pub from: usize,
    pub end: usize,
}

// A line that is read whole: which it is, with its word where it has one, or its NUM as a double.
#[derive(Clone, Copy)]
pub enum WholeLine {
    Show(NameAt),
    Total,
    Apart(f64),
}

// What a line is: a let, with its word and the place of its expression; or any other line, and the place of the next one.
#[derive(Clone, Copy)]
pub enum LineHead {
    Let(NameAt, usize),
    Whole(WholeLine, usize),
}

// `(` and a word: its code, and the place after it.
pub fn opening(s: &[u8], at: usize) -> Option<(u64, usize)>
    ensures { result ≡ coded (opening s.now at) }
{
    let b = byte(s, at);
    if b == b'(' {
        return word(s, at + 1);
    }
    None
}

// The same: `(show `, `(let ` and `(total)` are known by their bytes, which is quicker than by the word's code; any other word is read.
fn line_word(s: &[u8], at: usize) -> Option<(u64, usize)>
    ensures { result ≡ coded (opening s.now at) }
{
    if stands(s, at, b"(show ") {
        return Some((words::SHOW, at + 5));
    }
    if stands(s, at, b"(let ") {
        return Some((words::LET, at + 4));
    }
    if stands(s, at, b"(total)") {
        return Some((words::TOTAL, at + 6));
    }
    opening(s, at)
}

// A space and a word.
pub(crate) fn word_slot(s: &[u8], at: usize) -> Option<(u64, usize)>
    ensures { result ≡ coded (spaced (read_word s.now) s.now at) }
{
    let b = byte(s, at);
    if b == b' ' {
        return word(s, at + 1);
    }
    None
}

// `)` and LF: the place after them.
pub(crate) fn closing(s: &[u8], at: usize) -> Option<usize>
    ensures { result ≡ closed s.now at }
{
    let b = byte(s, at);
    if b == b')' {
        let c = byte(s, at + 1);
        if c == b'\n' {
            return Some(at + 2);
        }
    }
    None
}

// A space, a word, and the end of the line: the word, and the place of the next line.
pub(crate) fn one_word(s: &[u8], at: usize) -> Option<(NameAt, usize)>
    ensures { result ≡ named_at (at + 1) (one read_word (λ w. w) s.now at) }
{
    let (code, n) = word_slot(s, at)?;
    let next = closing(s, n)?;
    let name = NameAt {
        code,
        from: at + 1,
        end: n,
    };
    Some((name, next))
}

// A space, a word, and the space before the next part: the word, and the place of that part.
fn first_word(s: &[u8], at: usize) -> Option<(NameAt, usize)>
    ensures { result ≡ named_at (at + 1) (first read_word (λ w. w) s.now at) }
{
    let (code, n) = word_slot(s, at)?;
    let b = byte(s, n);
    if b == b' ' {
        let name = NameAt {
            code,
            from: at + 1,
            end: n,
        };
        return Some((name, n + 1));
    }
    None
}

// A space, a NUM without a minus, and the end of the line: the NUM as a double, and the place of the next line.
fn one_unsigned(s: &[u8], at: usize) -> Option<(f64, usize)>
    ensures { result ≡ unsigned_double (one read_unsigned (λ q. q) s.now at) }
{
    let b = byte(s, at);
    if b == b' ' {
        let (x, n) = unsigned(s, at + 1)?;
        let next = closing(s, n)?;
        return Some((x, next));
    }
    None
}

// A line without parts, from the place after the word that opens it.
fn bare(s: &[u8], at: usize, line: WholeLine) -> Option<LineHead>
    ensures { result ≡ bare_head line (closed s.now at) }
{
    let next = closing(s, at)?;
    Some(LineHead::Whole(line, next))
}

// A line that is read whole, by the code of the word that opens it, and from the place after that word.
fn whole_head(s: &[u8], code: u64, at: usize) -> Option<LineHead>
    ensures { result ≡ head_told at (from_rows whole_rows code s.now at) }
{
    match code {
        words::SHOW => {
            let (name, next) = one_word(s, at)?;
            Some(LineHead::Whole(WholeLine::Show(name), next))
        }
        words::TOTAL => bare(s, at, WholeLine::Total),
        words::APART => {
            let (least, next) = one_unsigned(s, at)?;
            Some(LineHead::Whole(WholeLine::Apart(least), next))
        }
        _ => None,
    }
}

// Which line stands at a place, by the word that opens it.
pub fn line_head(s: &[u8], at: usize) -> Option<LineHead>
    ensures { result ≡ line_head s.now at }
{
    let (code, n) = line_word(s, at)?;
    match code {
        words::LET => {
            let (name, value) = first_word(s, n)?;
            Some(LineHead::Let(name, value))
        }
        _ => whole_head(s, code, n),
    }
}

// Whether a line that stands at `at` has at most 200 bytes, where the next one stands at `next`.
pub(crate) fn is_short(at: usize, next: usize) -> bool
    ensures { result ≡ leb next (at + 200) }
{
    if 200 < next {
        return next - 200 <= at;
    }
    true
}

// The end of a line of at most 200 bytes. A line that is read whole never has more, and is tested as every line is.
fn short_end(at: usize, next: usize) -> Option<usize>
    ensures { result ≡ short_end at next }
{
    if is_short(at, next) {
        return Some(next);
    }
    None
}

// The place after the line at a place.
pub fn line_end(s: &[u8], at: usize) -> Option<usize>
    ensures { result ≡ place (read_line s.now at) }
{
    let h = line_head(s, at)?;
    match h {
        LineHead::Whole(_, next) => short_end(at, next),
        LineHead::Let(_, value) => {
            let n = expr(s, value, 11)?;
            let next = closing(s, n)?;
            short_end(at, next)
        }
    }
}
