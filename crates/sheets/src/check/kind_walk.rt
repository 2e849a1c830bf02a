// The kind of an expression, from the sheet alone: refusals 5 and 6 in the machine's order.
// `names` are the words of the lines passed, line i + 1's at the place i, with their kinds.
// Bytes that are not of the grammar are refused, by one refusal or another: the form pass is what answers them (admit.rt). Refusal 3 is of such bytes alone.
ghost use Rattle.sheets.specs.code.check.Walking.{ForKnown, LeafHas, ExprHas, ArgsHave};

use crate::check::names::Names;
use crate::reader::bytes::{byte, word};
use crate::reader::num::num;
use crate::refusals::Refusal;
use crate::rows::kinds::kind_of_row;

// The kind of the word or the number at a place: its code, and the place after the word or the number.
fn leaf_kind(s: &[u8], at: usize, names: &Names) -> Result<(u8, usize), Refusal>
    ensures { ForKnown names.now (λ ps. LeafHas s.now at ps result) }
{
    let Some((code, end)) = word(s, at) else {
        let Some(x) = num(s, at) else {
            return Err(Refusal::Form);
        };
        return Ok((0, x.end));
    };
    let Some(kind) = names.kind(code) else {
        return Err(Refusal::Name);
    };
    Ok((kind, end))
}

// The kind of the expression at a place, with at most `depth` brackets in each other: its code, and the place after the expression.
#[cycle(gather_kind_at)]
pub fn kind_at(s: &[u8], at: usize, depth: usize, names: &Names) -> Result<(u8, usize), Refusal>
    ensures { ForKnown names.now (λ ps. ExprHas s.now at depth ps result) }
{
    let b = byte(s, at);
    if b == b'(' {
        if depth == 0 {
            return Err(Refusal::Form);
        }
        let w = word(s, at + 1);
        let Some((code, n)) = w else {
            return Err(Refusal::Form);
        };
        let (key, end) = gather(s, n, depth - 1, names)?;
        let Some(kind) = kind_of_row(code, key) else {
            return Err(Refusal::Kind);
        };
        return Ok((kind, end));
    }
    leaf_kind(s, at, names)
}

// The kinds of a bracket's arguments as one number, as `kind_of_row` takes it, from the place after its word; and the place after the bracket.
// `bracket` of run/eval.rt goes over them in the same way: a loop for both would call back into either cycle of calls by a closure, with the clauses beside it once more.
#[cycle(gather_kind_at)]
fn gather(s: &[u8], at: usize, depth: usize, names: &Names) -> Result<(u64, usize), Refusal>
    ensures { ForKnown names.now (λ ps. ArgsHave s.now at depth 5 0 ps result) }
{
    let mut i = at;
    let mut key: u64 = 0;
    for _ in 0..5usize {
        if byte(s, i) != b' ' {
            break;
        }
        let (kind, end) = kind_at(s, i + 1, depth, names)?;
        key = key * 16 + kind as u64 + 1;
        i = end;
    }
    if byte(s, i) == b')' {
        return Ok((key, i + 1));
    }
    Err(Refusal::Form)
}
