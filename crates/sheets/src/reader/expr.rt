// The EXPR at a place, read by recursion on the nesting left: the place after it, or None where it is not of the grammar.
ghost use Rattle.std.specs.Prelude.{◌≡◌};
ghost use Rattle.sheets.specs.code.reader.Reader.{read_args, read_expr};
ghost use Rattle.sheets.specs.code.reader.Views.{place};

use crate::reader::bytes::{byte, word};
use crate::reader::num::num;

// The expression at a place, with at most `depth` brackets in each other.
#[cycle(args_expr)]
pub fn expr(s: &[u8], at: usize, depth: usize) -> Option<usize>
    ensures { result ≡ place (read_expr depth s.now at) }
{
    let b = byte(s, at);
    if b == b'(' {
        if depth == 0 {
            return None;
        }
        let (_, n) = word(s, at + 1)?;
        return args(s, n, depth - 1, 5);
    }
    if let Some((_, n)) = word(s, at) {
        return Some(n);
    }
    let x = num(s, at)?;
    Some(x.end)
}

// At most `left` arguments, each after a space, and the closing bracket.
#[cycle(args_expr)]
fn args(s: &[u8], at: usize, depth: usize, left: usize) -> Option<usize>
    ensures { result ≡ place (read_args (read_expr depth s.now) left s.now at) }
{
    let b = byte(s, at);
    if b == b')' {
        return Some(at + 1);
    }
    if left == 0 {
        return None;
    }
    if b == b' ' {
        let n = expr(s, at + 1, depth)?;
        return args(s, n, depth, left - 1);
    }
    None
}
