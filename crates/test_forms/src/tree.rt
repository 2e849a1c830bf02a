// An expression, printed as it is nested: each word from its code, each number as its double's bits. An error is that of a write that failed.
use crate::text::{double, word};
use sheets::reader::bytes::byte;
use sheets::reader::expr::expr;
use sheets::reader::lines::opening;
use std::io;
use test_cases::print::put;

// A word or a number.
fn leaf(rt: &impl Print, s: &[u8], at: usize) -> io::Result<()> {
    if let Some((code, _)) = sheets::reader::bytes::word(s, at) {
        return word(rt, code);
    }
    number(rt, s, at)
}

// A number.
fn number(rt: &impl Print, s: &[u8], at: usize) -> io::Result<()> {
    match sheets::reader::num::double(s, at) {
        Some((x, _)) => double(rt, x),
        None => put(rt, b"?"),
    }
}

// The expression at a place, with at most `depth` brackets in each other.
#[cycle(arguments_tree)]
pub fn tree(rt: &impl Print, s: &[u8], at: usize, depth: usize) -> io::Result<()> {
    let Some((code, n)) = opening(s, at) else {
        return leaf(rt, s, at);
    };
    put(rt, b"(")?;
    word(rt, code)?;
    if 0 < depth {
        arguments(rt, s, n, depth - 1)?;
    }
    put(rt, b")")
}

// The arguments of a bracket, each after a space.
#[cycle(arguments_tree)]
fn arguments(rt: &impl Print, s: &[u8], at: usize, depth: usize) -> io::Result<()> {
    let mut i = at;
    for _ in 0..5 {
        let b = byte(s, i);
        if b != b' ' {
            return Ok(());
        }
        put(rt, b" ")?;
        tree(rt, s, i + 1, depth)?;
        i = expr(s, i + 1, depth).unwrap_or(i + 1);
    }
    Ok(())
}
