// Answers recorded operations: a line of standard input is an operation and its inputs, a line of standard output the operation and its outputs.
// Three decimal digits, then a space and sixteen hexadecimal digits for each word. A line of another form is answered by `?`.
#![tactic(auto)]

mod answers;
mod tables;

ghost use Rattle.std.specs.Prelude.{◌≡◌, ◌≤◌, length, IfOk, IfSome, OnErr};

use std::io;
use std::io::Read;
use test_cases::print::put;

// Writes the answer to a line. An error is that of a write that failed.
fn respond(rt: &impl Print, s: &[u8]) -> io::Result<()> {
    let mut out = [0u8; 412];
    let n = answers::line(s, &mut out);
    put(rt, &out[..n])
}

// Answers each line that ends in the chunk. `held` has the n bytes of the line so far. Of a longer line it keeps as many as it can hold: no line of the form has so many. An error is that of a write that failed; lines before it are answered.
fn feed(rt: &impl Print, chunk: &[u8], held: &mut [u8], n: usize) -> io::Result<usize>
    requires { n ≤ length held.old }
    ensures ok { IfOk result (λ at. at ≤ length held.new) }
    ensures err { OnErr result (length held.new ≡ length held.old) }
{
    let mut at = n;
    for b in chunk {
        if *b == b'\n' {
            respond(rt, &held[..at])?;
            at = 0;
        } else if at < held.len() {
            held[at] = *b;
            at += 1;
        }
    }
    Ok(at)
}

// Reads once, and answers the lines that end in what came: how many bytes the line so far has, none at the end of the input. An error is that of a read or a write that failed.
fn some(
    rt: &impl Print,
    input: &mut impl Read,
    held: &mut [u8],
    n: usize,
) -> io::Result<Option<usize>>
    requires { n ≤ length held.old }
    ensures ok { IfOk result (λ more. IfSome more (λ n. n ≤ length held.new)) }
    ensures err { OnErr result (length held.new ≡ length held.old) }
{
    let mut buffer = [0u8; 65536];
    let got = input.read(&mut buffer)?;
    if got == 0 {
        return Ok(None);
    }
    Ok(Some(feed(rt, &buffer[..got], held, n)?))
}

// Reads to the end of the input: how many bytes stand after the last LF. An error is that of a read or a write that failed.
// Nothing says that the input ends, so the reads are counted, to a number that no run uses up.
fn all(rt: &impl Print, input: &mut impl Read, held: &mut [u8]) -> io::Result<usize> {
    let mut n: usize = 0;
    for _ in 0..u64::MAX {
        let Some(more) = some(rt, input, held, n)? else {
            break;
        };
        n = more;
    }
    Ok(n)
}

fn main(rt: HostRuntime) -> io::Result<()> {
    let mut held = [0u8; 548];
    let n = all(&rt, &mut rt.stdin(), &mut held)?;
    if n > 0 {
        put(&rt, b"?\n")?;
    }
    Ok(())
}
