// What the check and the run answer for a sheet, and what they leave in their buffers.
// Both buffers are the first bytes of larger ones full of 200, which is no kind code and no byte of a text: what still holds it was not written.
// An error is that of a write that failed.
ghost use Rattle.std.specs.Prelude.{◌≡◌, ◌≤◌, length};
ghost use Rattle.std.specs.Counts.{IsPrefixLen};

use crate::cases::Lent;
use sheets::check::check;
use sheets::run::run;
use std::io;
use test_cases::print::put;

// What stands in each byte that was not written.
const UNWRITTEN: u8 = 200;

// How many bytes were written before the first that was not.
fn written(s: &[u8]) -> usize
    ensures { IsPrefixLen result s.now }
{
    s.iter().position(|b| *b == UNWRITTEN).unwrap_or(s.len())
}

// Whether no byte was written.
fn untouched(s: &[u8]) -> bool {
    s.iter().all(|b| *b == UNWRITTEN)
}

// The kind codes that were written, and `?` if they do not stand at the start.
fn codes(rt: &impl Print, kinds: &[u8]) -> io::Result<()> {
    let n = written(kinds);
    for kind in &kinds[..n] {
        print!(rt; " {kind}")?;
    }
    if !untouched(&kinds[n..]) {
        put(rt, b" ?")?;
    }
    Ok(())
}

// The text that was written, and `?` if it does not stand at the start or the answer counts it wrong.
fn text(rt: &impl Print, out: &[u8], count: usize) -> io::Result<()> {
    let n = written(out);
    put(rt, &out[..n])?;
    if n != count {
        put(rt, b"?\n")?;
    }
    if !untouched(&out[n..]) {
        put(rt, b"?\n")?;
    }
    Ok(())
}

// `check`, the number, the line and the kind codes, where so many bytes of the buffer are lent.
fn checked(rt: &impl Print, s: &[u8], kinds: &mut [u8], lent: usize) -> io::Result<()>
    requires { IsPrefixLen lent kinds.old }
{
    let a = check(s, &mut kinds[..lent]);
    print!(rt; "check {} {}", a.number, a.line)?;
    codes(rt, kinds)?;
    put(rt, b"\n")
}

// `run`, the number, the line and the count of bytes, and on the next lines the text, where so many bytes of the buffer are lent.
fn ran(rt: &impl Print, s: &[u8], readings: &[f64], out: &mut [u8], lent: usize) -> io::Result<()>
    requires { IsPrefixLen lent out.old }
{
    let a = run(s, readings, &mut out[..lent]);
    println!(rt; "run {} {} {}", a.number, a.line, a.written)?;
    text(rt, out, a.written)
}

// The answers for a sheet where this much is lent.
pub fn sheet(rt: &impl Print, s: &[u8], readings: &[f64], lent: Lent) -> io::Result<()>
    requires { (lent.kinds ≤ 256) × (lent.readings ≤ 128) × (lent.output ≤ 32768) × (length readings.now ≡ 128) }
{
    let mut kinds = [UNWRITTEN; 256];
    checked(rt, s, &mut kinds, lent.kinds)?;
    let mut out = [UNWRITTEN; 32768];
    let n = lent.readings;
    ran(rt, s, &readings[..n], &mut out, lent.output)
}
