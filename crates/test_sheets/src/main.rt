// Reads sheets with their readings from standard input, and prints what the check and the run of `sheets` answer for each.
// The stored input has document 01's sheets to try, and more, whose answers are written down from the document (the tried sheets); behind them 1,500 sheets of all sorts, made at random, whose answers are those of the Rust run beside (the sampled sheets); and at the end a line that is no sheet.
// A sheet is a line of the input: how many bytes it has, as four hexadecimal digits, a space, the bits of the sixteen readings, sixteen digits and a space each, and the sheet's bytes, two digits each.
// Where a comma stands instead of the last of these spaces, three lengths stand before the sheet's bytes, four digits and a space each: so many places of the kind list, readings and bytes of output are lent; else as many as document 01 asks for. Readings behind the sixteenth are 0.
// Sizes are 0 to 16,385, one beyond the largest sheet. What is not of this form is answered by `?`, and nothing behind it is read.
#![tactic(auto)]

mod cases;
mod report;

use std::io;
use std::io::Read;
use test_cases::input::{read_bytes, read_full, size};
use test_cases::print::put;

// Reads what stands behind the head of a sheet, and prints the answers for it: whether all is of the form. An error is that of a read or a write that failed.
fn answered(rt: &impl Print, input: &mut impl Read, head: &[u8; 277]) -> io::Result<bool> {
    let Some(readings) = cases::readings(head) else {
        return Ok(false);
    };
    let Some(lent) = cases::lengths(input, head[276])? else {
        return Ok(false);
    };
    let Some(count) = size(head) else {
        return Ok(false);
    };
    let mut sheet = [0u8; 16385];
    let Some(count) = read_bytes(input, &mut sheet, count)? else {
        return Ok(false);
    };
    report::sheet(rt, &sheet[..count], &readings, lent)?;
    Ok(true)
}

// Reads one sheet and prints the answers for it: whether to go on. An error is that of a read or a write that failed.
fn next(rt: &impl Print, input: &mut impl Read) -> io::Result<bool> {
    let mut head = [0u8; 277];
    let got = read_full(input, &mut head)?;
    if got == 0 {
        return Ok(false);
    }
    let fine = answered(rt, input, &head)?;
    if !fine {
        put(rt, b"?\n")?;
    }
    Ok(fine)
}

// Nothing says that the input ends, so the sheets are counted, to a number that no run uses up. (As in test_forms: one function for both would be handed a closure over the output and the input, and be no plainer.)
fn main(rt: HostRuntime) -> io::Result<()> {
    let mut input = rt.stdin();
    for _ in 0..u64::MAX {
        if !next(&rt, &mut input)? {
            break;
        }
    }
    Ok(())
}
