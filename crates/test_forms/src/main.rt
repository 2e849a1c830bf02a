// Reads sheets from standard input, and prints what the reader of `sheets` finds in each.
// A sheet is a line of the input: how many bytes it has, as four hexadecimal digits, a space, and the bytes, two digits each.
// Sizes are 1 to 16,384: any other is refusal 1, and no matter of the reader. What is not of this form is answered by `?`, and nothing behind it is read.
#![tactic(auto)]

mod report;
mod text;
mod tree;

ghost use Rattle.std.specs.Prelude.{IfOk, IfSome};
ghost use Rattle.std.specs.Counts.{IsPrefixLen};

use std::io;
use std::io::Read;
use test_cases::input::{read_bytes, read_full, size};
use test_cases::print::put;

// Reads as many bytes as the head says, and puts them at the start of the sheet: how many they are. None where head or bytes are not of the form. An error is that of a read that failed.
fn bytes(input: &mut impl Read, head: &[u8; 5], sheet: &mut [u8]) -> io::Result<Option<usize>>
    ensures { IfOk result (λ read. IfSome read (λ n. IsPrefixLen n sheet.new)) }
{
    match size(head) {
        Some(count) => read_bytes(input, sheet, count),
        None => Ok(None),
    }
}

// Reads one sheet and prints what is found in it: whether to go on. An error is that of a read or a write that failed.
fn next(rt: &impl Print, input: &mut impl Read) -> io::Result<bool> {
    let mut head = [0u8; 5];
    let got = read_full(input, &mut head)?;
    if got == 0 {
        return Ok(false);
    }
    let mut sheet = [0u8; 16384];
    match bytes(input, &head, &mut sheet)? {
        Some(n) if n != 0 => {
            report::sheet(rt, &sheet[..n])?;
            Ok(true)
        }
        _ => {
            put(rt, b"?\n")?;
            Ok(false)
        }
    }
}

// Nothing says that the input ends, so the sheets are counted, to a number that no run uses up. (As in test_sheets: one function for both would be handed a closure over the output and the input, and be no plainer.)
fn main(rt: HostRuntime) -> io::Result<()> {
    let mut input = rt.stdin();
    for _ in 0..u64::MAX {
        if !next(&rt, &mut input)? {
            break;
        }
    }
    Ok(())
}
