// How words and doubles are printed. An error is that of a write that failed.
use std::io;
use test_cases::print::put;

// The sixteen hexadecimal digits of a double's bits. No number of a sheet is NaN.
pub fn double(rt: &impl Print, x: f64) -> io::Result<()> {
    if x != x {
        return put(rt, b"?");
    }
    let bits = f64::to_bits(x);
    print!(rt; "{bits:016x}")
}

// The last character of a word's code. 0 stands for none, and no word's code has it.
fn character(code: u64) -> u8 {
    match (code % 37) as u8 {
        0 => b'?',
        d @ 1..=26 => b'a' + (d - 1),
        d => b'0' + (d - 27),
    }
}

// A word, from its code alone: the last character is what is left of the code by 37, and a word has at most twelve.
pub fn word(rt: &impl Print, code: u64) -> io::Result<()> {
    let mut text = [0u8; 12];
    let mut begin: usize = 12;
    let mut rest = code;
    for i in (0..12).rev() {
        if rest == 0 {
            break;
        }
        text[i] = character(rest);
        rest /= 37;
        begin = i;
    }
    put(rt, &text[begin..])
}
