// A line of an operation and its inputs, and the line of its answer.
ghost use Rattle.std.specs.Prelude.{◌≡◌, ◌<◌, ◌≤◌, length, IfSome};
ghost use Rattle.std.specs.Counts.{IsPrefixLen};

use crate::tables::{apply, counts};
use test_cases::input::words;

// The number of a decimal digit.
fn decimal_digit(b: u8) -> Option<u64>
    ensures { IfSome result (λ d. d < 10) }
{
    match b {
        b'0'..=b'9' => Some((b - b'0') as u64),
        _ => None,
    }
}

// The operation of the first three digits.
fn operation(s: &[u8]) -> Option<u64>
    ensures { IfSome result (λ op. op < 1000) }
{
    let [hundreds, tens, ones, ..] = s else {
        return None;
    };
    Some(decimal_digit(*hundreds)? * 100 + decimal_digit(*tens)? * 10 + decimal_digit(*ones)?)
}

// The last hexadecimal digit of a word.
fn glyph(d: u64) -> u8 {
    let b = (d % 16) as u8;
    if b < 10 { b'0' + b } else { b'a' + (b - 10) }
}

// The last hexadecimal digits of a word, as many as there are places.
// By hand, since the places are lent: the library's formats write to a text or a stream.
fn put_digits(places: &mut [u8], x: u64) {
    let mut rest = x;
    for place in places.iter_mut().rev() {
        *place = glyph(rest);
        rest /= 16;
    }
}

// The line of an answer: the operation's three digits, as the line s has them, and the words.
fn answer(s: &[u8], words: &[u64], out: &mut [u8]) -> usize
    requires { (3 ≤ length s.now) × (length words.now ≤ 24) × (412 ≤ length out.old) }
    ensures { IsPrefixLen result out.new }
{
    out[..3].copy_from_slice(&s[..3]);
    for (place, word) in out[3..].chunks_exact_mut(17).zip(words) {
        place[0] = b' ';
        put_digits(&mut place[1..], *word);
    }
    let end = 3 + 17 * words.len();
    out[end] = b'\n';
    end + 1
}

// The line for what is no operation with its inputs.
fn refusal(out: &mut [u8]) -> usize
    requires { 412 ≤ length out.old }
    ensures { IsPrefixLen result out.new }
{
    out[..2].copy_from_slice(b"?\n");
    2
}

// The answer to a line, where it is an operation with its inputs.
fn answered(s: &[u8], out: &mut [u8]) -> Option<usize>
    requires { 412 ≤ length out.old }
    ensures some { IfSome result (λ n. IsPrefixLen n out.new) }
    ensures len { length out.new ≡ length out.old }
{
    let op = operation(s)?;
    let n = counts(op)?;
    if s.len() != 3 + 17 * n.inputs {
        return None;
    }
    let inputs = words(s, 3, n.inputs)?;
    let answers = apply(op, &inputs);
    Some(answer(s, &answers[..n.outputs], out))
}

// The answer to a line, which is given without its LF, at the start of out: how many bytes it has, its LF with them.
pub fn line(s: &[u8], out: &mut [u8]) -> usize
    requires { 412 ≤ length out.old }
    ensures { IsPrefixLen result out.new }
{
    match answered(s, out) {
        Some(n) => n,
        None => refusal(out),
    }
}
