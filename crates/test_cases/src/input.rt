// Hexadecimal digits, and the sizes, words and bytes that they stand for.
ghost use Rattle.std.specs.Prelude.{◌≡◌, ◌+◌, ◌*◌, ◌^◌, ◌<◌, ◌≤◌, length, IfOk, IfSome, OnErr};
ghost use Rattle.std.specs.Counts.{IsPrefixLen};

use std::io;
use std::io::Read;

// The number of a hexadecimal digit, in lower case.
fn hex_digit(b: u8) -> Option<u64>
    ensures { IfSome result (λ d. d < 16) }
{
    match b {
        b'0'..=b'9' => Some((b - b'0') as u64),
        b'a'..=b'f' => Some((b - b'a') as u64 + 10),
        _ => None,
    }
}

// The number of hexadecimal digits, sixteen at most.
fn hexadecimal(digits: &[u8]) -> Option<u64>
    requires { length digits.now ≤ 16 }
    ensures { IfSome result (λ n. n < 16 ^ length digits.now) }
{
    let mut n: u64 = 0;
    for b in digits {
        n = n * 16 + hex_digit(*b)?;
    }
    Some(n)
}

// The size that a line says at its start, in four digits and a space.
pub fn size(s: &[u8]) -> Option<usize>
    ensures { IfSome result (λ n. n < 65536) }
{
    let head = s.get(..5)?;
    if head[4] != b' ' {
        return None;
    }
    Some(hexadecimal(&head[..4])? as usize)
}

// The word of a space and sixteen digits.
fn word(place: &[u8]) -> Option<u64>
    requires { length place.now ≡ 17 }
{
    if place[0] != b' ' {
        return None;
    }
    hexadecimal(&place[1..])
}

// The `count` words of a line from a place on, each a space and sixteen digits, and 0 behind them. None where they are not that, where the line ends before them, or where they are more than 32.
pub fn words(s: &[u8], start: usize, count: usize) -> Option<[u64; 32]>
    ensures { IfSome result (λ _. (count ≤ 32) × (start + 17 * count ≤ length s.now)) }
{
    if 32 < count {
        return None;
    }
    let places = s.get(start..)?.get(..17 * count)?;
    let mut words = [0u64; 32];
    for (i, place) in places.chunks_exact(17).enumerate() {
        words[i] = word(place)?;
    }
    Some(words)
}

// Puts the bytes of pairs of digits into `sheet`, as many as it has, which is returned: where they are digits, and LF follows.
fn decode(digits: &[u8], sheet: &mut [u8]) -> Option<usize>
    requires { length digits.now ≡ 2 * length sheet.old + 1 }
    ensures { IfSome result (λ n. IsPrefixLen n sheet.new) }
{
    let count = sheet.len();
    if digits[2 * count] != b'\n' {
        return None;
    }
    for (i, byte) in sheet.iter_mut().enumerate() {
        *byte = hexadecimal(&digits[2 * i..2 * i + 2])? as u8;
    }
    Some(count)
}

// Reads until `buf` is full or the input ends: how many bytes stand at the start of `buf`. An error is that of a read that failed; what came before it may stand in `buf`.
pub fn read_full(input: &mut impl Read, buf: &mut [u8]) -> io::Result<usize>
    ensures ok { IfOk result (λ n. IsPrefixLen n buf.new) }
    ensures err { OnErr result (length buf.new ≡ length buf.old) }
{
    let mut done: usize = 0;
    // No range and no iterator: what a read gives is the step.
    while done < buf.len() {
        let n = input.read(&mut buf[done..])?;
        if n == 0 {
            break;
        }
        done += n;
    }
    Ok(done)
}

// Reads `count` bytes, two digits each and LF behind them, and puts them at the start of `sheet`: how many they are. None where they are not that; nothing is read where they are more than `sheet` holds, or than 32,767. An error is that of a read that failed, and leaves `sheet` as it was.
pub fn read_bytes(
    input: &mut impl Read,
    sheet: &mut [u8],
    count: usize,
) -> io::Result<Option<usize>>
    ensures ok { IfOk result (λ read. IfSome read (λ n. IsPrefixLen n sheet.new)) }
    ensures err { OnErr result (sheet.new ≡ sheet.old) }
{
    if 32767 < count {
        return Ok(None);
    }
    if sheet.len() < count {
        return Ok(None);
    }
    let mut digits = [0u8; 65536];
    let wanted = 2 * count + 1;
    read_full(input, &mut digits[..wanted])?;
    Ok(decode(&digits[..wanted], &mut sheet[..count]))
}
