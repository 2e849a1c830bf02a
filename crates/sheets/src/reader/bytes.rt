// The bytes of a sheet, one at a time and as words. A place is a byte's number, from 0.
// Every function here and in the other files of the reader takes every list of bytes and every place.
ghost use Rattle.std.specs.Prelude.{◌+◌, min, ◌≡◌, length};
ghost use Rattle.sheets.specs.code.reader.Codes.{letter, word_char};
ghost use Rattle.sheets.specs.code.reader.Reader.{read_word};
ghost use Rattle.sheets.specs.code.reader.Views.{ByteAt, CharOf, DigitOf, stands_at, coded};

// The byte at a place, 0 past the end: 0 is no byte of the grammar, so that what reads a byte tests once.
pub fn byte(s: &[u8], at: usize) -> u8
    ensures { ByteAt s.now at result }
{
    if at < s.len() { s[at] } else { 0 }
}

// Whether the bytes of w stand at a place. A loop: `starts_with` of the rest was tried, and the proof of the clause did not close.
pub(crate) fn stands(s: &[u8], at: usize, w: &[u8]) -> bool
    ensures { result ≡ stands_at w.now s.now at }
{
    if s.len() < at {
        return false;
    }
    if s.len() - at < w.len() {
        return false;
    }
    for i in 0..w.len() {
        if s[at + i] != w[i] {
            return false;
        }
    }
    true
}

// 1 to 26 for a to z.
pub fn letter(b: u8) -> Option<u64>
    ensures { CharOf 26 (letter b) b result }
{
    match b {
        b'a'..=b'z' => Some((b - b'a') as u64 + 1),
        _ => None,
    }
}

// 1 to 26 for a to z, 27 to 36 for 0 to 9. Tested in this order: what ends a word, a space or a bracket, is known by one test.
pub fn word_char(b: u8) -> Option<u64>
    ensures { CharOf 36 (word_char b) b result }
{
    if b < b'0' {
        return None;
    }
    match b {
        b'0'..=b'9' => Some((b - b'0') as u64 + 27),
        b'a'..=b'z' => Some((b - b'a') as u64 + 1),
        _ => None,
    }
}

// A digit's value.
pub fn digit(b: u8) -> Option<u64>
    ensures { DigitOf b result }
{
    match b {
        b'0'..=b'9' => Some((b - b'0') as u64),
        _ => None,
    }
}

// Where a word at a place ends at the latest: with the bytes, or after 12 characters.
fn word_limit(s: &[u8], at: usize) -> usize
    ensures { result ≡ min (length s.now) (at + 12) }
{
    let n = s.len();
    if at < n {
        if 12 < n - at {
            return at + 12;
        }
    }
    n
}

// The WORD at a place: its code in base 37, and the place after it.
pub fn word(s: &[u8], at: usize) -> Option<(u64, usize)>
    ensures { result ≡ coded (read_word s.now at) }
{
    let mut code = letter(byte(s, at))?;
    let end = word_limit(s, at);
    for i in at + 1..end {
        let Some(d) = word_char(s[i]) else {
            return Some((code, i));
        };
        code = code * 37 + d;
    }
    Some((code, end))
}
