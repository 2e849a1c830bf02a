// Sixteen hexadecimal digits at a place of a file, and the double whose bits they are.
ghost use Rattle.std.specs.Prelude.{◌≡◌, ◌+◌, ◌<◌, ◌≤◌, MatchOption};
ghost use Rattle.boresheet.specs.Format.{hex_number};
ghost use Rattle.boresheet.specs.code.Readings.{hex_at};

use numbers::float::double;
use sheets::reader::bytes::byte;

// The number of a hexadecimal digit of either case. (That of test_cases is of lower case alone, and a program stands on no test crate.)
#[tactic(auto, unfolding(crate::specs::Format::hex_number))]
pub fn hex_digit(b: u8) -> Option<u64>
    ensures { MatchOption result (hex_number b ≡ 16) (λ d. (d ≡ hex_number b) × (d < 16) × (16 ≤ d + b)) }
{
    match b {
        b'0'..=b'9' => Some((b - b'0') as u64),
        b'A'..=b'F' => Some((b - b'A') as u64 + 10),
        b'a'..=b'f' => Some((b - b'a') as u64 + 10),
        _ => None,
    }
}

// The double of the sixteen digits at a place, and the place after them.
pub fn hex(s: &[u8], at: usize) -> Option<(f64, usize)>
    ensures { result ≡ hex_at s.now at }
{
    let mut bits: u64 = 0;
    for i in 0..16 {
        let Some(d) = hex_digit(byte(s, at + i)) else {
            return None;
        };
        bits = bits * 16 + d;
    }
    let x = double(bits);
    Some((x, at + 16))
}
