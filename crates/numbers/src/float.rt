// The bits of a double, the smaller methods of f64 that the Rust uses, its `%`, and the double of a decimal numeral.
ghost use Rattle.std.specs.Prelude.{◌≡◌, from_bits, to_bits};
ghost use Rattle.std.specs.Float.{binary64};
ghost use Rattle.numbers.specs.Floats as Floats;
ghost use Rattle.numbers.specs.Floats.{sign_digit, clamp_unit, to_radians, to_degrees, divided};

use crate::units::{INFINITY_BITS, SIGN, parts, shifted, unit_bits};

pub const PI: f64 = 3.141592653589793;

// The bits of any double; for any NaN 7ff8000000000000.
pub fn bits(x: f64) -> u64
    ensures { result ≡ to_bits binary64 x }
{
    if x != x {
        return 0x7ff8_0000_0000_0000;
    }
    f64::to_bits(x)
}

// The double of any bits.
pub fn double(bits: u64) -> f64
    ensures { result ≡ from_bits binary64 bits }
{
    if bits % SIGN > INFINITY_BITS {
        return 0.0 / 0.0;
    }
    f64::from_bits(bits)
}

// The sign bit, 0 or 1. A NaN's is open, and counts as 0. A number and no bool: `atan2` multiplies by it, where a test would cost a jump.
pub fn sign_bit(x: f64) -> u64
    ensures { result ≡ sign_digit x }
{
    if x != x {
        return 0;
    }
    f64::to_bits(x) / SIGN
}

pub fn abs(x: f64) -> f64
    ensures { result ≡ Floats.abs x }
{
    if x != x {
        return x;
    }
    f64::from_bits(f64::to_bits(x) % SIGN)
}

// clamp(-1.0, 1.0)
pub fn clamp_unit(x: f64) -> f64
    ensures { result ≡ clamp_unit x }
{
    x.clamp(-1.0, 1.0)
}

pub fn to_radians(x: f64) -> f64
    ensures { result ≡ to_radians x }
{
    x * (PI / 180.0)
}

pub fn to_degrees(x: f64) -> f64
    ensures { result ≡ to_degrees x }
{
    x * (180.0 / PI)
}

// Rust's `%`: x less as many times y as fit in it, exactly, with the sign of x. It is worked out in whole numbers, with no call of the C library.
// The last product is exact: what is left has at most 53 digits, and the other factor is one of the last place of y, with the sign of x.
pub fn rem(x: f64, y: f64) -> f64
    ensures { result ≡ Floats.remainder x y }
{
    let b = bits(x);
    let a = b % SIGN;
    let d = bits(y) % SIGN;
    if a >= INFINITY_BITS || d > INFINITY_BITS || d == 0 {
        return 0.0 / 0.0;
    }
    if a < d {
        return x;
    }
    let p = parts(a);
    let q = parts(d);
    let rest = shifted(p.m, p.e - q.e, q.m);
    rest as f64 * double(b - a + unit_bits(q.e))
}

// Digits and tens, each as the double nearest to it, divided, and negated where `negative`. Where both are doubles exactly, and tens is not 0, that is the double nearest to digits / tens, ties to even.
pub fn decimal(negative: bool, digits: u64, tens: u64) -> f64
    ensures { result ≡ divided negative digits tens }
{
    let v = std::num::nearest_u64_to_f64(digits) / std::num::nearest_u64_to_f64(tens);
    if negative { -v } else { v }
}
