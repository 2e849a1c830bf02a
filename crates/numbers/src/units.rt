// The bits of a finite double as a whole number times a power of two, and the remainder of two such numbers. A unit is 2^-1074, the smallest double.
ghost use Rattle.std.specs.Prelude.{◌≡◌, ◌*◌, ◌%◌, ◌^◌, ◌<◌, ◌≤◌};
ghost use Rattle.numbers.specs.code.Units.{Parted, UnitBits};

// A pattern's exponent counts in steps of 2^52.
pub const TWO_52: u64 = 0x10_0000_0000_0000;

// The bits of infinity and of minus zero, which are the weight of the sign bit.
pub const INFINITY_BITS: u64 = 0x7ff0_0000_0000_0000;

pub const MINUS_ZERO_BITS: u64 = 0x8000_0000_0000_0000;

pub const SIGN: u64 = MINUS_ZERO_BITS;

// m * 2^e units.
#[derive(Clone, Copy)]
pub struct Scaled {
    pub m: u64,
    pub e: u64,
}

// The number that the bits b of a finite number, without their sign, stand for.
pub fn parts(b: u64) -> Scaled
    requires { b < 0x7ff0_0000_0000_0000 }
    ensures { Parted b result.m result.e }
{
    if b < TWO_52 {
        return Scaled { m: b, e: 0 };
    }
    Scaled {
        m: TWO_52 + b % TWO_52,
        e: b / TWO_52 - 1,
    }
}

// 2^n
pub fn power(n: u64) -> u64
    requires { n < 64 }
    ensures { result ≡ 2 ^ n }
{
    1 << n
}

// The bits of 2^e units.
pub fn unit_bits(e: u64) -> u64
    requires { e < 2046 }
    ensures { UnitBits e result }
{
    if e < 52 {
        return power(e);
    }
    (e - 51) * TWO_52
}

// What b leaves of a * 2^k. It is below 2^53, so that eleven more digits fit behind it.
pub fn shifted(a: u64, k: u64, b: u64) -> u64
    requires { (0 < b) × (b ≤ 2 ^ 53) }
    ensures { result ≡ a * 2 ^ k % b }
{
    let mut rest = a % b;
    for _ in 0..k / 11 {
        rest = rest * 2048 % b;
    }
    rest * power(k % 11) % b
}
