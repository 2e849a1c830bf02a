// The square root: a number is guessed by steps on doubles and tested in whole numbers, and where the test fails so are its two neighbours; where none is the root, the digits are found one by one.
// The bits of x are w * 4^g with a w of 53 or 54 digits, and the root of w * 2^52 is the digits of the root of x.
ghost use Rattle.std.specs.Prelude.{◌≡◌, ◌+◌, ◌*◌, ◌^◌, ◌<◌, ◌≤◌, true, from_bits};
ghost use Rattle.std.specs.Float.{binary64};
ghost use Rattle.numbers.specs.Root as Root;
ghost use Rattle.numbers.specs.code.Units.{units_of};
ghost use Rattle.numbers.specs.code.RootSteps.{Squared, Rounds, Lifted, RootOf};

use crate::units::{INFINITY_BITS, MINUS_ZERO_BITS, TWO_52};

const TWO_53: u64 = 0x20_0000_0000_0000;

// The bits of 0.5.
const HALF_BITS: u64 = 0x3fe0_0000_0000_0000;

// With half of a number's digits, and of its exponent's last bit: the bits of nearly half its root.
const GUESS_BITS: u64 = 0x3fd7_6d0a_40d7_8ae2;

// The bits of 2^-511 and 2^511: with half the exponent's field added or taken off, what brings the root of f back to that of the number, and its inverse.
const UP_BITS: u64 = 0x2000_0000_0000_0000;

const DOWN_BITS: u64 = 0x5fe0_0000_0000_0000;

// 3 * 2^26: added and taken off again, it leaves of a number in [0.5, 2) the multiple of 2^-25 nearest to it.
const CUT: f64 = 201326592.0;

// w * 2^52 as a square and a rest.
#[derive(Clone, Copy)]
struct Rooted {
    pub root: u64,
    pub rest: u64,
}

// A number of 53 or 54 digits, and a power of four.
#[derive(Clone, Copy)]
struct Fours {
    pub w: u64,
    pub g: u64,
}

// The bits of a positive normal number.
#[derive(Clone, Copy)]
struct NormalBits {
    pub bits: u64,
    ghost in_range: { (2 ^ 52 ≤ bits) × (bits < 0x7ff0_0000_0000_0000) },
}

// The root of w * 2^52, digit by digit.
fn by_digits(w: u64) -> Rooted
    requires { w < 2 ^ 54 }
    ensures { Squared w result.root result.rest }
{
    let mut left = w;
    let mut rest: u64 = 0;
    let mut root: u64 = 0;
    for _ in 0..53u64 {
        rest = rest * 4 + left / TWO_52;
        left = left % TWO_52 * 4;
        let trial = root * 4 + 1;
        root *= 2;
        if trial <= rest {
            rest -= trial;
            root += 1;
        }
    }
    Rooted { root, rest }
}

// v * 4^g, with v lifted by fours to 53 or 54 digits.
fn lifted(v: u64, g: u64) -> Fours
    requires { (0 < v) × (v < 2 ^ 54) × (27 ≤ g) }
    ensures { Lifted (v * 4 ^ g) g result.w result.g }
{
    let mut w = v;
    let mut h = g;
    while w < TWO_52 {
        w *= 4;
        h -= 1;
    }
    Fours { w, g: h }
}

// What a normal number is, in units of 2^-1074 and times 2^1022.
fn normal(x: NormalBits) -> Fours
    ensures { Lifted (units_of x.bits * 2 ^ 1022) 1534 result.w result.g }
{
    let t = x.bits % TWO_52;
    let q = x.bits / TWO_52;
    Fours {
        w: (TWO_52 + t) * (2 - q % 2),
        g: 510 + (q + 1) / 2,
    }
}

// The same for the bits of any positive number.
fn scaled(b: u64) -> Fours
    requires { (0 < b) × (b < 0x7ff0_0000_0000_0000) }
    ensures { Lifted (units_of b * 2 ^ 1022) 1534 result.w result.g }
{
    if b < TWO_52 {
        return lifted(b, 511);
    }
    normal(NormalBits { bits: b })
}

// The bits of the root of a positive number's bits: up one where the rest passes the root. Rounding up carries into the exponent by itself.
fn root_bits(b: u64) -> u64
    requires { (0 < b) × (b < 0x7ff0_0000_0000_0000) }
    ensures { RootOf b result }
{
    let s = scaled(b);
    let r = by_digits(s.w);
    if r.root < r.rest {
        s.g * TWO_52 + r.root + 1
    } else {
        s.g * TWO_52 + r.root
    }
}

// The root of any double, by digits.
fn plain(x: f64) -> f64
    ensures { result ≡ Root.sqrt x }
{
    if x != x {
        return x;
    }
    let b = f64::to_bits(x);
    if b == 0 || b == MINUS_ZERO_BITS || b == INFINITY_BITS {
        return x;
    }
    if b > MINUS_ZERO_BITS {
        return 0.0 / 0.0;
    }
    f64::from_bits(root_bits(b))
}

// What is nearly always the root of x. Nothing hangs on it: `is_root` tests it.
// f in [0.5, 2) is that number by a power of four. The first s is off from √f / 2 by 3.5 in a hundred at most, and the next, by one step of the sixth order, from √f by about 2^-34. h is its upper 26 digits, so h * h and f - h * h are exact.
fn near(x: NormalBits) -> f64 {
    let low = x.bits % TWO_53;
    let f = f64::from_bits(low + HALF_BITS);
    let s = f64::from_bits(low / 2 + GUESS_BITS);
    let t = s * s;
    let p = 0.25 * f + t;
    let q = p * p;
    let s = p * (q + 3.0 * f * t) / (3.0 * s * q + s * f * t);
    let h = s + CUT - CUT;
    let half = x.bits / TWO_53 * TWO_52;
    let up = f64::from_bits(half + UP_BITS);
    let down = f64::from_bits(DOWN_BITS - half);
    h * up + (f - h * h) / ((h + s) * down)
}

// Whether r is the root of w * 2^52 to the nearest whole number, that is, whether w * 2^52 is above r * r - r and at most r * r + r.
// The square is exact, of two halves a * 2^26 + b; 2^53 is added to what is left of w * 2^52, so that nothing falls below 0.
fn rounds(w: u64, r: u64) -> bool
    requires { (w < 2 ^ 54) × (r < 2 ^ 53) }
    ensures { result ≡ true → Rounds w r }
{
    let a = r / 0x400_0000;
    let b = r % 0x400_0000;
    let top = w + 2;
    let square = a * a;
    if square > top {
        return false;
    }
    let d = top - square;
    if d > 0x4000_0000 {
        return false;
    }
    let over = d * 0x200_0000;
    let cross = a * b;
    if cross > over {
        return false;
    }
    let e = over - cross;
    if e > 0x4000_0000 {
        return false;
    }
    let left = e * 0x800_0000;
    let most = b * b + (r + TWO_53);
    if left > most {
        return false;
    }
    most - left < 2 * r
}

// Whether s is the root of x.
fn is_root(x: NormalBits, s: f64) -> bool
    ensures { result ≡ true → s ≡ Root.sqrt (from_bits binary64 x.bits) }
{
    if s != s {
        return false;
    }
    let digits = f64::to_bits(s);
    let n = normal(x);
    let low = n.g * TWO_52;
    if digits < low {
        return false;
    }
    let r = digits - low;
    if r >= TWO_53 {
        return false;
    }
    rounds(n.w, r)
}

// The root of x, whose bits are those of n, where it is the double next to s; else by digits. A guess that misses the root misses it by one.
fn beside(x: f64, n: NormalBits, s: f64) -> f64
    requires { from_bits binary64 n.bits ≡ x }
    ensures { result ≡ Root.sqrt x }
{
    if s != s {
        return plain(x);
    }
    let d = f64::to_bits(s);
    if d < TWO_52 || d >= INFINITY_BITS {
        return plain(x);
    }
    let up = f64::from_bits(d + 1);
    if is_root(n, up) {
        return up;
    }
    let down = f64::from_bits(d - 1);
    if is_root(n, down) {
        return down;
    }
    plain(x)
}

// The root by `near` where the test confirms it. The answer does not wait for the test: only the jump does.
pub fn sqrt(x: f64) -> f64
    ensures { result ≡ Root.sqrt x }
{
    if x != x {
        return plain(x);
    }
    let b = f64::to_bits(x);
    if b >= TWO_52 && b < INFINITY_BITS {
        let n = NormalBits { bits: b };
        let s = near(n);
        if is_root(n, s) {
            return s;
        }
        return beside(x, n, s);
    }
    plain(x)
}
