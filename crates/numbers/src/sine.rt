// Sine and cosine, document 01's steps.
ghost use Rattle.std.specs.Prelude.{◌≡◌, ◌+◌, ◌%◌, ◌^◌, ◌≤◌};
ghost use Rattle.std.specs.Float.{binary64};
ghost use Rattle.std.specs.Float.Ieee.{of_int};
ghost use Rattle.numbers.specs.Sine as Sine;
ghost use Rattle.numbers.specs.Sine.{sin_poly, cos_poly, sin_by, ceil, mod4, rest, reduced};
ghost use Rattle.numbers.specs.code.Sizes.{Bounded};

// S of r: Horner in r * r over (-1)^k / (2k+1)!, times r.
fn sin_poly(r: f64) -> f64
    ensures { result ≡ sin_poly r }
{
    let z = r * r;
    let h = 1.0 / 355687428096000.0;
    let h = h * z + -1.0 / 1307674368000.0;
    let h = h * z + 1.0 / 6227020800.0;
    let h = h * z + -1.0 / 39916800.0;
    let h = h * z + 1.0 / 362880.0;
    let h = h * z + -1.0 / 5040.0;
    let h = h * z + 1.0 / 120.0;
    let h = h * z + -1.0 / 6.0;
    let h = h * z + 1.0 / 1.0;
    r * h
}

// C of r: Horner in r * r over (-1)^k / (2k)!.
fn cos_poly(r: f64) -> f64
    ensures { result ≡ cos_poly r }
{
    let z = r * r;
    let h = 1.0 / 20922789888000.0;
    let h = h * z + -1.0 / 87178291200.0;
    let h = h * z + 1.0 / 479001600.0;
    let h = h * z + -1.0 / 3628800.0;
    let h = h * z + 1.0 / 40320.0;
    let h = h * z + -1.0 / 720.0;
    let h = h * z + 1.0 / 24.0;
    let h = h * z + -1.0 / 2.0;
    h * z + 1.0 / 1.0
}

// A number of quarter turns, as a double and modulo 4.
#[derive(Clone, Copy)]
struct Turned {
    pub n: f64,
    pub quarter: u64,
}

// The least whole number not below y, by the whole part of its size.
fn by_truncation(y: f64) -> Turned
    requires { Bounded y (2 ^ 50) }
    ensures { (result.n ≡ of_int binary64 (ceil y)) × (result.quarter ≡ mod4 (ceil y)) }
{
    if y > 0.0 {
        let t = std::num::truncating_f64_to_u64(y);
        let f = t as f64;
        if f < y {
            Turned {
                n: (t + 1) as f64,
                quarter: (t + 1) % 4,
            }
        } else {
            Turned {
                n: f,
                quarter: t % 4,
            }
        }
    } else {
        let t = std::num::truncating_f64_to_u64(-y);
        Turned {
            n: 0.0 - t as f64,
            quarter: (4 - t % 4) % 4,
        }
    }
}

// 64 more than the least whole number not below y, for a y within 64 of 0: y + 192 lies from 128 to 256, and so its last 52 digits are y + 64 in units of 2^-45. Nothing hangs on it: `quarters` tests it.
fn candidate(y: f64) -> u64
    ensures { result ≤ 128 }
{
    let s = y + 192.0;
    if s != s {
        return 0;
    }
    (f64::to_bits(s) % 0x10_0000_0000_0000 + 0x1fff_ffff_ffff) / 0x2000_0000_0000
}

// The least whole number not below y: that of `candidate`, where y is not above it and is above the one before. Elsewhere, as just above a whole number, `by_truncation` answers.
fn quarters(y: f64) -> Turned
    requires { Bounded y (2 ^ 50) }
    ensures { (result.n ≡ of_int binary64 (ceil y)) × (result.quarter ≡ mod4 (ceil y)) }
{
    let k = candidate(y);
    let f = k as f64;
    let n = f - 64.0;
    if y <= n && f - 65.0 < y {
        return Turned { n, quarter: k % 4 };
    }
    by_truncation(y)
}

// What is left of x after n quarter turns.
fn left_over(x: f64, n: f64) -> f64
    ensures { result ≡ rest x n }
{
    (x - n * 1.5707963267341256) - n * 6.077100506506192e-11
}

// The sine, by the number of quarter turns modulo 4 and what is left.
fn sin_by(quarter: u64, r: f64) -> f64
    ensures { result ≡ sin_by quarter r }
{
    match quarter {
        0 => sin_poly(r),
        1 => cos_poly(r),
        2 => -sin_poly(r),
        _ => -cos_poly(r),
    }
}

// The sine of x after `more` further quarter turns, or NaN for x outside -64 to 64.
fn sine_on(x: f64, more: u64) -> f64
    requires { more ≤ 1 }
    ensures { result ≡ reduced (λ q. sin_by ((q + more) % 4)) x }
{
    if x >= -64.0 && x <= 64.0 {
        let t = quarters(x * 0.6366197723675814 - 0.5);
        return sin_by((t.quarter + more) % 4, left_over(x, t.n));
    }
    0.0 / 0.0
}

pub fn sin(x: f64) -> f64
    ensures { result ≡ Sine.sin x }
{
    sine_on(x, 0)
}

// C, -S, -C, S by the quarter: the sine's S, C, -S, -C one quarter on.
pub fn cos(x: f64) -> f64
    ensures { result ≡ Sine.cos x }
{
    sine_on(x, 1)
}
