// Arctangent and arcsine, document 01's steps.
ghost use Rattle.std.specs.Prelude.{◌≡◌, ◌≤◌, ◌==◌};
ghost use Rattle.std.specs.Float.Ieee as Ieee;
ghost use Rattle.numbers.specs.Ops.{◌⊕◌, ◌⊖◌, ◌⊘◌, num, pick};
ghost use Rattle.numbers.specs.Floats.{pi};
ghost use Rattle.numbers.specs.Arctangent as Arctangent;
ghost use Rattle.numbers.specs.Arctangent.{atan_poly, atan_unit, atan_base, turned_by, negated_by};

use crate::float::{PI, abs, sign_bit};
use crate::root::sqrt;
use crate::units::MINUS_ZERO_BITS;

// Where A(t) breaks: about the tangent of an eighth of PI.
const BREAK: f64 = 0.41421356;

// The sines of one, two and three eighths of PI, roughly.
const SIN_22: f64 = 0.38268343;

const SIN_45: f64 = 0.70710678;

const SIN_67: f64 = 0.92387953;

// The bits of PI and of 1.0.
const PI_BITS: u64 = 0x4009_21fb_5444_2d18;

const ONE_BITS: u64 = 0x3ff0_0000_0000_0000;

// T(u)
fn atan_poly(u: f64) -> f64
    ensures { result ≡ atan_poly u }
{
    let z = u * u;
    let h = 1.0 / 45.0;
    let h = h * z + -1.0 / 43.0;
    let h = h * z + 1.0 / 41.0;
    let h = h * z + -1.0 / 39.0;
    let h = h * z + 1.0 / 37.0;
    let h = h * z + -1.0 / 35.0;
    let h = h * z + 1.0 / 33.0;
    let h = h * z + -1.0 / 31.0;
    let h = h * z + 1.0 / 29.0;
    let h = h * z + -1.0 / 27.0;
    let h = h * z + 1.0 / 25.0;
    let h = h * z + -1.0 / 23.0;
    let h = h * z + 1.0 / 21.0;
    let h = h * z + -1.0 / 19.0;
    let h = h * z + 1.0 / 17.0;
    let h = h * z + -1.0 / 15.0;
    let h = h * z + 1.0 / 13.0;
    let h = h * z + -1.0 / 11.0;
    let h = h * z + 1.0 / 9.0;
    let h = h * z + -1.0 / 7.0;
    let h = h * z + 1.0 / 5.0;
    let h = h * z + -1.0 / 3.0;
    let h = h * z + 1.0 / 1.0;
    u * h
}

// A(t), for a t above the break.
fn atan_far(t: f64) -> f64
    ensures { result ≡ pi ⊘ num 4 ⊕ atan_poly ((t ⊖ num 1) ⊘ (t ⊕ num 1)) }
{
    PI / 4.0 + atan_poly((t - 1.0) / (t + 1.0))
}

// A(t)
fn atan_unit(t: f64) -> f64
    ensures { result ≡ atan_unit t }
{
    if t <= BREAK {
        return atan_poly(t);
    }
    atan_far(t)
}

// From the magnitudes of y and x.
fn atan_base(a: f64, b: f64) -> f64
    ensures { result ≡ atan_base a b }
{
    if a == 0.0 && b == 0.0 {
        return 0.0;
    }
    if a <= b {
        return atan_unit(a / b);
    }
    PI / 2.0 - atan_unit(b / a)
}

// 1, or -1 where s is 1.
fn signed_one(s: u64) -> f64
    requires { s ≤ 1 }
    ensures { result ≡ pick (s == 1) (Ieee.neg (num 1)) (num 1) }
{
    f64::from_bits(ONE_BITS + s * MINUS_ZERO_BITS)
}

// v, or PI less v where s is 1. Without a jump: PI is added to minus v, and minus zero, which changes nothing, to v.
fn turned_by(s: u64, v: f64) -> f64
    requires { s ≤ 1 }
    ensures { result ≡ turned_by (s == 1) v }
{
    f64::from_bits(MINUS_ZERO_BITS - s * (MINUS_ZERO_BITS - PI_BITS)) + v * signed_one(s)
}

// v, or minus v where s is 1.
fn negated_by(s: u64, v: f64) -> f64
    requires { s ≤ 1 }
    ensures { result ≡ negated_by (s == 1) v }
{
    v * signed_one(s)
}

pub fn atan2(y: f64, x: f64) -> f64
    ensures { result ≡ Arctangent.atan2 y x }
{
    negated_by(
        sign_bit(y),
        turned_by(sign_bit(x), atan_base(abs(y), abs(x))),
    )
}

// As `atan_base`, for the root b of 1 - a²: a alone tells which way it goes, and is there long before b. The jumps are made by a, and the tests of b only confirm them.
fn atan_told(a: f64, b: f64) -> f64
    ensures { result ≡ atan_base a b }
{
    if a < SIN_45 {
        if a < b {
            let t = a / b;
            if a < SIN_22 {
                if t <= BREAK {
                    return atan_poly(t);
                }
            } else if !(t <= BREAK) {
                return atan_far(t);
            }
        }
    } else if !(a <= b) {
        let t = b / a;
        if a < SIN_67 {
            if !(t <= BREAK) {
                return PI / 2.0 - atan_far(t);
            }
        } else if t <= BREAK {
            return PI / 2.0 - atan_poly(t);
        }
    }
    atan_base(a, b)
}

pub fn asin(x: f64) -> f64
    ensures { result ≡ Arctangent.asin x }
{
    let m = (1.0 - x) * (1.0 + x);
    let r = sqrt(m);
    if m > 0.0 {
        return negated_by(sign_bit(x), atan_told(abs(x), r));
    }
    atan2(x, r)
}
