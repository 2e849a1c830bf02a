// Comparisons up to f64::EPSILON.
ghost use Rattle.std.specs.Prelude.{◌≡◌};
ghost use Rattle.numbers.specs.Floats.{near, near_zero, near_or_below, near_or_above};

use crate::float::abs;

pub const EPSILON: f64 = 2.220446049250313e-16;

pub fn eq_zero(f: f64) -> bool
    ensures { result ≡ near_zero f }
{
    eq(f, 0.0)
}

pub fn eq(left: f64, right: f64) -> bool
    ensures { result ≡ near left right }
{
    abs(right - left) <= EPSILON
}

// `lte` and `gte`, the Rust's names, are a line each: one function for both would be no plainer.
pub fn lte(left: f64, right: f64) -> bool
    ensures { result ≡ near_or_below left right }
{
    left <= right || eq(left, right)
}

pub fn gte(left: f64, right: f64) -> bool
    ensures { result ≡ near_or_above left right }
{
    left >= right || eq(left, right)
}
