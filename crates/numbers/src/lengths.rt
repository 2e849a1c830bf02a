// Lengths: the constant, and their operators.
ghost use Rattle.std.specs.Prelude.{◌≡◌};
ghost use Rattle.numbers.specs.Ops.{num};
ghost use Rattle.numbers.specs.Lengths.{metres, length_neg, length_add, length_mul, length_div, length_over, length_abs};

use crate::Length;
use std::ops::{Add, Div, Mul, Neg};

impl Length {
    pub const ZERO: Length = Length(0.0);

    // The constant, with a contract.
    pub fn zero() -> Self
        ensures { result ≡ metres (num 0) }
    {
        Length::ZERO
    }

    pub fn from_metres(m: f64) -> Self
        ensures { result ≡ metres m }
    {
        Length(m)
    }

    pub fn as_metres(self) -> f64
        ensures { result ≡ self.0 }
    {
        self.0
    }

    pub fn abs(self) -> Self
        ensures { result ≡ length_abs self }
    {
        if self.0 >= 0.0 {
            self
        } else {
            Length::from_metres(-self.0)
        }
    }
}

impl Neg for Length {
    type Output = Length;

    ghost neg_gives = { λ a r. r ≡ length_neg a };

    fn neg(self) -> Length {
        Length(-self.0)
    }
}

impl Add for Length {
    type Output = Length;

    ghost add_gives = { λ a b r. r ≡ length_add a b };

    fn add(self, rhs: Length) -> Length {
        Length(self.0 + rhs.0)
    }
}

// A number times a length is the length times it.
impl Mul<f64> for Length {
    type Output = Length;

    ghost mul_gives = { λ a k r. r ≡ length_mul a k };

    fn mul(self, rhs: f64) -> Length {
        Length(self.0 * rhs)
    }
}

impl Div for Length {
    type Output = f64;

    ghost div_gives = { λ a b r. r ≡ length_div a b };

    fn div(self, rhs: Length) -> f64 {
        self.0 / rhs.0
    }
}

impl Div<f64> for Length {
    type Output = Length;

    ghost div_gives = { λ a k r. r ≡ length_over a k };

    fn div(self, rhs: f64) -> Length {
        Length(self.0 / rhs)
    }
}
