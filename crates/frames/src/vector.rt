// Vectors in a local frame.
ghost use Rattle.std.specs.Prelude.{◌≡◌};
ghost use Rattle.frames.specs.Vectors as Vectors;
ghost use Rattle.frames.specs.Vectors.{local_vector, local_from_metres, local_from_vec3, local_zero, local_neg, local_add, local_sub, local_mul, local_div, from_aer, aer_to_nez, slant_range};

use crate::positions::PositionVector;
use crate::{LocalVector, Orientation};
use numbers::arctangent::{asin, atan2};
use numbers::float::clamp_unit;
use numbers::numbers::eq_zero;
use numbers::sine::{cos, sin};
use numbers::{Angle, Length, Vec3};
use std::ops::{Add, Div, Mul, Neg, Sub};

// North, east and up.
#[derive(Clone, Copy)]
struct Nez {
    pub north: Length,
    pub east: Length,
    pub z: Length,
}

impl LocalVector {
    // `ZERO` of the Rust.
    pub fn zero(orientation: Orientation) -> Self
        ensures { result ≡ local_zero orientation }
    {
        LocalVector {
            x: Length::ZERO,
            y: Length::ZERO,
            z: Length::ZERO,
            orientation,
        }
    }

    pub fn new(orientation: Orientation, x: Length, y: Length, z: Length) -> Self
        ensures { result ≡ local_vector orientation x y z }
    {
        LocalVector {
            x,
            y,
            z,
            orientation,
        }
    }

    pub fn from_metres(orientation: Orientation, x: f64, y: f64, z: f64) -> Self
        ensures { result ≡ local_from_metres orientation x y z }
    {
        LocalVector {
            x: Length(x),
            y: Length(y),
            z: Length(z),
            orientation,
        }
    }

    pub fn from_vec3_metres(orientation: Orientation, v: Vec3) -> Self
        ensures { result ≡ local_from_vec3 orientation v }
    {
        LocalVector::from_metres(orientation, v.x, v.y, v.z)
    }

    #[tactic(auto, unfolding(crate::specs::Vectors::from_aer))]
    pub fn from_aer(
        orientation: Orientation,
        azimuth: Angle,
        elevation: Angle,
        slant_range: Length,
    ) -> Self
        ensures { result ≡ from_aer orientation azimuth elevation slant_range }
    {
        let v = aer_to_nez(azimuth, elevation, slant_range);
        let north = v.north;
        let east = v.east;
        let z = v.z;
        if orientation.is_z_up() {
            LocalVector::new(orientation, east, north, z)
        } else {
            LocalVector::new(orientation, north, east, -z)
        }
    }

    #[tactic(auto, unfolding(crate::specs::Vectors::slant_range))]
    pub fn slant_range(self) -> Length
        ensures { result ≡ slant_range self }
    {
        let v = self.as_metres();
        Length(v.norm())
    }

    pub fn elevation(self) -> Angle
        ensures { result ≡ Vectors.elevation self }
    {
        let sr = self.slant_range();
        if eq_zero(sr.0) {
            return Angle::ZERO;
        }
        let z = self.z;
        let r = asin(clamp_unit(z / sr));
        let o = self.orientation;
        if o.is_z_up() { Angle(r) } else { Angle(-r) }
    }

    #[tactic(auto, unfolding(crate::specs::Vectors::bearing))]
    pub fn bearing(self) -> Angle
        ensures { result ≡ Vectors.bearing self }
    {
        let heading = if self.orientation.is_z_up() {
            atan2(self.x.0, self.y.0)
        } else {
            atan2(self.y.0, self.x.0)
        };
        Angle(heading).normalised()
    }

    // East-north-up to north-east-down and back: `from` of the Rust, which has it for these two. Any other vector stays as it is. A method and no `From`, since all are of one type here.
    #[tactic(auto, unfolding(crate::specs::Vectors::swap))]
    pub fn swap(self) -> Self
        ensures { result ≡ Vectors.swap self }
    {
        let o = self.orientation;
        let x = self.y;
        let y = self.x;
        let z = Length(-self.z.0);
        match o {
            Orientation::Enu => LocalVector::new(Orientation::Ned, x, y, z),
            Orientation::Ned => LocalVector::new(Orientation::Enu, x, y, z),
            Orientation::Body => self,
            Orientation::Wan => self,
        }
    }
}

impl PositionVector for LocalVector {
    ghost x_of = { λ v. v.x };

    ghost y_of = { λ v. v.y };

    ghost z_of = { λ v. v.z };

    fn x(self) -> Length {
        self.x
    }

    fn y(self) -> Length {
        self.y
    }

    fn z(self) -> Length {
        self.z
    }
}

// A sum and a difference have the first one's orientation.
impl Add for LocalVector {
    type Output = Self;

    ghost add_gives = { λ v w u. u ≡ local_add v w };

    fn add(self, rhs: Self) -> Self {
        let o = self.orientation;
        let a = self.as_metres();
        let b = rhs.as_metres();
        LocalVector::from_vec3_metres(o, a + b)
    }
}

impl Sub for LocalVector {
    type Output = Self;

    ghost sub_gives = { λ v w u. u ≡ local_sub v w };

    fn sub(self, rhs: Self) -> Self {
        let o = self.orientation;
        let a = self.as_metres();
        let b = rhs.as_metres();
        LocalVector::from_vec3_metres(o, a - b)
    }
}

impl Mul<f64> for LocalVector {
    type Output = Self;

    ghost mul_gives = { λ v k u. u ≡ local_mul v k };

    fn mul(self, rhs: f64) -> Self {
        let o = self.orientation;
        let a = self.as_metres();
        LocalVector::from_vec3_metres(o, a * rhs)
    }
}

impl Div<f64> for LocalVector {
    type Output = Self;

    ghost div_gives = { λ v k u. u ≡ local_div v k };

    fn div(self, rhs: f64) -> Self {
        let o = self.orientation;
        let a = self.as_metres();
        LocalVector::from_vec3_metres(o, a / rhs)
    }
}

impl Neg for LocalVector {
    type Output = Self;

    ghost neg_gives = { λ v u. u ≡ local_neg v };

    fn neg(self) -> Self {
        let o = self.orientation;
        let a = self.as_metres();
        LocalVector::from_vec3_metres(o, -a)
    }
}

#[tactic(auto, unfolding(crate::specs::Vectors::aer_to_nez))]
fn aer_to_nez(azimuth: Angle, elevation: Angle, slant_range: Length) -> Nez
    ensures { result ≡ aer_to_nez azimuth elevation slant_range }
{
    let cose = cos(elevation.0);
    let east = slant_range * (sin(azimuth.0) * cose);
    let north = slant_range * (cos(azimuth.0) * cose);
    let z = slant_range * sin(elevation.0);
    Nez { north, east, z }
}
