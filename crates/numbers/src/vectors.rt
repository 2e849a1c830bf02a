// 3-element vectors: their constants, products and operators.
ghost use Rattle.std.specs.Prelude.{◌≡◌};
ghost use Rattle.numbers.specs.Vec as Vec;
ghost use Rattle.numbers.specs.Vec.{vec, raw, crossing, stably, axis_for, new_unit, cross_prod, cross_prod_unit, dot_prod, orthogonal_to, stable_cross_prod, stable_cross_prod_unit, squared_norm, vec_add, vec_sub, vec_mul, vec_div, vec_neg};

use crate::Vec3;
use crate::float::abs;
use crate::root::sqrt;
use std::ops::{Add, Div, Mul, Neg, Sub};

impl Vec3 {
    pub const UNIT_X: Vec3 = Vec3 {
        x: 1.0,
        y: 0.0,
        z: 0.0,
    };

    pub const UNIT_Y: Vec3 = Vec3 {
        x: 0.0,
        y: 1.0,
        z: 0.0,
    };

    pub const UNIT_Z: Vec3 = Vec3 {
        x: 0.0,
        y: 0.0,
        z: 1.0,
    };

    pub const NEG_UNIT_X: Vec3 = Vec3 {
        x: -1.0,
        y: 0.0,
        z: 0.0,
    };

    pub const NEG_UNIT_Y: Vec3 = Vec3 {
        x: 0.0,
        y: -1.0,
        z: 0.0,
    };

    pub const NEG_UNIT_Z: Vec3 = Vec3 {
        x: 0.0,
        y: 0.0,
        z: -1.0,
    };

    pub const ZERO: Vec3 = Vec3 {
        x: 0.0,
        y: 0.0,
        z: 0.0,
    };

    // The constants, with a contract.
    pub fn constants() -> [Vec3; 7]
        ensures { result ≡ Vec.constants }
    {
        [
            Vec3::UNIT_X,
            Vec3::UNIT_Y,
            Vec3::UNIT_Z,
            Vec3::NEG_UNIT_X,
            Vec3::NEG_UNIT_Y,
            Vec3::NEG_UNIT_Z,
            Vec3::ZERO,
        ]
    }

    pub fn new(vx: f64, vy: f64, vz: f64) -> Self
        ensures { result ≡ vec vx vy vz }
    {
        Vec3 {
            x: 0.0 + vx,
            y: 0.0 + vy,
            z: 0.0 + vz,
        }
    }

    pub fn new_unit(vx: f64, vy: f64, vz: f64) -> Self
        ensures { result ≡ new_unit vx vy vz }
    {
        let n = sqrt(vx * vx + vy * vy + vz * vz);
        if n == 0.0 {
            Vec3::ZERO
        } else {
            let s = 1.0 / n;
            Vec3::new(s * vx, s * vy, s * vz)
        }
    }

    pub fn x(self) -> f64
        ensures { result ≡ self.x }
    {
        self.x
    }

    pub fn y(self) -> f64
        ensures { result ≡ self.y }
    {
        self.y
    }

    pub fn z(self) -> f64
        ensures { result ≡ self.z }
    {
        self.z
    }

    pub fn cross_prod(self, o: Self) -> Self
        ensures { result ≡ cross_prod self o }
    {
        let c = crossed(self, o);
        Vec3::new(c.x, c.y, c.z)
    }

    pub fn cross_prod_unit(self, o: Self) -> Self
        ensures { result ≡ cross_prod_unit self o }
    {
        let c = crossed(self, o);
        Vec3::new_unit(c.x, c.y, c.z)
    }

    pub fn dot_prod(self, o: Self) -> f64
        ensures { result ≡ dot_prod self o }
    {
        self.x * o.x + self.y * o.y + self.z * o.z
    }

    pub fn orthogonal_to(self, o: Self) -> Self
        ensures { result ≡ orthogonal_to self o }
    {
        let r = self.stable_cross_prod_unit(o);
        if r == Vec3::ZERO {
            self.orthogonal()
        } else {
            r
        }
    }

    pub fn orthogonal(self) -> Self
        ensures { result ≡ Vec.orthogonal self }
    {
        self.cross_prod_unit(axis_for(abs(self.x), abs(self.y), abs(self.z)))
    }

    pub fn norm(self) -> f64
        ensures { result ≡ Vec.norm self }
    {
        sqrt(self.squared_norm())
    }

    pub fn stable_cross_prod_unit(self, o: Self) -> Self
        ensures { result ≡ stable_cross_prod_unit self o }
    {
        let c = stably_crossed(self, o);
        Vec3::new_unit(c.x, c.y, c.z)
    }

    pub fn stable_cross_prod(self, o: Self) -> Self
        ensures { result ≡ stable_cross_prod self o }
    {
        let c = stably_crossed(self, o);
        Vec3::new(c.x, c.y, c.z)
    }

    pub fn squared_norm(self) -> f64
        ensures { result ≡ squared_norm self }
    {
        self.dot_prod(self)
    }

    pub fn unit(self) -> Self
        ensures { result ≡ Vec.unit self }
    {
        let n = self.norm();
        if n == 0.0 {
            Vec3::ZERO
        } else {
            let s = 1.0 / n;
            self * s
        }
    }
}

// The components of a cross product, as they are: `Vec3::new` and `Vec3::new_unit` make a vector of them.
fn crossed(a: Vec3, b: Vec3) -> Vec3
    ensures { result ≡ crossing raw a b }
{
    Vec3 {
        x: a.y * b.z - a.z * b.y,
        y: a.z * b.x - a.x * b.z,
        z: a.x * b.y - a.y * b.x,
    }
}

// The same of b + a and b - a.
fn stably_crossed(a: Vec3, b: Vec3) -> Vec3
    ensures { result ≡ stably raw a b }
{
    let sum = Vec3 {
        x: b.x + a.x,
        y: b.y + a.y,
        z: b.z + a.z,
    };
    let difference = Vec3 {
        x: b.x - a.x,
        y: b.y - a.y,
        z: b.z - a.z,
    };
    crossed(sum, difference)
}

// The axis that `orthogonal` takes, by the magnitudes of the components.
fn axis_for(ax: f64, ay: f64, az: f64) -> Vec3
    ensures { result ≡ axis_for ax ay az }
{
    if ax > ay {
        if ax > az { Vec3::UNIT_Z } else { Vec3::UNIT_Y }
    } else if ay > az {
        Vec3::UNIT_X
    } else {
        Vec3::UNIT_Y
    }
}

impl Add for Vec3 {
    type Output = Vec3;

    ghost add_gives = { λ a b r. r ≡ vec_add a b };

    fn add(self, rhs: Vec3) -> Vec3 {
        Vec3::new(self.x + rhs.x, self.y + rhs.y, self.z + rhs.z)
    }
}

impl Sub for Vec3 {
    type Output = Vec3;

    ghost sub_gives = { λ a b r. r ≡ vec_sub a b };

    fn sub(self, rhs: Vec3) -> Vec3 {
        Vec3::new(self.x - rhs.x, self.y - rhs.y, self.z - rhs.z)
    }
}

// A number times a vector is the vector times it.
impl Mul<f64> for Vec3 {
    type Output = Vec3;

    ghost mul_gives = { λ a k r. r ≡ vec_mul a k };

    fn mul(self, rhs: f64) -> Vec3 {
        Vec3::new(self.x * rhs, self.y * rhs, self.z * rhs)
    }
}

impl Div<f64> for Vec3 {
    type Output = Vec3;

    ghost div_gives = { λ a k r. r ≡ vec_div a k };

    fn div(self, rhs: f64) -> Vec3 {
        Vec3::new(self.x / rhs, self.y / rhs, self.z / rhs)
    }
}

impl Neg for Vec3 {
    type Output = Vec3;

    ghost neg_gives = { λ a r. r ≡ vec_neg a };

    fn neg(self) -> Vec3 {
        Vec3::new(-self.x, -self.y, -self.z)
    }
}
