// Values from words, as the words stand, and from numbers: any bits may make any field.
#![tactic(auto, unfolding(crate::specs::Values::angle_at, crate::specs::Values::length_at, crate::specs::Values::geocentric_at, crate::specs::Values::geodetic_at, crate::specs::Values::ellipsoid_at, crate::specs::Values::orientation_of, crate::specs::Values::orientation_at, crate::specs::Values::local_at, crate::specs::Values::frame_at, crate::specs::Words::vector_at, crate::specs::Words::matrix_at, crate::specs::Words::double_at))]

ghost use Rattle.std.specs.Prelude.{◌≤◌, ◌≡◌};
ghost use Rattle.test_operations.specs.Values as Values;
ghost use Rattle.test_operations.specs.Direct.{ellipsoid_of, geodetic_of};

use crate::words::{double_at, matrix_at, vector_at};
use frames::{
    Ellipsoid, GeocentricPosition, GeodeticPosition, LocalFrame, LocalVector, NVector, Orientation,
};
use numbers::{Angle, Length, Vec3};

pub fn angle_at(a: &[u64; 32], at: usize) -> Angle
    requires { at ≤ 31 }
    ensures { result ≡ Values.angle_at a.now at }
{
    Angle(double_at(a, at))
}

pub fn length_at(a: &[u64; 32], at: usize) -> Length
    requires { at ≤ 31 }
    ensures { result ≡ Values.length_at a.now at }
{
    Length(double_at(a, at))
}

// Of an equatorial radius, a polar radius, an eccentricity and a flattening.
pub fn ellipsoid(a: f64, b: f64, e: f64, f: f64) -> Ellipsoid
    ensures { result ≡ ellipsoid_of a b e f }
{
    Ellipsoid {
        equatorial_radius: Length(a),
        polar_radius: Length(b),
        eccentricity: e,
        flattening: f,
    }
}

// Equatorial radius, polar radius, eccentricity, flattening: the first four words.
pub fn ellipsoid_at(a: &[u64; 32]) -> Ellipsoid
    ensures { result ≡ Values.ellipsoid_at a.now }
{
    ellipsoid(
        double_at(a, 0),
        double_at(a, 1),
        double_at(a, 2),
        double_at(a, 3),
    )
}

pub fn geocentric_at(a: &[u64; 32], at: usize) -> GeocentricPosition
    requires { at ≤ 29 }
    ensures { result ≡ Values.geocentric_at a.now at }
{
    GeocentricPosition {
        x: length_at(a, at),
        y: length_at(a, at + 1),
        z: length_at(a, at + 2),
    }
}

// Of an n-vector's entries and a height.
pub fn geodetic(x: f64, y: f64, z: f64, height: f64) -> GeodeticPosition
    ensures { result ≡ geodetic_of x y z height }
{
    GeodeticPosition {
        hp: NVector(Vec3 { x, y, z }),
        height: Length(height),
    }
}

// The n-vector, then the height.
pub fn geodetic_at(a: &[u64; 32], at: usize) -> GeodeticPosition
    requires { at ≤ 28 }
    ensures { result ≡ Values.geodetic_at a.now at }
{
    let v = vector_at(a, at);
    geodetic(v.x, v.y, v.z, double_at(a, at + 3))
}

// 0, 1, 2 and 3 are east-north-up, north-east-down, body and wander azimuth. Any other number is the last.
// No `From`: neither type is this crate's.
fn orientation_of(n: u64) -> Orientation
    ensures { result ≡ Values.orientation_of n }
{
    match n {
        0 => Orientation::Enu,
        1 => Orientation::Ned,
        2 => Orientation::Body,
        _ => Orientation::Wan,
    }
}

// The first word's.
pub fn orientation_at(a: &[u64; 32]) -> Orientation
    ensures { result ≡ Values.orientation_at a.now }
{
    orientation_of(a[0])
}

// The orientation is the first word's.
pub fn local_at(a: &[u64; 32], at: usize) -> LocalVector
    requires { at ≤ 29 }
    ensures { result ≡ Values.local_at a.now at }
{
    LocalVector {
        x: length_at(a, at),
        y: length_at(a, at + 1),
        z: length_at(a, at + 2),
        orientation: orientation_at(a),
    }
}

// The first 22 words: orientation, origin, direction and inverse matrix.
// Compiled into each caller, which then reads only the parts that it takes.
#[inline(always)]
pub fn frame_at(a: &[u64; 32]) -> LocalFrame
    ensures { result ≡ Values.frame_at a.now }
{
    LocalFrame {
        origin: vector_at(a, 1),
        dir_rm: matrix_at(a, 4),
        inv_rm: matrix_at(a, 13),
        orientation: orientation_at(a),
    }
}
