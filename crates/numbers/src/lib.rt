// Numbers of the bore-sheet box: the stand-ins for std's functions on doubles, angles, lengths, vectors and matrices.
#![tactic(auto)]

pub mod angles;
pub mod arctangent;
pub mod float;
pub mod lengths;
pub mod matrices;
pub mod numbers;
pub mod powers;
pub mod root;
pub mod sine;
mod units;
pub mod vectors;

// The derived `==` of angles, vectors and matrices is `angle_eq`, `vec_eq` and `mat_eq` of specs, by proofs/EqualLaws.antt; that of lengths compares the numbers.

// An angle: a wrapped number, in radians.
#[derive(PartialEq, Clone, Copy, Debug)]
pub struct Angle(pub f64);

// A length: a wrapped number, in metres.
#[derive(PartialEq, Clone, Copy, Debug)]
pub struct Length(pub f64);

// A 3-element vector.
#[derive(PartialEq, Clone, Copy, Debug)]
pub struct Vec3 {
    pub x: f64,
    pub y: f64,
    pub z: f64,
}

// A 3*3 matrix.
#[derive(PartialEq, Clone, Copy, Debug)]
pub struct Mat33 {
    pub r0: Vec3,
    pub r1: Vec3,
    pub r2: Vec3,
}
