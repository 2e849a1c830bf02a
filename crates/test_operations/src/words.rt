// Words taken and put in place. A double goes by its bits; every NaN is 7ff8000000000000.
#![tactic(auto, unfolding(crate::specs::Words::double_at, crate::specs::Words::with_vector, crate::specs::Words::with_matrix))]

ghost use Rattle.std.specs.Prelude.{◌≤◌, ◌<◌, ◌+◌, ◌≡◌, Float, length};
ghost use Rattle.std.specs.Float.{binary64, nan};
ghost use Rattle.std.specs.Float.Ieee.{of_bits};
ghost use Rattle.test_operations.specs.Entries.{vector_by, matrix_by};
ghost use Rattle.test_operations.specs.Words as Words;

use numbers::float::{bits, double};
use numbers::{Mat33, Vec3};

// The double of the word at a place.
pub fn double_at(a: &[u64; 32], at: usize) -> f64
    requires { at ≤ 31 }
    ensures { result ≡ Words.double_at a.now at }
{
    double(a[at])
}

// A number as an array holds it: a double itself, or the word of its bits.
pub trait Entry: Copy {
    ghost double_of: { Self → Float };

    // What clauses take for an entry past an array's end.
    ghost past: { Self };

    fn double(self) -> f64
        ensures { result ≡ double_of self };
}

impl Entry for f64 {
    ghost double_of = { λ x. x };

    ghost past = { nan };

    fn double(self) -> f64 {
        self
    }
}

impl Entry for u64 {
    ghost double_of = { of_bits binary64 };

    ghost past = { 0 };

    fn double(self) -> f64 {
        double(self)
    }
}

// The vector of three entries from a place on, as they stand.
pub fn vector_at<T: Entry>(a: &[T], at: usize) -> Vec3
    requires { at + 2 < length a.now }
    ensures { result ≡ vector_by T.double_of T.past a.now at }
{
    let x = a[at].double();
    let y = a[at + 1].double();
    let z = a[at + 2].double();
    Vec3 { x, y, z }
}

// The matrix of nine entries from a place on, by rows, as they stand.
pub fn matrix_at<T: Entry>(a: &[T], at: usize) -> Mat33
    requires { at + 8 < length a.now }
    ensures { result ≡ matrix_by T.double_of T.past a.now at }
{
    let r0 = vector_at(a, at);
    let r1 = vector_at(a, at + 3);
    let r2 = vector_at(a, at + 6);
    Mat33 { r0, r1, r2 }
}

// Puts a vector's three words in from a place on.
pub fn put_vector(out: &mut [u64; 24], at: usize, v: Vec3)
    requires { at ≤ 21 }
    ensures { out.new ≡ Words.with_vector out.old at v }
{
    out[at] = bits(v.x);
    out[at + 1] = bits(v.y);
    out[at + 2] = bits(v.z);
}

// Puts a matrix's nine words in from a place on, by rows.
pub fn put_matrix(out: &mut [u64; 24], at: usize, m: Mat33)
    requires { at ≤ 15 }
    ensures { out.new ≡ Words.with_matrix out.old at m }
{
    put_vector(out, at, m.r0);
    put_vector(out, at + 3, m.r1);
    put_vector(out, at + 6, m.r2);
}
