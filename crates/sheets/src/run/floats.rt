// Values as floats on a list, which is lent whole: a value is its kind and the place where its floats begin.
// A frame takes 21 floats, a value of another kind the first few of 21.
// The list and the place are two arguments: a struct round the list would add a name to each clause and take none away, since its length is its type's.
// What has room behind a place differs from caller to caller (21, 105, and 84 for a bracket in another), so it stays a clause.
// A function for each kind, a line each, answers its value: a match over the kind would be taken where the kind is known.
ghost use Rattle.std.specs.Prelude.{◌≡◌, [], ◌∷◌, ◌+◌, ◌≤◌};
ghost use Rattle.sheets.specs.Kinds.{number, angle, len, geocentric, geodetic, vector, frame};
ghost use Rattle.sheets.specs.Limits.{in_limit};
ghost use Rattle.sheets.specs.code.rows.KindCodes.{kind_at};
ghost use Rattle.sheets.specs.code.run.Floats.{vec_at, mat_at, position_at, value_at, lay, by_rows, frame_floats, Copied};

use crate::Value;
use crate::rows::limits::{are_near, is_near, is_within};
use frames::{GeocentricPosition, GeodeticPosition, LocalFrame, LocalVector, NVector, Orientation};
use numbers::{Angle, Length, Mat33, Vec3};

// The value of each kind whose floats begin at a place.
pub fn number_at(floats: &[f64; 2940], top: usize) -> Value
    requires { top + 21 ≤ 2940 }
    ensures { result ≡ value_at number floats.now top }
{
    Value::Number(floats[top])
}

pub fn angle_at(floats: &[f64; 2940], top: usize) -> Value
    requires { top + 21 ≤ 2940 }
    ensures { result ≡ value_at angle floats.now top }
{
    Value::Radians(Angle(floats[top]))
}

pub fn length_at(floats: &[f64; 2940], top: usize) -> Value
    requires { top + 21 ≤ 2940 }
    ensures { result ≡ value_at len floats.now top }
{
    Value::Metres(Length(floats[top]))
}

// The position whose floats begin at a place.
pub fn position_at(floats: &[f64; 2940], top: usize) -> GeocentricPosition
    requires { top + 21 ≤ 2940 }
    ensures { result ≡ position_at floats.now top }
{
    GeocentricPosition {
        x: Length(floats[top]),
        y: Length(floats[top + 1]),
        z: Length(floats[top + 2]),
    }
}

pub fn geocentric_at(floats: &[f64; 2940], top: usize) -> Value
    requires { top + 21 ≤ 2940 }
    ensures { result ≡ value_at geocentric floats.now top }
{
    Value::Geocentric(position_at(floats, top))
}

pub fn geodetic_at(floats: &[f64; 2940], top: usize) -> Value
    requires { top + 21 ≤ 2940 }
    ensures { result ≡ value_at geodetic floats.now top }
{
    let n = vec_at(floats, top);
    Value::Geodetic(GeodeticPosition {
        hp: NVector(n),
        height: Length(floats[top + 3]),
    })
}

pub fn vector_at(floats: &[f64; 2940], top: usize, orientation: Orientation) -> Value
    requires { top + 21 ≤ 2940 }
    ensures { result ≡ value_at (vector orientation) floats.now top }
{
    let v = vec_at(floats, top);
    Value::Vector(LocalVector {
        x: Length(v.x),
        y: Length(v.y),
        z: Length(v.z),
        orientation,
    })
}

fn vec_at(floats: &[f64; 2940], top: usize) -> Vec3
    requires { top + 3 ≤ 2940 }
    ensures { result ≡ vec_at floats.now top }
{
    Vec3 {
        x: floats[top],
        y: floats[top + 1],
        z: floats[top + 2],
    }
}

fn mat_at(floats: &[f64; 2940], top: usize) -> Mat33
    requires { top + 9 ≤ 2940 }
    ensures { result ≡ mat_at floats.now top }
{
    let r0 = vec_at(floats, top);
    let r1 = vec_at(floats, top + 3);
    let r2 = vec_at(floats, top + 6);
    Mat33 { r0, r1, r2 }
}

pub fn frame_at(floats: &[f64; 2940], top: usize, orientation: Orientation) -> Value
    requires { top + 21 ≤ 2940 }
    ensures { result ≡ value_at (frame orientation) floats.now top }
{
    let origin = vec_at(floats, top);
    let dir_rm = mat_at(floats, top + 3);
    let inv_rm = mat_at(floats, top + 12);
    Value::Frame(LocalFrame {
        origin,
        dir_rm,
        inv_rm,
        orientation,
    })
}

// The value of the kind with this code.
pub fn value_at(kind: u8, floats: &[f64; 2940], top: usize) -> Value
    requires { top + 21 ≤ 2940 }
    ensures { result ≡ value_at (kind_at kind) floats.now top }
{
    match kind {
        0 => number_at(floats, top),
        1 => angle_at(floats, top),
        2 => length_at(floats, top),
        3 => geocentric_at(floats, top),
        4 => geodetic_at(floats, top),
        5 => vector_at(floats, top, Orientation::Enu),
        6 => vector_at(floats, top, Orientation::Ned),
        7 => vector_at(floats, top, Orientation::Body),
        8 => vector_at(floats, top, Orientation::Wan),
        9 => frame_at(floats, top, Orientation::Enu),
        10 => frame_at(floats, top, Orientation::Ned),
        11 => frame_at(floats, top, Orientation::Body),
        _ => frame_at(floats, top, Orientation::Wan),
    }
}

// Whether it lies in its limit: of g, of a vector and of a frame the first three.
pub fn in_limit_at(kind: u8, floats: &[f64; 2940], top: usize) -> bool
    requires { top + 21 ≤ 2940 }
    ensures { result ≡ in_limit (value_at (kind_at kind) floats.now top) }
{
    match kind {
        0 | 2 => is_near(floats[top]),
        1 => is_within(64.0, floats[top]),
        4 => is_near(floats[top + 3]),
        _ => are_near(floats[top], floats[top + 1], floats[top + 2]),
    }
}

// Three floats, stored from a place on.
pub fn lay_three(floats: &mut [f64; 2940], top: usize, x: f64, y: f64, z: f64)
    requires { top + 3 ≤ 2940 }
    ensures { floats.new ≡ lay floats.old top (x ∷ y ∷ z ∷ []) }
{
    floats[top] = x;
    floats[top + 1] = y;
    floats[top + 2] = z;
}

fn lay_matrix(floats: &mut [f64; 2940], top: usize, m: Mat33)
    requires { top + 9 ≤ 2940 }
    ensures { floats.new ≡ lay floats.old top (by_rows m) }
{
    lay_three(floats, top, m.r0.x, m.r0.y, m.r0.z);
    lay_three(floats, top + 3, m.r1.x, m.r1.y, m.r1.z);
    lay_three(floats, top + 6, m.r2.x, m.r2.y, m.r2.z);
}

pub fn lay_frame(floats: &mut [f64; 2940], top: usize, p: LocalFrame)
    requires { top + 21 ≤ 2940 }
    ensures { floats.new ≡ lay floats.old top (frame_floats p) }
{
    lay_three(floats, top, p.origin.x, p.origin.y, p.origin.z);
    let dir = p.dir_rm;
    lay_matrix(floats, top + 3, dir);
    let inv = p.inv_rm;
    lay_matrix(floats, top + 12, inv);
}

// The 21 floats from a place on, stored from another place on.
pub fn copy_floats(floats: &mut [f64; 2940], from: usize, to: usize)
    requires { (from + 21 ≤ 2940) × (to + 21 ≤ 2940) }
    ensures { Copied floats.old from to floats.new }
{
    floats.copy_within(from..from + 21, to);
}
