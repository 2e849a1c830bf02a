// Functions of `frames` that the bench calls; test_operations_c hands them to C, so numbers and arrays of numbers go in and out.
#![tactic(auto, unfolding(crate::specs::Direct::vector_from, crate::specs::Direct::matrix_from, crate::specs::Direct::frame_of, crate::specs::Direct::entries, frames::specs::Frames::enu_from_geodetic))]

ghost use Rattle.std.specs.Prelude.{◌≤◌, ◌≡◌};
ghost use Rattle.frames.specs.Positions.{geocentric_from_metres};
ghost use Rattle.frames.specs.Ellipsoids.{geodetic_to_geocentric, geocentric_to_geodetic};
ghost use Rattle.frames.specs.Vectors as Vectors;
ghost use Rattle.frames.specs.Frames.{enu_from_geodetic, local_vector_to};
ghost use Rattle.test_operations.specs.Direct as Direct;
ghost use Rattle.test_operations.specs.Direct.{ellipsoid_of, geodetic_of};
ghost use Rattle.frames.specs.declared.Orientation.TheVariants.{Enu, Ned};

use crate::frames_inputs::{ellipsoid, geodetic};
use crate::words::{matrix_at, vector_at};
use frames::{GeocentricPosition, LocalFrame, LocalVector, Orientation};

// The ellipsoid's four fields, then the n-vector and the height.
pub fn frames_to_geocentric(
    a: f64,
    b: f64,
    e: f64,
    f: f64,
    x: f64,
    y: f64,
    z: f64,
    height: f64,
    out: &mut [f64; 3],
)
    ensures { out.new ≡ Direct.coordinates (geodetic_to_geocentric (ellipsoid_of a b e f) (geodetic_of x y z height)) }
{
    let p = ellipsoid(a, b, e, f).geodetic_to_geocentric_position(geodetic(x, y, z, height));
    *out = [p.x.0, p.y.0, p.z.0];
}

// The ellipsoid's four fields, then the coordinates.
pub fn frames_to_geodetic(
    a: f64,
    b: f64,
    e: f64,
    f: f64,
    x: f64,
    y: f64,
    z: f64,
    out: &mut [f64; 4],
)
    ensures { out.new ≡ Direct.nvector_and_height (geocentric_to_geodetic (ellipsoid_of a b e f) (geocentric_from_metres x y z)) }
{
    let g = GeocentricPosition::from_metres(x, y, z);
    let p = ellipsoid(a, b, e, f).geocentric_to_geodetic_position(g);
    let v = p.hp.0;
    *out = [v.x, v.y, v.z, p.height.0];
}

// The ellipsoid's four fields, then the n-vector and the height. Out are origin, direction and inverse matrix.
pub fn frames_enu(
    a: f64,
    b: f64,
    e: f64,
    f: f64,
    x: f64,
    y: f64,
    z: f64,
    height: f64,
    out: &mut [f64; 21],
)
    ensures { out.new ≡ Direct.entries (enu_from_geodetic (geodetic_of x y z height) (ellipsoid_of a b e f)) }
{
    let l = ellipsoid(a, b, e, f);
    *out = entries(LocalFrame::enu(geodetic(x, y, z, height), l));
}

fn entries(f: LocalFrame) -> [f64; 21]
    ensures { result ≡ Direct.entries f }
{
    let o = f.origin;
    let d = f.dir_rm;
    let i = f.inv_rm;
    [
        o.x, o.y, o.z, d.r0.x, d.r0.y, d.r0.z, d.r1.x, d.r1.y, d.r1.z, d.r2.x, d.r2.y, d.r2.z, i
            .r0
            .x, i.r0.y, i.r0.z, i.r1.x, i.r1.y, i.r1.z, i.r2.x, i.r2.y, i.r2.z,
    ]
}

// An east-north-up frame's origin, direction and inverse matrix, then the target's coordinates.
pub fn frames_vector_to(f: &[f64; 21], x: f64, y: f64, z: f64, out: &mut [f64; 3])
    ensures { out.new ≡ Direct.components (local_vector_to (Direct.frame_of f.now) (geocentric_from_metres x y z)) }
{
    let v = frame(f).local_vector_to(GeocentricPosition::from_metres(x, y, z));
    *out = [v.x.0, v.y.0, v.z.0];
}

fn frame(f: &[f64; 21]) -> LocalFrame
    ensures { result ≡ Direct.frame_of f.now }
{
    LocalFrame {
        origin: vector_at(f, 0),
        dir_rm: matrix_at(f, 3),
        inv_rm: matrix_at(f, 12),
        orientation: Orientation::Enu,
    }
}

// Of a north-east-down vector.
pub fn frames_bearing(x: f64, y: f64, z: f64) -> f64
    ensures { result ≡ (Vectors.bearing (Vectors.local_from_metres Ned x y z)).0 }
{
    let v = LocalVector::from_metres(Orientation::Ned, x, y, z);
    v.bearing().0
}

// Of an east-north-up vector.
pub fn frames_elevation(x: f64, y: f64, z: f64) -> f64
    ensures { result ≡ (Vectors.elevation (Vectors.local_from_metres Enu x y z)).0 }
{
    let v = LocalVector::from_metres(Orientation::Enu, x, y, z);
    v.elevation().0
}
