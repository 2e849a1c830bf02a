// The functions of `test_operations` for C: fifteen exports, each of which calls the library's function of its name and states its clause.
#![tactic(auto)]

ghost use Rattle.std.specs.Prelude.{◌≡◌};
ghost use Rattle.numbers.specs.Floats as Floats;
ghost use Rattle.numbers.specs.Angles.{angle, normalised_to};
ghost use Rattle.numbers.specs.Root as Root;
ghost use Rattle.numbers.specs.Sine as Sine;
ghost use Rattle.numbers.specs.Arctangent as Arctangent;
ghost use Rattle.frames.specs.Positions.{geocentric_from_metres};
ghost use Rattle.frames.specs.Ellipsoids.{geodetic_to_geocentric, geocentric_to_geodetic};
ghost use Rattle.frames.specs.Vectors as Vectors;
ghost use Rattle.frames.specs.Frames.{enu_from_geodetic, local_vector_to};
ghost use Rattle.frames.specs.declared.Orientation.TheVariants.{Enu, Ned};
ghost use Rattle.test_operations.specs.Words.{padded};
ghost use Rattle.test_operations.specs.Rows.{answered};
ghost use Rattle.test_operations.specs.NumbersTable as NumbersTable;
ghost use Rattle.test_operations.specs.FramesTable as FramesTable;
ghost use Rattle.test_operations.specs.Direct as Direct;
ghost use Rattle.test_operations.specs.Direct.{ellipsoid_of, geodetic_of};

use test_operations::{frames_direct, numbers_direct};

// The words of an operation's answer, then zeros. All zeros where there is no such operation.

#[unsafe(no_mangle)]
pub extern "C" fn numbers_apply(op: u64, inputs: &[u64; 32], outputs: &mut [u64; 24])
    ensures { outputs.new ≡ padded (answered NumbersTable.table op inputs.now) }
{
    test_operations::numbers_apply(op, inputs, outputs)
}

#[unsafe(no_mangle)]
pub extern "C" fn frames_apply(op: u64, inputs: &[u64; 32], outputs: &mut [u64; 24])
    ensures { outputs.new ≡ padded (answered FramesTable.table op inputs.now) }
{
    test_operations::frames_apply(op, inputs, outputs)
}

// What the bench calls, numbers in and numbers out: functions of `numbers`, then of `frames`.

#[unsafe(no_mangle)]
pub extern "C" fn numbers_sqrt(x: f64) -> f64
    ensures { result ≡ Root.sqrt x }
{
    numbers_direct::numbers_sqrt(x)
}

#[unsafe(no_mangle)]
pub extern "C" fn numbers_sin(x: f64) -> f64
    ensures { result ≡ Sine.sin x }
{
    numbers_direct::numbers_sin(x)
}

#[unsafe(no_mangle)]
pub extern "C" fn numbers_cos(x: f64) -> f64
    ensures { result ≡ Sine.cos x }
{
    numbers_direct::numbers_cos(x)
}

#[unsafe(no_mangle)]
pub extern "C" fn numbers_atan2(y: f64, x: f64) -> f64
    ensures { result ≡ Arctangent.atan2 y x }
{
    numbers_direct::numbers_atan2(y, x)
}

#[unsafe(no_mangle)]
pub extern "C" fn numbers_asin(x: f64) -> f64
    ensures { result ≡ Arctangent.asin x }
{
    numbers_direct::numbers_asin(x)
}

#[unsafe(no_mangle)]
pub extern "C" fn numbers_rem(x: f64, y: f64) -> f64
    ensures { result ≡ Floats.remainder x y }
{
    numbers_direct::numbers_rem(x, y)
}

// In radians.
#[unsafe(no_mangle)]
pub extern "C" fn numbers_normalised_to(x: f64, max: f64) -> f64
    ensures { angle result ≡ normalised_to (angle x) (angle max) }
{
    numbers_direct::numbers_normalised_to(x, max)
}

// The ellipsoid's four fields, then the n-vector and the height.
#[unsafe(no_mangle)]
pub extern "C" fn frames_to_geocentric(
    a: f64,
    b: f64,
    e: f64,
    f: f64,
    x: f64,
    y: f64,
    z: f64,
    height: f64,
    out: &mut [f64; 3],
)
    ensures { out.new ≡ Direct.coordinates (geodetic_to_geocentric (ellipsoid_of a b e f) (geodetic_of x y z height)) }
{
    frames_direct::frames_to_geocentric(a, b, e, f, x, y, z, height, out)
}

// The ellipsoid's four fields, then the coordinates.
#[unsafe(no_mangle)]
pub extern "C" fn frames_to_geodetic(
    a: f64,
    b: f64,
    e: f64,
    f: f64,
    x: f64,
    y: f64,
    z: f64,
    out: &mut [f64; 4],
)
    ensures { out.new ≡ Direct.nvector_and_height (geocentric_to_geodetic (ellipsoid_of a b e f) (geocentric_from_metres x y z)) }
{
    frames_direct::frames_to_geodetic(a, b, e, f, x, y, z, out)
}

// The ellipsoid's four fields, then the n-vector and the height. Out are origin, direction and inverse matrix.
#[unsafe(no_mangle)]
pub extern "C" fn frames_enu(
    a: f64,
    b: f64,
    e: f64,
    f: f64,
    x: f64,
    y: f64,
    z: f64,
    height: f64,
    out: &mut [f64; 21],
)
    ensures { out.new ≡ Direct.entries (enu_from_geodetic (geodetic_of x y z height) (ellipsoid_of a b e f)) }
{
    frames_direct::frames_enu(a, b, e, f, x, y, z, height, out)
}

// An east-north-up frame's origin, direction and inverse matrix, then the target's coordinates.
#[unsafe(no_mangle)]
pub extern "C" fn frames_vector_to(f: &[f64; 21], x: f64, y: f64, z: f64, out: &mut [f64; 3])
    ensures { out.new ≡ Direct.components (local_vector_to (Direct.frame_of f.now) (geocentric_from_metres x y z)) }
{
    frames_direct::frames_vector_to(f, x, y, z, out)
}

// Of a north-east-down vector.
#[unsafe(no_mangle)]
pub extern "C" fn frames_bearing(x: f64, y: f64, z: f64) -> f64
    ensures { result ≡ (Vectors.bearing (Vectors.local_from_metres Ned x y z)).0 }
{
    frames_direct::frames_bearing(x, y, z)
}

// Of an east-north-up vector.
#[unsafe(no_mangle)]
pub extern "C" fn frames_elevation(x: f64, y: f64, z: f64) -> f64
    ensures { result ≡ (Vectors.elevation (Vectors.local_from_metres Enu x y z)).0 }
{
    frames_direct::frames_elevation(x, y, z)
}
