// Operations on frames. Where an operation takes an ellipsoid it is the first four words, where it takes a frame the first 22.
#![tactic(auto, unfolding(crate::specs::Rows::answered, crate::specs::FramesTable::level_rows, crate::specs::FramesTable::turned_rows, crate::specs::FramesTable::led_rows))]

ghost use Rattle.std.specs.Prelude.{◌≤◌, ◌≡◌};
ghost use Rattle.frames.specs.Frames as Frames;
ghost use Rattle.test_operations.specs.Words.{padded};
ghost use Rattle.test_operations.specs.Rows.{answered};
ghost use Rattle.test_operations.specs.Values.{angle_at, local_at, frame_at, frame_words};
ghost use Rattle.test_operations.specs.FramesTable.{level_rows, turned_rows, led_rows};

use crate::answer::Answer;
use crate::frames_inputs::{
    angle_at, ellipsoid_at, frame_at, geocentric_at, geodetic_at, local_at,
};
use crate::frames_radii::radii;
use frames::LocalFrame;

// Operations 37 to 40, and all that follow.
pub fn levels(op: u64, a: &[u64; 32]) -> [u64; 24]
    ensures { result ≡ padded (answered level_rows op a.now) }
{
    match op {
        37 => LocalFrame::enu(geocentric_at(a, 4), ellipsoid_at(a)).answer(),
        38 => LocalFrame::enu(geodetic_at(a, 4), ellipsoid_at(a)).answer(),
        39 => LocalFrame::ned(geocentric_at(a, 4), ellipsoid_at(a)).answer(),
        40 => LocalFrame::ned(geodetic_at(a, 4), ellipsoid_at(a)).answer(),
        _ => turned(op, a),
    }
}

// Operations 41 to 46, and all that follow.
fn turned(op: u64, a: &[u64; 32]) -> [u64; 24]
    ensures { result ≡ padded (answered turned_rows op a.now) }
{
    match op {
        41 | 42 | 43 | 44 | 45 | 46 => turned_frame(op, a).answer(),
        _ => led(op, a),
    }
}

// The frame of 41 to 46. Not compiled into the match: so all other operations are one body, which answers straight into the caller's words, and none of them reads these arguments.
#[inline(never)]
fn turned_frame(op: u64, a: &[u64; 32]) -> LocalFrame
    requires from_41 { 41 ≤ op }
    requires to_46 { op ≤ 46 }
    ensures { frame_words result ≡ answered turned_rows op a.now }
{
    let l = ellipsoid_at(a);
    let g = geocentric_at(a, 4);
    let d = geodetic_at(a, 4);
    let at7 = angle_at(a, 7);
    let at8 = angle_at(a, 8);
    let at9 = angle_at(a, 9);
    let at10 = angle_at(a, 10);
    match op {
        41 => LocalFrame::body(at7, at8, at9, g, l),
        42 => LocalFrame::body(at8, at9, at10, d, l),
        43 => LocalFrame::wander_azimuth(at7, g, l),
        44 => LocalFrame::wander_azimuth(at8, d, l),
        45 => LocalFrame::looking_at(g, geocentric_at(a, 7), at10, l),
        _ => LocalFrame::looking_at(d, geodetic_at(a, 8), angle_at(a, 12), l),
    }
}

// Operations 47 to 53, and all that follow.
fn led(op: u64, a: &[u64; 32]) -> [u64; 24]
    ensures { result ≡ padded (answered led_rows op a.now) }
{
    match op {
        47 => frame_at(a).rotate_around_z(angle_at(a, 22)).answer(),
        48 => frame_at(a).local_to_earth_matrix().answer(),
        49 => frame_at(a).earth_to_local_matrix().answer(),
        50 => frame_at(a).origin().answer(),
        51 => transformed(a).answer(),
        52 => frame_at(a).local_vector_to(geocentric_at(a, 22)).answer(),
        53 => frame_at(a).destination_position(local_at(a, 22)).answer(),
        _ => radii(op, a),
    }
}

// The frame of 51, apart as those of 41 to 46 are.
#[inline(never)]
fn transformed(a: &[u64; 32]) -> LocalFrame
    ensures { result ≡ Frames.transform (frame_at a.now) (local_at a.now 22) (angle_at a.now 25) (angle_at a.now 26) (angle_at a.now 27) }
{
    let offset = local_at(a, 22);
    let yaw = angle_at(a, 25);
    let pitch = angle_at(a, 26);
    let roll = angle_at(a, 27);
    frame_at(a).transform(offset, yaw, pitch, roll)
}
