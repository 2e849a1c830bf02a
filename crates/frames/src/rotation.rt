// Rotation matrices from angles about new axes, and the angles of a rotation matrix: the functions at the end of frame.rs.
ghost use Rattle.std.specs.Prelude.{◌≡◌};
ghost use Rattle.frames.specs.Rotations as Rotations;

use crate::{Xyz, Zyx};
use numbers::arctangent::atan2;
use numbers::root::sqrt;
use numbers::sine::{cos, sin};
use numbers::{Angle, Mat33, Vec3};

pub fn r2xyz(m: Mat33) -> Xyz
    ensures { result ≡ Rotations.r2xyz m }
{
    let v00 = m.r0.x;
    let v01 = m.r0.y;
    let v12 = m.r1.z;
    let v22 = m.r2.z;
    let z = -atan2(v01, v00);
    let x = -atan2(v12, v22);
    let sy = m.r0.z;
    let cy = sqrt((v00 * v00 + v01 * v01 + v12 * v12 + v22 * v22) / 2.0);
    let y = atan2(sy, cy);
    Xyz {
        x: Angle(x),
        y: Angle(y),
        z: Angle(z),
    }
}

#[tactic(auto, unfolding(crate::specs::Rotations::r2zyx))]
pub fn r2zyx(m: Mat33) -> Zyx
    ensures { result ≡ Rotations.r2zyx m }
{
    let a = r2xyz(m.transpose());
    Zyx {
        z: Angle(-a.z.0),
        y: Angle(-a.y.0),
        x: Angle(-a.x.0),
    }
}

#[tactic(auto, unfolding(crate::specs::Rotations::zyx2r))]
pub fn zyx2r(z: Angle, y: Angle, x: Angle) -> Mat33
    ensures { result ≡ Rotations.zyx2r z y x }
{
    let cx = cos(x.0);
    let sx = sin(x.0);
    let cy = cos(y.0);
    let sy = sin(y.0);
    let cz = cos(z.0);
    let sz = sin(z.0);
    let r0 = Vec3::new(cz * cy, -sz * cx + cz * sy * sx, sz * sx + cz * sy * cx);
    let r1 = Vec3::new(sz * cy, cz * cx + sz * sy * sx, -cz * sx + sz * sy * cx);
    let r2 = Vec3::new(-sy, cy * sx, cy * cx);
    Mat33::new(r0, r1, r2)
}

#[tactic(auto, unfolding(crate::specs::Rotations::xyz2r))]
pub fn xyz2r(x: Angle, y: Angle, z: Angle) -> Mat33
    ensures { result ≡ Rotations.xyz2r x y z }
{
    let cx = cos(x.0);
    let sx = sin(x.0);
    let cy = cos(y.0);
    let sy = sin(y.0);
    let cz = cos(z.0);
    let sz = sin(z.0);
    let r0 = Vec3::new(cy * cz, -cy * sz, sy);
    let r1 = Vec3::new(sy * sx * cz + cx * sz, -sy * sx * sz + cx * cz, -cy * sx);
    let r2 = Vec3::new(-sy * cx * cz + sx * sz, sy * cx * sz + sx * cz, cy * cx);
    Mat33::new(r0, r1, r2)
}
