// The orientation of a frame's axes, beside the floats of a vector or a frame.
ghost use Rattle.std.specs.Prelude.{◌≡◌};
ghost use Rattle.frames.specs.Orientations.{is_z_up, align_to_z_down};

use crate::Orientation;
use numbers::{Mat33, Vec3};

impl Orientation {
    pub fn is_z_up(self) -> bool
        ensures { result ≡ is_z_up self }
    {
        self == Orientation::Enu
    }
}

pub fn align_to_z_down_matrix() -> Mat33
    ensures { result ≡ align_to_z_down }
{
    Mat33::new(
        Vec3::new(0.0, 1.0, 0.0),
        Vec3::new(1.0, 0.0, 0.0),
        Vec3::new(0.0, 0.0, -1.0),
    )
}
