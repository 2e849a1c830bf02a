// The radii of an ellipsoid, which is the first four words, at the latitude of the fifth; and the division of a vector.
#![tactic(auto, unfolding(crate::specs::Rows::answered, crate::specs::FramesTable::radius_rows, crate::specs::Words::padded))]

ghost use Rattle.std.specs.Prelude.{◌≡◌};
ghost use Rattle.test_operations.specs.Words.{padded};
ghost use Rattle.test_operations.specs.Rows.{answered};
ghost use Rattle.test_operations.specs.FramesTable.{radius_rows};

use crate::answer::Answer;
use crate::frames_inputs::{angle_at, ellipsoid_at, local_at};
use crate::words::double_at;

// Operations 54 to 59. All zeros where there is no such operation.
pub fn radii(op: u64, a: &[u64; 32]) -> [u64; 24]
    ensures { result ≡ padded (answered radius_rows op a.now) }
{
    let l = ellipsoid_at(a);
    let latitude = angle_at(a, 4);
    match op {
        54 => l.geocentric_radius(latitude).answer(),
        55 => l.latitude_radius(latitude).answer(),
        56 => l.prime_vertical_radius(latitude).answer(),
        57 => l.meridian_radius(latitude).answer(),
        58 => l.mean_radius().answer(),
        59 => (local_at(a, 1) / double_at(a, 4)).answer(),
        _ => [0u64; 24],
    }
}
