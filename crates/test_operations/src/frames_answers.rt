// Values of `frames` as answers. A vector and a frame begin with their orientation's number.
#![tactic(auto, unfolding(crate::specs::Words::padded, crate::specs::Words::with_vector, crate::specs::Words::with_matrix))]

ghost use Rattle.std.specs.Prelude.{ℕ, ◌≡◌, List};
ghost use Rattle.test_operations.specs.Words.{vector};
ghost use Rattle.test_operations.specs.Values as Values;

use crate::answer::Answer;
use crate::words::{put_matrix, put_vector};
use frames::{
    Ellipsoid, GeocentricPosition, GeodeticPosition, LatLong, LocalFrame, LocalVector, NVector,
    Orientation, Xyz, Zyx,
};
use numbers::Vec3;
use numbers::float::bits;

impl Answer for Ellipsoid {
    ghost words = { Values.ellipsoid_words };

    fn answer(self) -> [u64; 24] {
        let (a, b) = (self.equatorial_radius.0, self.polar_radius.0);
        let mut out = Vec3 {
            x: a,
            y: b,
            z: self.eccentricity,
        }
        .answer();
        out[3] = bits(self.flattening);
        out
    }
}

impl Answer for GeocentricPosition {
    ghost words = { Values.geocentric_words };

    fn answer(self) -> [u64; 24] {
        Vec3 {
            x: self.x.0,
            y: self.y.0,
            z: self.z.0,
        }
        .answer()
    }
}

impl Answer for NVector {
    ghost words = { λ n. vector n.0 };

    fn answer(self) -> [u64; 24] {
        self.0.answer()
    }
}

impl Answer for GeodeticPosition {
    ghost words = { Values.geodetic_words };

    fn answer(self) -> [u64; 24] {
        let mut out = self.hp.answer();
        out[3] = bits(self.height.0);
        out
    }
}

impl Answer for LatLong {
    ghost words = { Values.lat_long_words };

    fn answer(self) -> [u64; 24] {
        let mut out = self.latitude.answer();
        out[1] = bits(self.longitude.0);
        out
    }
}

impl Answer for Xyz {
    ghost words = { Values.xyz_words };

    fn answer(self) -> [u64; 24] {
        Vec3 {
            x: self.x.0,
            y: self.y.0,
            z: self.z.0,
        }
        .answer()
    }
}

impl Answer for Zyx {
    ghost words = { Values.zyx_words };

    fn answer(self) -> [u64; 24] {
        Vec3 {
            x: self.z.0,
            y: self.y.0,
            z: self.x.0,
        }
        .answer()
    }
}

// The number of an orientation. No `From`: neither type is this crate's.
fn orientation(o: Orientation) -> u64
    ensures { result ≡ Values.orientation_number o }
{
    match o {
        Orientation::Enu => 0,
        Orientation::Ned => 1,
        Orientation::Body => 2,
        Orientation::Wan => 3,
    }
}

impl Answer for LocalVector {
    ghost words = { Values.local_words };

    fn answer(self) -> [u64; 24] {
        let mut out = orientation(self.orientation).answer();
        out[1] = bits(self.x.0);
        out[2] = bits(self.y.0);
        out[3] = bits(self.z.0);
        out
    }
}

impl Answer for LocalFrame {
    ghost words = { Values.frame_words };

    fn answer(self) -> [u64; 24] {
        let mut out = orientation(self.orientation).answer();
        put_vector(&mut out, 1, self.origin);
        put_matrix(&mut out, 4, self.dir_rm);
        put_matrix(&mut out, 13, self.inv_rm);
        out
    }
}
