// Local Cartesian frames: made at a position, turned, and moved along. A vector is read in the frame's axes, whatever orientation it says.
ghost use Rattle.std.specs.Prelude.{◌≡◌};
ghost use Rattle.frames.specs.Frames as Frames;
ghost use Rattle.numbers.specs.Mat.{mat_mul};
ghost use Rattle.frames.specs.Rotations.{zyx2r};
ghost use Rattle.frames.specs.Frames.{by_inverse, by_direction, new_enu, new_ned, new_body, new_wander_azimuth, looking_at, rotate_around_z, frame_origin, local_vector_to, destination_position};
ghost use Rattle.frames.specs.declared.Orientation.TheVariants.{Body};

use crate::orientations::align_to_z_down_matrix;
use crate::positions::{Position, PositionVector};
use crate::rotation::{xyz2r, zyx2r};
use crate::{Ellipsoid, GeocentricPosition, LatLong, LocalFrame, LocalVector, Orientation};
use numbers::{Angle, Mat33, Vec3};

// A frame's two matrices: each is the other's transpose.
impl LocalFrame {
    fn by_inverse(orientation: Orientation, origin: Vec3, inv_rm: Mat33) -> Self
        ensures { result ≡ by_inverse orientation origin inv_rm }
    {
        LocalFrame {
            origin,
            dir_rm: inv_rm.transpose(),
            inv_rm,
            orientation,
        }
    }

    fn by_direction(orientation: Orientation, origin: Vec3, dir_rm: Mat33) -> Self
        ensures { result ≡ by_direction orientation origin dir_rm }
    {
        LocalFrame {
            origin,
            dir_rm,
            inv_rm: dir_rm.transpose(),
            orientation,
        }
    }
}

// The frames of a position, in either of its forms. The Rust has two constructors of each, `from_geocentric` and `from_geodetic`.
impl LocalFrame {
    // East-north-up.
    pub fn enu<P: Position>(origin: P, surface: Ellipsoid) -> Self
        ensures { result ≡ new_enu (P.geodetic_on origin surface) (P.geocentric_on origin surface) }
    {
        let vo = origin.to_geodetic(surface).hp.0;
        let ru = vo;
        let re = Vec3::UNIT_Z.orthogonal_to(vo);
        let rn = ru.cross_prod(re);
        let inv_rm = Mat33::new(re, rn, ru);
        let at = origin.to_geocentric(surface).as_metres();
        LocalFrame::by_inverse(Orientation::Enu, at, inv_rm)
    }

    // North-east-down.
    pub fn ned<P: Position>(origin: P, surface: Ellipsoid) -> Self
        ensures { result ≡ new_ned (P.geodetic_on origin surface) (P.geocentric_on origin surface) }
    {
        let vo = origin.to_geodetic(surface).hp.0;
        let rd = vo * -1.0;
        let re = Vec3::UNIT_Z.orthogonal_to(vo);
        let rn = re.cross_prod(rd);
        let inv_rm = Mat33::new(rn, re, rd);
        let at = origin.to_geocentric(surface).as_metres();
        LocalFrame::by_inverse(Orientation::Ned, at, inv_rm)
    }

    // A vehicle's body.
    // Yaw, pitch and roll stay three arguments, here and in `transform`: callers have them apart, and would build a `Zyx` only to have it taken apart.
    #[tactic(auto, unfolding(crate::specs::Frames::new_ned, crate::specs::Frames::new_body))]
    pub fn body<P: Position>(
        yaw: Angle,
        pitch: Angle,
        roll: Angle,
        origin: P,
        surface: Ellipsoid,
    ) -> Self
        ensures { result ≡ new_body yaw pitch roll (P.geodetic_on origin surface) (P.geocentric_on origin surface) }
    {
        LocalFrame::ned(origin, surface).turned(yaw, pitch, roll)
    }

    // The body whose nose points at the target.
    #[tactic(auto, unfolding(crate::specs::Frames::looking_at, crate::specs::Frames::new_ned, crate::specs::Frames::new_body))]
    pub fn looking_at<P: Position>(origin: P, target: P, roll: Angle, surface: Ellipsoid) -> Self
        ensures { result ≡ looking_at (P.geodetic_on origin surface) (P.geocentric_on origin surface) (P.geocentric_on target surface) roll }
    {
        let ned = LocalFrame::ned(origin, surface);
        let delta = ned.local_vector_to(target.to_geocentric(surface));
        ned.turned(delta.bearing(), delta.elevation(), roll)
    }

    // The body frame at the origin of `self`, which is north-east-down.
    fn turned(self, yaw: Angle, pitch: Angle, roll: Angle) -> Self
        ensures { result ≡ by_direction Body self.origin (mat_mul self.dir_rm (zyx2r yaw pitch roll)) }
    {
        let r_nb = zyx2r(yaw, pitch, roll);
        let r_en = self.dir_rm;
        let dir_rm = r_en * r_nb;
        LocalFrame::by_direction(Orientation::Body, self.origin, dir_rm)
    }

    pub fn wander_azimuth<P: Position>(wander_azimuth: Angle, origin: P, surface: Ellipsoid) -> Self
        ensures { result ≡ new_wander_azimuth wander_azimuth (P.geodetic_on origin surface) (P.geocentric_on origin surface) }
    {
        let ll = LatLong::from_nvector(origin.to_geodetic(surface).hp);
        let r = xyz2r(ll.longitude, -ll.latitude, wander_azimuth);
        let r_ee = Mat33::new(Vec3::NEG_UNIT_Z, Vec3::UNIT_Y, Vec3::UNIT_X);
        let dir_rm = r_ee * r;
        let at = origin.to_geocentric(surface).as_metres();
        LocalFrame::by_direction(Orientation::Wan, at, dir_rm)
    }
}

impl LocalFrame {
    // The Rust's types leave out body frames. Here one takes the same steps.
    pub fn rotate_around_z(self, angle: Angle) -> Self
        ensures { result ≡ rotate_around_z self angle }
    {
        let o = self.orientation;
        let rot_z = zyx2r(angle, Angle::ZERO, Angle::ZERO);
        let dir_rm = rotate(o, self.dir_rm, rot_z);
        LocalFrame::by_direction(Orientation::Wan, self.origin, dir_rm)
    }

    pub fn local_to_earth_matrix(self) -> Mat33
        ensures { result ≡ self.dir_rm }
    {
        self.dir_rm
    }

    pub fn earth_to_local_matrix(self) -> Mat33
        ensures { result ≡ self.inv_rm }
    {
        self.inv_rm
    }

    pub fn origin(self) -> GeocentricPosition
        ensures { result ≡ frame_origin self }
    {
        GeocentricPosition::from_vec3_metres(self.origin)
    }

    #[tactic(auto, unfolding(crate::specs::Frames::transform))]
    pub fn transform(self, offset: LocalVector, yaw: Angle, pitch: Angle, roll: Angle) -> Self
        ensures { result ≡ Frames.transform self offset yaw pitch roll }
    {
        let o = self.orientation;
        let global_translation = offset.as_metres() * self.dir_rm;
        let new_origin = self.origin + global_translation;
        let r_delta = zyx2r(yaw, pitch, roll);
        let dir_rm = rotate(o, self.dir_rm, r_delta);
        LocalFrame::by_direction(Orientation::Body, new_origin, dir_rm)
    }

    #[tactic(auto, unfolding(crate::specs::Frames::local_vector_to))]
    pub fn local_vector_to(self, target: GeocentricPosition) -> LocalVector
        ensures { result ≡ local_vector_to self target }
    {
        let o = self.orientation;
        let t_vec3 = target.as_metres();
        let de = t_vec3 - self.origin;
        let d = de * self.inv_rm;
        LocalVector::from_vec3_metres(o, d)
    }

    #[tactic(auto, unfolding(crate::specs::Frames::destination_position))]
    pub fn destination_position(self, vector: LocalVector) -> GeocentricPosition
        ensures { result ≡ destination_position self vector }
    {
        let c = vector.as_metres() * self.dir_rm;
        let v = self.origin + c;
        GeocentricPosition::from_vec3_metres(v)
    }
}

// m1 * m2, aligned to z down where o has z up.
#[tactic(auto, unfolding(crate::specs::Frames::rotate))]
fn rotate(o: Orientation, m1: Mat33, m2: Mat33) -> Mat33
    ensures { result ≡ Frames.rotate o m1 m2 }
{
    let m = m1 * m2;
    let z_down = align_to_z_down_matrix();
    if o.is_z_up() { m * z_down } else { m }
}
