// Positions: geocentric, geodetic, and horizontal ones as an n-vector or as a latitude and a longitude.
ghost use Rattle.std.specs.Prelude.{◌≡◌};
ghost use Rattle.numbers.specs.Vec.{vec};
ghost use Rattle.numbers.specs.declared.Length.{Length};
ghost use Rattle.frames.specs.declared.Ellipsoid.{Ellipsoid};
ghost use Rattle.frames.specs.declared.GeocentricPosition.{GeocentricPosition};
ghost use Rattle.frames.specs.declared.GeodeticPosition.{GeodeticPosition};
ghost use Rattle.frames.specs.Ellipsoids.{geodetic_to_geocentric, geocentric_to_geodetic};
ghost use Rattle.frames.specs.Positions as Positions;
ghost use Rattle.frames.specs.Positions.{geocentric, geocentric_from_metres, geocentric_from_vec3, geodetic, lat_long, nvector_to_latlong, latlong_to_nvector};

use crate::{Ellipsoid, GeocentricPosition, GeodeticPosition, LatLong, NVector};
use numbers::arctangent::atan2;
use numbers::root::sqrt;
use numbers::sine::{cos, sin};
use numbers::{Angle, Length, Vec3};

// A vector by its three components. `PositionVector` of the Rust.
pub trait PositionVector: Copy {
    ghost x_of: { Self → Length };

    ghost y_of: { Self → Length };

    ghost z_of: { Self → Length };

    fn x(self) -> Length
        ensures { result ≡ x_of self };

    fn y(self) -> Length
        ensures { result ≡ y_of self };

    fn z(self) -> Length
        ensures { result ≡ z_of self };

    // By `Vec3::new`: no part is minus zero.
    fn as_metres(self) -> Vec3
        ensures { result ≡ vec (x_of self).0 (y_of self).0 (z_of self).0 }
    {
        Vec3::new(self.x().0, self.y().0, self.z().0)
    }
}

// A position that has both forms on a surface: one is its own, and the other the surface's conversion.
pub trait Position: Copy {
    ghost geodetic_on: { Self → Ellipsoid → GeodeticPosition };

    ghost geocentric_on: { Self → Ellipsoid → GeocentricPosition };

    fn to_geodetic(self, surface: Ellipsoid) -> GeodeticPosition
        ensures { result ≡ geodetic_on self surface };

    fn to_geocentric(self, surface: Ellipsoid) -> GeocentricPosition
        ensures { result ≡ geocentric_on self surface };
}

impl Position for GeocentricPosition {
    ghost geodetic_on = { λ g l. geocentric_to_geodetic l g };

    ghost geocentric_on = { λ g l. g };

    fn to_geodetic(self, surface: Ellipsoid) -> GeodeticPosition {
        surface.geocentric_to_geodetic_position(self)
    }

    fn to_geocentric(self, _surface: Ellipsoid) -> GeocentricPosition {
        self
    }
}

impl Position for GeodeticPosition {
    ghost geodetic_on = { λ d l. d };

    ghost geocentric_on = { λ d l. geodetic_to_geocentric l d };

    fn to_geodetic(self, _surface: Ellipsoid) -> GeodeticPosition {
        self
    }

    fn to_geocentric(self, surface: Ellipsoid) -> GeocentricPosition {
        surface.geodetic_to_geocentric_position(self)
    }
}

impl GeocentricPosition {
    pub fn new(x: Length, y: Length, z: Length) -> Self
        ensures { result ≡ geocentric x y z }
    {
        GeocentricPosition { x, y, z }
    }

    pub fn from_metres(x: f64, y: f64, z: f64) -> Self
        ensures { result ≡ geocentric_from_metres x y z }
    {
        GeocentricPosition {
            x: Length(x),
            y: Length(y),
            z: Length(z),
        }
    }

    pub fn from_vec3_metres(v: Vec3) -> Self
        ensures { result ≡ geocentric_from_vec3 v }
    {
        GeocentricPosition::from_metres(v.x, v.y, v.z)
    }
}

impl PositionVector for GeocentricPosition {
    ghost x_of = { λ v. v.x };

    ghost y_of = { λ v. v.y };

    ghost z_of = { λ v. v.z };

    fn x(self) -> Length {
        self.x
    }

    fn y(self) -> Length {
        self.y
    }

    fn z(self) -> Length {
        self.z
    }
}

impl GeodeticPosition {
    pub fn new(hp: NVector, height: Length) -> Self
        ensures { result ≡ geodetic hp height }
    {
        GeodeticPosition { hp, height }
    }

    pub fn horizontal_position(self) -> NVector
        ensures { result ≡ self.hp }
    {
        self.hp
    }

    pub fn height(self) -> Length
        ensures { result ≡ self.height }
    {
        self.height
    }
}

impl LatLong {
    pub fn new(latitude: Angle, longitude: Angle) -> Self
        ensures { result ≡ lat_long latitude longitude }
    {
        LatLong {
            latitude,
            longitude,
        }
    }

    // `from_nvector` and `to_nvector` are the Rust's, which has both besides its `From`.
    pub fn from_nvector(nvector: NVector) -> Self
        ensures { result ≡ nvector_to_latlong nvector.0 }
    {
        let v = nvector.0;
        nvector_to_latlong(v)
    }

    pub fn to_nvector(self) -> NVector
        ensures { result ≡ Positions.nvector (latlong_to_nvector self.latitude self.longitude) }
    {
        NVector::from_lat_long(self.latitude, self.longitude)
    }

    pub fn latitude(self) -> Angle
        ensures { result ≡ self.latitude }
    {
        self.latitude
    }

    pub fn longitude(self) -> Angle
        ensures { result ≡ self.longitude }
    {
        self.longitude
    }
}

impl NVector {
    pub fn new(v: Vec3) -> Self
        ensures { result ≡ Positions.nvector v }
    {
        NVector(v)
    }

    pub fn from_lat_long(latitude: Angle, longitude: Angle) -> Self
        ensures { result ≡ Positions.nvector (latlong_to_nvector latitude longitude) }
    {
        NVector(latlong_to_nvector(latitude, longitude))
    }

    pub fn as_vec3(self) -> Vec3
        ensures { result ≡ self.0 }
    {
        self.0
    }
}

impl From<LatLong> for NVector {
    ghost from_gives = { λ l n. n ≡ Positions.nvector (latlong_to_nvector l.latitude l.longitude) };

    fn from(value: LatLong) -> Self {
        value.to_nvector()
    }
}

impl From<NVector> for LatLong {
    ghost from_gives = { λ n l. l ≡ nvector_to_latlong n.0 };

    fn from(value: NVector) -> Self {
        LatLong::from_nvector(value)
    }
}

#[tactic(auto, unfolding(crate::specs::Positions::nvector_to_latlong))]
fn nvector_to_latlong(nvector: Vec3) -> LatLong
    ensures { result ≡ nvector_to_latlong nvector }
{
    let x = nvector.x;
    let y = nvector.y;
    let z = nvector.z;
    let lat = atan2(z, sqrt(x * x + y * y));
    let lon = atan2(y, x);
    LatLong {
        latitude: Angle(lat),
        longitude: Angle(lon),
    }
}

// At a pole the longitude is dropped.
fn latlong_to_nvector(latitude: Angle, longitude: Angle) -> Vec3
    ensures { result ≡ latlong_to_nvector latitude longitude }
{
    if latitude == Angle::QUARTER_CIRCLE {
        return Vec3::UNIT_Z;
    }
    if latitude == Angle::NEG_QUARTER_CIRCLE {
        return Vec3::NEG_UNIT_Z;
    }
    let cl = cos(latitude.0);
    let x = cl * cos(longitude.0);
    let y = cl * sin(longitude.0);
    let z = sin(latitude.0);
    Vec3::new(x, y, z)
}
