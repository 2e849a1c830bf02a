// An ellipsoid of revolution, its radii, and the conversion between geodetic and geocentric positions.
ghost use Rattle.std.specs.Prelude.{◌≡◌};
ghost use Rattle.frames.specs.Ellipsoids as Ellipsoids;
ghost use Rattle.frames.specs.Ellipsoids.{ellipsoid, geodetic_to_geocentric, geocentric_to_geodetic, p_of, q_of, u_of, k_of, geodetic_by};
ghost use Rattle.frames.specs.Radii.{geocentric_radius, latitude_radius, prime_vertical_radius, meridian_radius, mean_radius};

use crate::positions::PositionVector;
use crate::{Ellipsoid, GeocentricPosition, GeodeticPosition, NVector};
use numbers::powers::{powf_third, powf_three_halves};
use numbers::root::sqrt;
use numbers::sine::{cos, sin};
use numbers::{Angle, Length, Vec3};

impl Ellipsoid {
    pub const WGS84: Ellipsoid = Ellipsoid {
        equatorial_radius: Length(6378137.0),
        polar_radius: Length(6356752.314245179),
        eccentricity: 0.08181919084262157,
        flattening: 0.0033528106647474805,
    };

    // The constant, with a contract.
    pub fn wgs84() -> Self
        ensures { result ≡ Ellipsoids.wgs84 }
    {
        Ellipsoid::WGS84
    }

    pub fn new(equatorial_radius: Length, inverse_flattening: f64) -> Self
        ensures { result ≡ ellipsoid equatorial_radius inverse_flattening }
    {
        let a = equatorial_radius.0;
        let f = 1.0 / inverse_flattening;
        let b = a * (1.0 - f);
        let e = sqrt(1.0 - (b * b) / (a * a));
        Ellipsoid {
            equatorial_radius,
            polar_radius: Length(b),
            eccentricity: e,
            flattening: f,
        }
    }

    pub fn equatorial_radius(self) -> Length
        ensures { result ≡ self.equatorial_radius }
    {
        self.equatorial_radius
    }

    pub fn polar_radius(self) -> Length
        ensures { result ≡ self.polar_radius }
    {
        self.polar_radius
    }

    pub fn eccentricity(self) -> f64
        ensures { result ≡ self.eccentricity }
    {
        self.eccentricity
    }

    pub fn flattening(self) -> f64
        ensures { result ≡ self.flattening }
    {
        self.flattening
    }

    #[tactic(auto, unfolding(crate::specs::Radii::geocentric_radius))]
    pub fn geocentric_radius(self, latitude: Angle) -> Length
        ensures { result ≡ geocentric_radius self latitude }
    {
        let cos_lat = cos(latitude.0);
        let sin_lat = sin(latitude.0);
        let a = self.equatorial_radius.0;
        let b = self.polar_radius.0;
        let f1 = a * a * cos_lat;
        let f2 = b * b * sin_lat;
        let f3 = a * cos_lat;
        let f4 = b * sin_lat;
        let r = sqrt(((f1 * f1) + (f2 * f2)) / ((f3 * f3) + (f4 * f4)));
        Length(r)
    }

    pub fn latitude_radius(self, latitude: Angle) -> Length
        ensures { result ≡ latitude_radius self latitude }
    {
        if latitude == Angle::QUARTER_CIRCLE {
            return Length::ZERO;
        }
        if latitude == Angle::NEG_QUARTER_CIRCLE {
            return Length::ZERO;
        }
        let n = self.prime_vertical_radius(latitude);
        n * cos(latitude.0)
    }

    pub fn prime_vertical_radius(self, latitude: Angle) -> Length
        ensures { result ≡ prime_vertical_radius self latitude }
    {
        let e2 = self.eccentricity * self.eccentricity;
        let sin_lat = sin(latitude.0);
        let sin_lat2 = sin_lat * sin_lat;
        let r = self.equatorial_radius.0 / sqrt(1.0 - e2 * sin_lat2);
        Length(r)
    }

    pub fn meridian_radius(self, latitude: Angle) -> Length
        ensures { result ≡ meridian_radius self latitude }
    {
        let e2 = self.eccentricity * self.eccentricity;
        let sin_lat = sin(latitude.0);
        let sin_lat2 = sin_lat * sin_lat;
        let r = self.equatorial_radius.0 * (1.0 - e2) / powf_three_halves(1.0 - e2 * sin_lat2);
        Length(r)
    }

    pub fn mean_radius(self) -> Length
        ensures { result ≡ mean_radius self }
    {
        let a = self.equatorial_radius;
        let b = self.polar_radius;
        let sum = a * 2.0 + b;
        sum / 3.0
    }

    #[tactic(auto, unfolding(crate::specs::Ellipsoids::geodetic_to_geocentric))]
    pub fn geodetic_to_geocentric_position(self, pos: GeodeticPosition) -> GeocentricPosition
        ensures { result ≡ geodetic_to_geocentric self pos }
    {
        let nx = pos.hp.0.x;
        let ny = pos.hp.0.y;
        let nz = pos.hp.0.z;
        let a = self.equatorial_radius.0;
        let b = self.polar_radius.0;
        let m = (a * a) / (b * b);
        let n = b / sqrt((nx * nx * m) + (ny * ny * m) + (nz * nz));
        let h = pos.height.0;
        let cx = n * m * nx + h * nx;
        let cy = n * m * ny + h * ny;
        let cz = n * nz + h * nz;
        GeocentricPosition::from_metres(cx, cy, cz)
    }

    #[tactic(auto, unfolding(crate::specs::Ellipsoids::geocentric_to_geodetic))]
    pub fn geocentric_to_geodetic_position(self, pos: GeocentricPosition) -> GeodeticPosition
        ensures { result ≡ geocentric_to_geodetic self pos }
    {
        let pv = pos.as_metres();
        let e2 = self.eccentricity * self.eccentricity;
        let e4 = e2 * e2;
        let p = self.p_of(pv);
        let q = self.q_of(pv);
        let u = u_of(e4, p, q);
        let k = k_of(e2, e4, q, u);
        geodetic_by(e2, k, pv)
    }

    // p and q of `geocentric_to_geodetic_position`. A sheet refuses a position near the centre by their sum.
    #[tactic(auto, unfolding(crate::specs::Ellipsoids::p_of))]
    pub fn p_of(self, pv: Vec3) -> f64
        ensures { result ≡ p_of self pv }
    {
        let a = self.equatorial_radius.0;
        let a2 = a * a;
        (pv.x * pv.x + pv.y * pv.y) / a2
    }

    pub fn q_of(self, pv: Vec3) -> f64
        ensures { result ≡ q_of self pv }
    {
        let e2 = self.eccentricity * self.eccentricity;
        let a = self.equatorial_radius.0;
        let a2 = a * a;
        ((1.0 - e2) / a2) * (pv.z * pv.z)
    }
}

// u, by r, s and t.
fn u_of(e4: f64, p: f64, q: f64) -> f64
    ensures { result ≡ u_of e4 p q }
{
    let r = (p + q - e4) / 6.0;
    let s = (e4 * p * q) / (4.0 * r * r * r);
    let t = powf_third(1.0 + s + sqrt(s * (2.0 + s)));
    r * (1.0 + t + 1.0 / t)
}

// k, by v and w.
fn k_of(e2: f64, e4: f64, q: f64, u: f64) -> f64
    ensures { result ≡ k_of e2 e4 q u }
{
    let v = sqrt(u * u + q * e4);
    let w = e2 * (u + v - q) / (2.0 * v);
    sqrt(u + v + w * w) - w
}

// The position, by k.
fn geodetic_by(e2: f64, k: f64, pv: Vec3) -> GeodeticPosition
    ensures { result ≡ geodetic_by e2 k pv }
{
    let px = pv.x;
    let py = pv.y;
    let pz = pv.z;
    let d = k * sqrt(px * px + py * py) / (k + e2);
    let h = ((k + e2 - 1.0) / k) * sqrt(d * d + pz * pz);

    let fs = 1.0 / sqrt(d * d + pz * pz);
    let fa = k / (k + e2);
    let nx = fs * fa * px;
    let ny = fs * fa * py;
    let nz = fs * pz;
    GeodeticPosition {
        hp: NVector(Vec3::new(nx, ny, nz)),
        height: Length(h),
    }
}
