// The examples in the documentation of jord-rs.
use crate::report::Figure;
use frames::{Ellipsoid, LocalVector, Orientation};
use numbers::{Angle, Length};

// vector.rs, `LocalVector::from_aer`: a sensor's observation in a body frame, to the millimetre.
pub fn from_aer() -> [Figure; 3] {
    let azimuth = Angle::from_degrees(155.427);
    let elevation = Angle::from_degrees(-23.161);
    let v = LocalVector::from_aer(Orientation::Body, azimuth, elevation, Length(10.885));
    let half = 0.0005;
    [
        Figure::rounded("jord-rs from_aer x -9.101 m", v.x.0, -9.101, half),
        Figure::rounded("jord-rs from_aer y 4.162 m", v.y.0, 4.162, half),
        Figure::rounded("jord-rs from_aer z 4.281 m", v.z.0, 4.281, half),
    ]
}

// ellipsoid.rs, the radii of WGS84. Rounded to the metre, the millimetre and the decimetre where the documentation rounds, and exact elsewhere; it gives none for `meridian_radius`.
pub fn geocentric_radii() -> [Figure; 3] {
    let earth = Ellipsoid::wgs84();
    let equator = earth.geocentric_radius(Angle::ZERO).0;
    let pole = earth.geocentric_radius(Angle::from_degrees(90.0)).0;
    let middle = earth.geocentric_radius(Angle::from_degrees(45.0)).0;
    [
        Figure::exact(
            "jord-rs geocentric_radius at 0: 6378137 m",
            equator,
            6378137.0,
        ),
        Figure::exact(
            "jord-rs geocentric_radius at 90: 6356752.314245179 m",
            pole,
            6356752.314245179,
        ),
        Figure::rounded(
            "jord-rs geocentric_radius at 45: 6367490 m",
            middle,
            6367490.0,
            0.5,
        ),
    ]
}

pub fn latitude_radii() -> [Figure; 3] {
    let earth = Ellipsoid::wgs84();
    let equator = earth.latitude_radius(Angle::ZERO).0;
    let north_pole = earth.latitude_radius(Angle::from_degrees(90.0)).0;
    let south_pole = earth.latitude_radius(Angle::from_degrees(-90.0)).0;
    [
        Figure::exact(
            "jord-rs latitude_radius at 0: 6378137 m",
            equator,
            6378137.0,
        ),
        Figure::exact("jord-rs latitude_radius at 90: 0 m", north_pole, 0.0),
        Figure::exact("jord-rs latitude_radius at -90: 0 m", south_pole, 0.0),
    ]
}

pub fn other_radii() -> [Figure; 3] {
    let earth = Ellipsoid::wgs84();
    let equator = earth.prime_vertical_radius(Angle::ZERO).0;
    let middle = earth.prime_vertical_radius(Angle::from_degrees(45.0)).0;
    let mean = earth.mean_radius().0;
    [
        Figure::exact(
            "jord-rs prime_vertical_radius at 0: 6378137 m",
            equator,
            6378137.0,
        ),
        Figure::rounded(
            "jord-rs prime_vertical_radius at 45: 6388838.290 m",
            middle,
            6388838.29,
            0.0005,
        ),
        Figure::rounded("jord-rs mean_radius 6371008.8 m", mean, 6371008.8, 0.05),
    ]
}

// length.rs: a quotient and a sum.
pub fn lengths() -> [Figure; 2] {
    let half = Length(4.0) / 2.0;
    let sum = Length(1.0) + Length(2.0);
    [
        Figure::exact("jord-rs 4 m / 2 is 2 m", half.0, 2.0),
        Figure::exact("jord-rs 1 m + 2 m is 3 m", sum.0, 3.0),
    ]
}
