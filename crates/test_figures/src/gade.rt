// Examples 1 to 4 of the n-vector page (K. Gade, A Non-singular Horizontal Position Representation, 2010, and its page of examples).
// The figures are those that the page's Python library prints for them.
use crate::given::geodetic;
use crate::report::Figure;
use frames::{
    Ellipsoid, GeocentricPosition, GeodeticPosition, LatLong, LocalFrame, LocalVector, NVector,
    Orientation,
};
use numbers::{Angle, Length, Vec3};

// A and B to delta: north, east and down from A to B, and the azimuth. The page gives depths, 3 and 6 m.
pub fn example_1() -> [Figure; 4] {
    let earth = Ellipsoid::wgs84();
    let a = geodetic(1.0, 2.0, -3.0);
    let b = earth.geodetic_to_geocentric_position(geodetic(4.0, 5.0, -6.0));
    let v = LocalFrame::ned(a, earth).local_vector_to(b);
    let azimuth = v.bearing().as_degrees();
    let half = 0.005;
    [
        Figure::rounded("Gade 1 north 331730.23 m", v.x.0, 331730.23, half),
        Figure::rounded("Gade 1 east 332997.87 m", v.y.0, 332997.87, half),
        Figure::rounded("Gade 1 down 17404.27 m", v.z.0, 17404.27, half),
        Figure::rounded("Gade 1 azimuth 45.11 degrees", azimuth, 45.11, half),
    ]
}

// B and delta to C, on the ellipsoid WGS72: from a body's position, attitude and observation to what it saw.
pub fn example_2() -> [Figure; 3] {
    let earth = Ellipsoid::new(Length(6378135.0), 298.26);
    let hp = NVector::new(Vec3::new_unit(1.0, 2.0, 3.0));
    let b = GeodeticPosition::new(hp, Length(400.0));
    let yaw = Angle::from_degrees(10.0);
    let pitch = Angle::from_degrees(20.0);
    let roll = Angle::from_degrees(30.0);
    let body = LocalFrame::body(yaw, pitch, roll, b, earth);
    let v = LocalVector::from_metres(Orientation::Body, 3000.0, 2000.0, 100.0);
    let c = earth.geocentric_to_geodetic_position(body.destination_position(v));
    let (latitude, longitude) = degrees(c.hp);
    let half = 0.005;
    [
        Figure::rounded("Gade 2 latitude 53.33 degrees", latitude, 53.33, half),
        Figure::rounded("Gade 2 longitude 63.47 degrees", longitude, 63.47, half),
        Figure::rounded("Gade 2 height 406.01 m", c.height.0, 406.01, half),
    ]
}

// Geocentric to geodetic.
pub fn example_3() -> [Figure; 3] {
    let earth = Ellipsoid::wgs84();
    let p = GeocentricPosition::from_vec3_metres(Vec3::new(0.9, -1.0, 1.1) * 6371000.0);
    let d = earth.geocentric_to_geodetic_position(p);
    let (latitude, longitude) = degrees(d.hp);
    let half = 0.005;
    [
        Figure::rounded("Gade 3 latitude 39.38 degrees", latitude, 39.38, half),
        Figure::rounded("Gade 3 longitude -48.01 degrees", longitude, -48.01, half),
        Figure::rounded("Gade 3 height 4702059.83 m", d.height.0, 4702059.83, half),
    ]
}

// Geodetic to geocentric.
pub fn example_4() -> [Figure; 3] {
    let earth = Ellipsoid::wgs84();
    let p = earth.geodetic_to_geocentric_position(geodetic(1.0, 2.0, 3.0));
    let half = 0.0005;
    [
        Figure::rounded("Gade 4 x 6373290.277 m", p.x.0, 6373290.277, half),
        Figure::rounded("Gade 4 y 222560.201 m", p.y.0, 222560.201, half),
        Figure::rounded("Gade 4 z 110568.827 m", p.z.0, 110568.827, half),
    ]
}

// The latitude and the longitude.
fn degrees(position: NVector) -> (f64, f64) {
    let ll = LatLong::from(position);
    (ll.latitude.as_degrees(), ll.longitude.as_degrees())
}
