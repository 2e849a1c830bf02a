// What the examples give.
use frames::{GeodeticPosition, NVector};
use numbers::{Angle, Length};

// By degrees and metres.
pub fn geodetic(latitude: f64, longitude: f64, height: f64) -> GeodeticPosition {
    let lat = Angle::from_degrees(latitude);
    let lon = Angle::from_degrees(longitude);
    GeodeticPosition::new(NVector::from_lat_long(lat, lon), Length(height))
}
