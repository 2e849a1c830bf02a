// Table 3.3 of NIMA TR8350.2, derived constants of the WGS84 ellipsoid. At a pole both radii of curvature are the polar one.
use crate::report::Figure;
use frames::Ellipsoid;
use numbers::Angle;

pub fn radii() -> [Figure; 3] {
    let earth = Ellipsoid::wgs84();
    let pole = Angle::from_degrees(90.0);
    let m = earth.meridian_radius(pole).0;
    let n = earth.prime_vertical_radius(pole).0;
    let mean = earth.mean_radius().0;
    let half = 0.00005;
    [
        Figure::rounded(
            "TR8350.2 meridian_radius at 90: 6399593.6258 m",
            m,
            6399593.6258,
            half,
        ),
        Figure::rounded(
            "TR8350.2 prime_vertical_radius at 90: 6399593.6258 m",
            n,
            6399593.6258,
            half,
        ),
        Figure::rounded(
            "TR8350.2 mean_radius 6371008.7714 m",
            mean,
            6371008.7714,
            half,
        ),
    ]
}
