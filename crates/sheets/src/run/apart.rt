// Request Three: whether every two names among the g values shown stand apart. `shown` says so of each place, where the position lies among the floats.
ghost use Rattle.std.specs.Prelude.{◌≡◌, ◌≤◌};
ghost use Rattle.sheets.specs.code.run.Apart.{clear_at, clear_below, apart_below};

use crate::run::floats::position_at;
use frames::positions::PositionVector;
use numbers::Vec3;

// Whether the name at a place, if it was shown, is at least so far from v. Where the square of its distance is greater the root is not taken: it would say the same (`square-decides` of numbers).
fn is_clear(least: f64, v: Vec3, place: usize, floats: &[f64; 2940], shown: &[bool; 96]) -> bool
    requires { place ≤ 95 }
    ensures { result ≡ clear_at least v floats.now shown.now place }
{
    if shown[place] {
        let w = position_at(floats, 21 * place).as_metres();
        let between = v - w;
        if least * least < between.squared_norm() {
            return true;
        }
        return least <= between.norm();
    }
    true
}

// The same of every place below this one.
fn is_clear_below(
    least: f64,
    v: Vec3,
    place: usize,
    floats: &[f64; 2940],
    shown: &[bool; 96],
) -> bool
    requires { place ≤ 96 }
    ensures { result ≡ clear_below least v floats.now shown.now place }
{
    (0..place)
        .rev()
        .all(|q| is_clear(least, v, q, floats, shown))
}

// Whether every two names shown are at least so far apart: each with those at the places below its own.
pub fn stand_apart(least: f64, floats: &[f64; 2940], shown: &[bool; 96]) -> bool
    ensures { result ≡ apart_below least floats.now shown.now 96 }
{
    for p in (0..96).rev() {
        if shown[p] {
            let v = position_at(floats, 21 * p).as_metres();
            if !is_clear_below(least, v, p, floats, shown) {
                return false;
            }
        }
    }
    true
}
