// The two powers that the Rust takes by powf, document 01's steps.
ghost use Rattle.std.specs.Prelude.{◌≡◌};
ghost use Rattle.numbers.specs.Powers.{cube_step, powf_third, powf_three_halves};

use crate::root::sqrt;

fn cube_step(a: f64, y: f64) -> f64
    ensures { result ≡ cube_step a y }
{
    y - (y * y * y - a) / (3.0 * y * y)
}

// powf(1.0 / 3.0)
pub fn powf_third(a: f64) -> f64
    ensures { result ≡ powf_third a }
{
    let y = cube_step(a, 1.0);
    let y = cube_step(a, y);
    let y = cube_step(a, y);
    let y = cube_step(a, y);
    let y = cube_step(a, y);
    cube_step(a, y)
}

// powf(3.0 / 2.0)
pub fn powf_three_halves(v: f64) -> f64
    ensures { result ≡ powf_three_halves v }
{
    v * sqrt(v)
}
