// Functions of `numbers` that the bench calls, numbers in and numbers out; test_operations_c hands them to C.
ghost use Rattle.std.specs.Prelude.{◌≡◌};
ghost use Rattle.numbers.specs.Floats as Floats;
ghost use Rattle.numbers.specs.Angles.{angle, normalised_to};
ghost use Rattle.numbers.specs.Root as Root;
ghost use Rattle.numbers.specs.Sine as Sine;
ghost use Rattle.numbers.specs.Arctangent as Arctangent;

pub fn numbers_sqrt(x: f64) -> f64
    ensures { result ≡ Root.sqrt x }
{
    numbers::root::sqrt(x)
}

pub fn numbers_sin(x: f64) -> f64
    ensures { result ≡ Sine.sin x }
{
    numbers::sine::sin(x)
}

pub fn numbers_cos(x: f64) -> f64
    ensures { result ≡ Sine.cos x }
{
    numbers::sine::cos(x)
}

pub fn numbers_atan2(y: f64, x: f64) -> f64
    ensures { result ≡ Arctangent.atan2 y x }
{
    numbers::arctangent::atan2(y, x)
}

pub fn numbers_asin(x: f64) -> f64
    ensures { result ≡ Arctangent.asin x }
{
    numbers::arctangent::asin(x)
}

pub fn numbers_rem(x: f64, y: f64) -> f64
    ensures { result ≡ Floats.remainder x y }
{
    numbers::float::rem(x, y)
}

// In radians.
pub fn numbers_normalised_to(x: f64, max: f64) -> f64
    ensures { angle result ≡ normalised_to (angle x) (angle max) }
{
    numbers::Angle(x).normalised_to(numbers::Angle(max)).0
}
