// A bracket that is to be applied: what each row over floats is given beside the floats themselves.
ghost use Rattle.std.specs.Prelude.{◌+◌, ◌≤◌};

use frames::Ellipsoid;

// The sheet's ellipsoid, the code of the bracket's word, and where its first argument lies among the floats.
#[derive(Clone, Copy)]
pub struct Bracket {
    pub e: Ellipsoid,
    pub code: u64,
    pub top: usize,
    // Five arguments have room, each as long as a frame.
    ghost room: { top + 105 ≤ 2940 },
}
