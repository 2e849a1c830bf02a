// What the run keeps of the values shown.
ghost use Rattle.std.specs.Prelude.{◌≡◌, ◌≤◌};
ghost use Rattle.sheets.specs.Letters.{𝐥, 𝐠, held};
ghost use Rattle.sheets.specs.Entries.{plus};
ghost use Rattle.sheets.specs.code.run.Keeping.{keep, nothing_kept};

use crate::Value;
use numbers::Length;

// Whether the name at each place was shown with a g value, and the sum of the lengths shown.
#[derive(Clone, Copy)]
pub struct Shown {
    pub places: [bool; 96],
    pub sum: Length,
}

impl Shown {
    // Before anything is shown.
    pub fn new() -> Shown
        ensures { result ≡ nothing_kept }
    {
        Shown {
            places: [false; 96],
            sum: Length::from_metres(0.0),
        }
    }

    // A value of the name at a place is shown: the place is kept where it is a g, and a length is added.
    pub fn keep(&mut self, place: usize, v: Value)
        requires { place ≤ 95 }
        ensures places { self.new.places ≡ keep self.old.places place (held 𝐠 v) }
        ensures sum { self.new.sum ≡ plus self.old.sum (held 𝐥 v) }
    {
        match v {
            Value::Geocentric(_) => self.places[place] = true,
            Value::Metres(x) => self.sum = self.sum + x,
            _ => {}
        }
    }
}
