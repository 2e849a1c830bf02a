// A slot of the table of names.
ghost use Rattle.std.specs.Prelude.{◌≡◌};
ghost use Rattle.sheets.specs.code.run.Slots.{empty_slot};

use crate::Value;

// A place in the table of names: a word's code, 0 where the place is empty, and the word's value. No Option of a slot: document 01 has "96 slots filled alike at the start", structs of word and value.
#[derive(Clone, Copy)]
pub struct Slot {
    pub word: u64,
    pub value: Value,
}

// A place where no word stands.
pub fn empty_slot() -> Slot
    ensures { result ≡ empty_slot }
{
    Slot {
        word: 0,
        value: Value::Number(0.0),
    }
}
