// Why a sheet is refused, by the refusals of documents 01 and 02.
ghost use Rattle.std.specs.Prelude.{◌≡◌};
ghost use Rattle.sheets.specs.Refusals.{refusal_number};
ghost use Rattle.sheets.specs.code.Refusals.{refusal_of};

// In checking order, each with its number.
#[derive(Clone, Copy, Debug, PartialEq, Eq)]
pub enum Refusal {
    Size = 1,
    Lent = 2,
    Form = 3,
    Ellipsoid = 4,
    Name = 5,
    Kind = 6,
    Limit = 7,
    Centre = 8,
    Apart = 9,
}

impl Refusal {
    pub fn number(self) -> u8
        ensures { result ≡ refusal_number (refusal_of self) }
    {
        self as u8
    }

    // This refusal of a line.
    pub fn at(self, line: usize) -> Refused
        ensures { result ≡ record { refusal = self; line = line } }
    {
        Refused {
            refusal: self,
            line,
        }
    }
}

// A refusal and its line, counted from 1; 0 where it names none, as in document 01's answers.
#[derive(Clone, Copy, Debug, PartialEq, Eq)]
pub struct Refused {
    pub refusal: Refusal,
    pub line: usize,
}
