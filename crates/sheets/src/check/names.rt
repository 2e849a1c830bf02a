// The words given on the lines passed, each at a place counted from 1, and the search for a word among them, the newest first.
ghost use Rattle.std.specs.Prelude.{◌≡◌, ◌≤◌};
ghost use Rattle.sheets.specs.code.check.Newest.{no_names, with_name, newest_of, place_found};
ghost use Rattle.sheets.specs.code.check.Walking.{reading_kind, kind_found};

use crate::reader::words;

// `words` has the words' codes and `kinds` their kinds' codes, each at the word's place; at the first place, 0, stands no word.
// `newest` says where the search for a word begins, so that it does not go over every word before it: for each remainder of the words' codes by 512 the newest place of a word that has it, 0 for none.
// Kinds go by their codes, here and wherever they are worked out: `kinds` is what the check lays into the kind list that C lends, which has 254 and 255 besides.
// Three arrays and no map: there is no heap, and `newest` is what a map would be here.
// It is 1,376 bytes: it is lent, and nothing takes it by value.
#[derive(Drop)]
pub struct Names {
    words: [u64; 96],
    pub kinds: [u8; 96],
    newest: [u8; 512],
}

impl Names {
    // No word yet; line 1 of a sheet, which has the place 0, has no kind.
    // Not inlined: what it makes would lie on its caller's stack twice, for as long as the caller runs.
    #[inline(never)]
    pub fn new() -> Names
        ensures { result ≡ no_names }
    {
        Names {
            words: [0; 96],
            kinds: [255; 96],
            newest: [0; 512],
        }
    }

    // The newest place of a word that may be the one with this code; 0 and no Option, since a search that begins at 0 looks at no place.
    fn newest_of(&self, code: u64) -> usize
        ensures { result ≡ newest_of self.now code }
    {
        self.newest[(code % 512) as usize] as usize
    }

    // The place of the newest word with this code.
    pub fn place(&self, code: u64) -> Option<usize>
        ensures { result ≡ place_found self.now code }
    {
        let newest = self.newest_of(code);
        if 95 < newest {
            return None;
        }
        for i in (1..=newest).rev() {
            if self.words[i] == code {
                return Some(i);
            }
        }
        None
    }

    // The code of the kind of the word with this code, where it is known.
    pub fn kind(&self, code: u64) -> Option<u8>
        ensures { result ≡ kind_found self.now code }
    {
        let Some(i) = self.place(code) else {
            return reading_kind(code);
        };
        Some(self.kinds[i])
    }

    // The word with this code is given at a place, with this kind.
    pub fn give(&mut self, code: u64, kind: u8, place: usize)
        requires { place ≤ 95 }
        ensures { self.new ≡ with_name self.old code kind place }
    {
        self.words[place] = code;
        self.kinds[place] = kind;
        self.newest[(code % 512) as usize] = place as u8;
    }
}

// A reading is n. The codes of r0 to r9 follow each other, and so do those of r10 to r15.
fn reading_kind(code: u64) -> Option<u8>
    ensures { result ≡ reading_kind code }
{
    if code < words::R0 {
        return None;
    }
    if code <= words::R9 {
        return Some(0);
    }
    if code < words::R10 {
        return None;
    }
    if code <= words::R15 {
        return Some(0);
    }
    None
}
