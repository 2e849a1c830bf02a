// What an operation answers: a value's own words first, zeros after them.
#![tactic(auto, unfolding(crate::specs::Words::padded, crate::specs::Words::with_vector, crate::specs::Words::with_matrix))]

ghost use Rattle.std.specs.Prelude.{ℕ, ◌≡◌, List, [], ◌∷◌};
ghost use Rattle.test_operations.specs.Words as Words;
ghost use Rattle.test_operations.specs.Words.{padded};

use crate::words::{put_matrix, put_vector};
use numbers::float::bits;
use numbers::{Angle, Length, Mat33, Vec3};

// A value that goes as words.
pub trait Answer {
    // Its own words.
    ghost words: { Self → List ℕ };

    fn answer(self) -> [u64; 24]
        ensures { result ≡ padded (words self) };
}

impl Answer for u64 {
    ghost words = { λ x. x ∷ [] };

    fn answer(self) -> [u64; 24] {
        let mut out = [0u64; 24];
        out[0] = self;
        out
    }
}

// 1 for true, 0 for false.
impl Answer for bool {
    ghost words = { Words.truth };

    fn answer(self) -> [u64; 24] {
        u64::from(self).answer()
    }
}

impl Answer for f64 {
    ghost words = { Words.number };

    fn answer(self) -> [u64; 24] {
        bits(self).answer()
    }
}

// By its radians.
impl Answer for Angle {
    ghost words = { λ a. Words.number a.0 };

    fn answer(self) -> [u64; 24] {
        self.0.answer()
    }
}

// By its metres.
impl Answer for Length {
    ghost words = { λ l. Words.number l.0 };

    fn answer(self) -> [u64; 24] {
        self.0.answer()
    }
}

impl Answer for Vec3 {
    ghost words = { Words.vector };

    fn answer(self) -> [u64; 24] {
        let mut out = [0u64; 24];
        put_vector(&mut out, 0, self);
        out
    }
}

// By rows.
impl Answer for Mat33 {
    ghost words = { Words.matrix };

    fn answer(self) -> [u64; 24] {
        let mut out = [0u64; 24];
        put_matrix(&mut out, 0, self);
        out
    }
}
