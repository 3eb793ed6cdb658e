// Numbers of one word, and their text.
ghost use Rattle.std.specs.Prelude.{ℕ, ◌≡◌, ◌↔◌, true, Some, map};
ghost use Rattle.std.specs.Float.{binary64};
ghost use Rattle.std.specs.Float.Ieee.{of_bits, to_bits};
ghost use Rattle.pattern.specs.Text.{words_text};

use std::fmt;

// A number that stands in a word of 64 bits: a whole number itself, a float by its pattern.
pub trait Word: Copy {
    // The number of a word, and the word that is written for a number.
    ghost of_word: { ℕ → Self };

    ghost to_word: { Self → ℕ };

    fn word(self) -> u64
        ensures { result ≡ to_word self };

    // Whether a word is this number's.
    fn is_of(self, word: u64) -> bool
        ensures { (result ≡ true) ↔ (self ≡ of_word word) };
}

impl Word for usize {
    ghost of_word = { λ w. w };

    ghost to_word = { λ n. n };

    fn word(self) -> u64 {
        self as u64
    }

    fn is_of(self, word: u64) -> bool {
        self as u64 == word
    }
}

impl Word for f64 {
    ghost of_word = { of_bits binary64 };

    ghost to_word = { to_bits binary64 };

    fn word(self) -> u64 {
        crate::bits(self)
    }

    fn is_of(self, word: u64) -> bool {
        crate::is_of(word, self)
    }
}

// Writes each number's word after a space, as 16 hex digits.
#[derive(Clone, Copy)]
pub struct Words<'a, T>(pub &'a [T]);

impl<T: Word> fmt::Display for Words<'_, T> {
    ghost output = { λ words. Some (words_text (map T.to_word words.0.now)) };

    fn fmt<W: fmt::Write>(&self, f: &mut fmt::Formatter<W>) -> fmt::Result {
        for x in self.0 {
            let word = x.word();
            write!(f, " {word:016x}")?;
        }
        Ok(())
    }
}
