// The text of a report: bytes that grow at their end. What goes beyond 4,096 is left out; no report does.
ghost use Rattle.std.specs.Prelude.{◌≡◌, [], ◌++◌};
ghost use Rattle.file.specs.Report.{decimal};
ghost use Rattle.run.specs.Writing.{with_word};

use crate::words::Word;
use std::marker::Model;

const BYTES_MOST: usize = 4096;

// An array, for there is no heap and `report` cannot fail; not `ArrayVec`: `a_text_is_filled_with_zeros`.
#[derive(Drop)]
pub struct Text {
    bytes: [u8; BYTES_MOST],
    length: usize,
}

// A clause sees the text's bytes alone. What stands past them is zero, so they say what the fields are.
impl Model for Text {
    ghost use Rattle.std.specs.Prelude.{◌≡◌, ℕ, ◌≤◌, List, take};
    ghost use Rattle.std.proofs.Common.{sym};

    ghost Value = { List ℕ };

    ghost use Rattle.run.specs.Text.{text_of};

    ghost view = { λ t. take t.length t.bytes };

    ghost invariant = { λ t. (t.length ≤ 4096) × (t ≡ text_of (take t.length t.bytes)) };

    ghost inverse = { text_of };

    ghost inverse_ok = { λ t h. sym h.1 };
}

impl Text {
    pub fn as_bytes(&self) -> &[u8]
        ensures { result.now ≡ self.now }
    {
        &self.bytes[..self.length]
    }

    pub(crate) fn new() -> Self
        ensures { result ≡ [] }
    {
        Text {
            bytes: [0; BYTES_MOST],
            length: 0,
        }
    }

    pub(crate) fn push(&mut self, word: &[u8])
        ensures { self.new ≡ with_word self.old word.now }
    {
        let start = self.length;
        let count = word.len().min(BYTES_MOST - start);
        self.bytes[start..start + count].copy_from_slice(&word[..count]);
        self.length = start + count;
    }

    // A word, and a number after it.
    #[tactic(auto, using(crate::proofs::Texts::word_word))]
    pub(crate) fn push_figure(&mut self, word: &[u8], number: usize)
        ensures { self.new ≡ with_word self.old (word.now ++ decimal number) }
    {
        self.push(word);
        self.push_number(number);
    }

    // A word, and after it the word of what prints as one.
    #[tactic(auto, using(crate::proofs::Texts::word_word))]
    pub(crate) fn push_word<W: Word>(&mut self, name: &[u8], value: W)
        ensures { self.new ≡ with_word self.old (name.now ++ W.word_of value) }
    {
        self.push(name);
        self.push(value.word());
    }

    // The number's decimal digits, and no fewer than one.
    #[tactic(auto, using(crate::proofs::Texts::digits_are))]
    fn push_number(&mut self, number: usize)
        ensures { self.new ≡ with_word self.old (decimal number) }
    {
        // What `io::decimal` fills: 20 digits, the most that a number has.
        let mut digits = [0; 20];
        let count = io::decimal(number as u64, &mut digits);
        self.push(&digits[..count]);
    }
}
