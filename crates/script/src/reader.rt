ghost use Rattle.std.specs.Prelude.{◌≡◌, [], ◌∷◌, MatchOption, drop, vec_items};
ghost use Rattle.script.specs.Commands.{word_from, hex_from, number_from, end_from};
ghost use Rattle.script.specs.Complaints.{Tells};
ghost use Rattle.script.specs.Words.{words_of};

use crate::complaints::Complaint;
use crate::hex::read_hex;
use crate::numbers::read_number;
use crate::words::split_word;
use std::alloc::Global;
use std::marker::Model;

// The words of a line that are left to take, from the left.
#[derive(Drop)]
pub(crate) struct Words<'a> {
    // What is left of the line; none after its last word.
    rest: Option<&'a [u8]>,
}

impl<'a> Model for Words<'a> {
    ghost use Rattle.std.specs.Prelude.{ℕ, List};
    ghost use Rattle.script.specs.Rests.{rest_words};

    ghost Value = { List (List ℕ) };

    ghost view = { λ w. rest_words w.rest };
}

impl<'a> Words<'a> {
    pub(crate) fn new(line: &'a [u8]) -> Words<'a>
        ensures { result ≡ words_of line.now }
    {
        Words { rest: Some(line) }
    }

    // The next word, if one is left. Here and below `left` ties what is left to what was, which the result alone cannot say.
    pub(crate) fn next_word(&mut self) -> Option<&'a [u8]>
        ensures first { MatchOption result (self.old ≡ []) (λ word. self.old ≡ word.now ∷ self.new) }
        ensures left { self.new ≡ drop 1 self.old }
    {
        let split = split_word(self.rest?);
        self.rest = split.rest;
        Some(split.word)
    }

    // The next word.
    pub(crate) fn word(&mut self) -> Result<&'a [u8], Complaint>
        ensures value { Tells (λ word. (word.now, self.new)) result (word_from self.old) }
        ensures left { self.new ≡ drop 1 self.old }
    {
        self.next_word().ok_or(Complaint::MissingWord)
    }

    // The bytes of the next word.
    pub(crate) fn hex(&mut self, heap: Global) -> Result<Vec<u8>, Complaint>
        ensures value { Tells (λ bytes. (vec_items bytes, self.new)) result (hex_from self.old) }
        ensures left { self.new ≡ drop 1 self.old }
    {
        read_hex(heap, self.word()?)
    }

    // The number of the next word.
    pub(crate) fn number(&mut self) -> Result<u64, Complaint>
        ensures value { Tells (λ number. (number, self.new)) result (number_from self.old) }
        ensures left { self.new ≡ drop 1 self.old }
    {
        read_number(self.word()?).ok_or(Complaint::BadNumber)
    }

    // That no word is left.
    pub(crate) fn end(&self) -> Result<(), Complaint>
        ensures { result ≡ end_from self.now }
    {
        match self.rest {
            Some(_) => Err(Complaint::ExtraWord),
            None => Ok(()),
        }
    }
}
