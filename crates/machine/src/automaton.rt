// The bytes of an automaton, at least as many as it has: its numbers are read without a range test, and what is asked of more than bytes
// stands with the function that asks it.
#![tactic(auto, unfolding(notation::specs::Limits::max_paths, notation::specs::Limits::max_steps, notation::specs::Limits::max_labels, notation::specs::Layout::steps_at, stored::specs::Automaton::automaton_size, stored::specs::Automaton::hashes, stored::specs::Automaton::heads_at, stored::specs::Automaton::links_at, stored::specs::Automaton::link_size))]

ghost use Rattle.std.specs.Prelude.{◌≡◌, suc, ◌+◌, ◌*◌, ◌≤◌, ◌<◌, length, take, drop};
ghost use Rattle.notation.specs.Layout.{word_size, steps_at};
ghost use Rattle.notation.specs.Limits.{max_paths, max_steps, max_labels};
ghost use Rattle.notation.specs.Reads.{word16};
ghost use Rattle.stored.specs.Automaton.{automaton_size, hashes, bits_in, link_entry_at};
ghost use Rattle.stored.specs.Tables.{head_at};

use crate::layout::{HEADS_AT, LINK_SIZE, LINKS_AT};
use crate::words::word;
use notation::layout::{STEPS_AT, WORD_SIZE};
use std::marker::Model;

#[derive(Drop)]
pub struct Automaton<'a> {
    pub bytes: &'a [u8],
}

impl<'a> Model for Automaton<'a> {
    ghost use Rattle.std.specs.Prelude.{List, ℕ, ◌≤◌, length};
    ghost use Rattle.stored.specs.Automaton.{automaton_size};

    ghost Value = { List ℕ };

    ghost view = { λ a. a.bytes.now };

    ghost invariant = { λ a. automaton_size ≤ length a.bytes.now };
}

// A label by its place, as a chain has it: 1 more than its number, since 0 is none. That its number is below the
// limit is no fact of its own: a link of any bytes may lead further, and where it does not is known by `Lookable` and the like.
#[derive(Clone, Copy)]
pub struct Label {
    pub place: usize,
    ghost some: { 0 < place },
}

impl Label {
    ghost use Rattle.machine.specs.Places.{place_of};

    fn at(place: usize) -> Option<Label>
        ensures { place_of result ≡ place }
    {
        if place == 0 {
            None
        } else {
            Some(Label { place })
        }
    }

    pub fn number(self) -> usize
        ensures { suc result ≡ self.place }
    {
        self.place - 1
    }
}

impl<'a> Automaton<'a> {
    ghost use Rattle.machine.specs.Places.{place_of};

    // A number of two bytes.
    pub fn word(&self, at: usize) -> usize
        requires { at + word_size ≤ automaton_size }
        ensures value { result ≡ word16 self.now at }
        ensures bound { result < 65536 }
    {
        word(self.bytes, at)
    }

    // The kinds of so many steps.
    pub fn kinds(&self, steps: usize) -> &'a [u8]
        requires { steps ≤ max_paths * max_steps }
        ensures value { result.now ≡ take steps (drop steps_at self.now) }
        ensures size { length result.now ≡ steps }
    {
        &self.bytes[STEPS_AT..STEPS_AT + steps]
    }

    // A field of the links of a label.
    pub fn link(&self, l: usize, field: usize) -> usize
        requires label { l < max_labels }
        requires field { field ≤ bits_in }
        ensures value { result ≡ word16 self.now (link_entry_at l + field) }
        ensures bound { result < 65536 }
    {
        self.word(LINKS_AT + LINK_SIZE * l + field)
    }

    // The label of a field that has a place.
    pub fn linked(&self, l: usize, field: usize) -> Option<Label>
        requires label { l < max_labels }
        requires field { field ≤ bits_in }
        ensures place { place_of result ≡ word16 self.now (link_entry_at l + field) }
        ensures bound { place_of result < 65536 }
    {
        Label::at(self.link(l, field))
    }

    // The first label on the chain of a hash.
    pub fn head(&self, h: usize) -> Option<Label>
        requires { h < hashes }
        ensures { place_of result ≡ head_at self.now h }
    {
        Label::at(self.word(HEADS_AT + WORD_SIZE * h))
    }
}
