// The labels of a name: its chain is that of its hash, on which each different name has one label.
#![tactic(auto, unfolding(notation::specs::Limits::max_labels, notation::specs::Limits::max_set_bytes, notation::specs::Layout::set_size, notation::specs::Layout::text_at, stored::specs::Automaton::automaton_size))]

ghost use Rattle.std.specs.Prelude.{◌≡◌, ◌≤◌, ◌<◌};
ghost use Rattle.text.specs.Names.{same_name};
ghost use Rattle.notation.specs.Limits.{max_labels};
ghost use Rattle.notation.specs.Reads.{label_count, label_name};
ghost use Rattle.stored.specs.Automaton.{hash};
ghost use Rattle.stored.specs.Tables.{look_up, first_of};
ghost use Rattle.stored.specs.Usable.{Lookable, Searchable};
ghost use Rattle.machine.specs.Places.{place_of};

use crate::automaton::{Automaton, Label};
use crate::hash::hash_of;
use crate::layout::{FIRST_IN, OTHER_IN};
use notation::layout::{LABEL_LENGTH_IN, LABEL_SIZE, LABELS_AT, TEXT_AT};
use notation::limits::MAX_SET_BYTES;

impl<'a> Automaton<'a> {
    // Whether the label has the name; its bytes are none where they do not lie within the text's room.
    fn label_is(&self, l: usize, e: &[u8]) -> bool
        requires few { l < max_labels }
        requires there { l < label_count self.now }
        ensures { result ≡ same_name (label_name self.now l) e.now }
    {
        let bytes = self.bytes;
        let entry = LABELS_AT + LABEL_SIZE * l;
        let from = TEXT_AT + self.word(entry);
        let to = from + self.word(entry + LABEL_LENGTH_IN);
        if TEXT_AT + MAX_SET_BYTES < to {
            return e.is_empty();
        }
        let name = &bytes[from..to];
        // By bytes: `==` calls out for a name of four bytes or more, and filing a report took 2 % more instructions.
        name.len() == e.len() && name.iter().zip(e).all(|(x, y)| x == y)
    }

    // The last label with the name. `h` is the hash of `e`.
    #[tactic(auto, using(stored::proofs::Laws::Tables::LookTurns::looks), unfolding(notation::specs::Limits::max_labels, stored::specs::Tables::look_up))]
    pub fn look_up(&self, e: &[u8], h: usize) -> Option<Label>
        requires lookable { Lookable self.now }
        requires hash { h ≡ hash e.now }
        ensures found { place_of result ≡ look_up self.now e.now }
        ensures within { place_of result ≤ label_count self.now }
    {
        let mut next = self.head(h);
        // A loop as in `goto_state`, where `successors`, which reads the next link before it gives a label, took 2 to 81 % more instructions.
        while let Some(label) = next {
            let l = label.number();
            if self.label_is(l, e) {
                return next;
            }
            next = self.linked(l, OTHER_IN);
        }
        None
    }

    // The first one.
    #[tactic(auto, using(stored::proofs::Laws::Tables::LookTurns::firsts), unfolding(notation::specs::Limits::max_labels))]
    pub fn first_label(&self, e: &[u8]) -> Option<Label>
        requires { Searchable self.now }
        ensures found { place_of result ≡ first_of self.now e.now }
        ensures within { place_of result ≤ label_count self.now }
    {
        let last = self.look_up(e, hash_of(e))?;
        self.linked(last.number(), FIRST_IN)
    }
}
