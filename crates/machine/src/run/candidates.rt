// The steps that take a name by their label: those that the labels of that name mark.
#![tactic(auto, unfolding(notation::specs::Limits::max_labels, notation::specs::Limits::max_paths, notation::specs::Limits::max_steps, stored::specs::Automaton::mask_size, stored::specs::Automaton::links_at, stored::specs::Automaton::link_size))]

ghost use Rattle.std.specs.Prelude.{◌≡◌, ◌||◌, ℕ, ◌≤◌, ◌<◌};
ghost use Rattle.notation.specs.Limits.{max_labels};
ghost use Rattle.notation.specs.Reads.{label_count};
ghost use Rattle.stored.specs.Bits.{bit_at};
ghost use Rattle.stored.specs.Marked.{has_bit, marked_from};
ghost use Rattle.stored.specs.Usable.{Openable};
ghost use Rattle.machine.specs.Places.{place_of};

use crate::automaton::{Automaton, Label};
use crate::layout::{BITS_IN, FAR_IN, MASK_SIZE};

impl<'a> Automaton<'a> {
    // The bits of a label, joined to those that are there.
    fn flag_label(&self, l: usize, out: &mut [u8; MASK_SIZE])
        requires { l < max_labels }
        ensures { (i : ℕ) → bit_at out.new i ≡ (bit_at out.old i || has_bit self.now l i) }
    {
        let [bits, byte] = (self.link(l, BITS_IN) as u16).to_le_bytes();
        out[usize::from(byte)] |= bits;
    }

    // The bits of the labels of a name, joined in the same way. `first` is the first one.
    pub fn flag_labels(&self, first: Option<Label>, out: &mut [u8; MASK_SIZE])
        requires openable { Openable self.now }
        requires within { place_of first ≤ label_count self.now }
        ensures { (i : ℕ) → bit_at out.new i ≡ (bit_at out.old i || marked_from max_labels self.now (place_of first) i) }
    {
        let mut next = first;
        // A loop as in `goto_state`, where `successors`, which reads the next link before it gives a label, took 2 to 81 % more instructions.
        while let Some(label) = next {
            let l = label.number();
            self.flag_label(l, out);
            next = self.linked(l, FAR_IN);
        }
    }
}
