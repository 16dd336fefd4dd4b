// The walk of an open over the automaton's tables. A state is a number, 0 for the empty word, 1 for `#`, 2 more than its number for a label's: so
// it is stored in links and rows, read and compared as it is, and an enum would be made of it and made the same number again at each step.
#![tactic(auto, unfolding(notation::specs::Limits::max_labels, stored::specs::Automaton::links_at, stored::specs::Automaton::link_size))]

ghost use Rattle.std.specs.Prelude.{◌≡◌, suc, ◌≤◌, ◌<◌, unwrap_or, IfSome};
ghost use Rattle.notation.specs.Limits.{max_labels};
ghost use Rattle.notation.specs.Reads.{label_count};
ghost use Rattle.stored.specs.Tables.{size_of, fail_of, goto_by, walk_by};
ghost use Rattle.stored.specs.Usable.{Searchable, Walkable};
ghost use Rattle.machine.specs.Places.{place_of};

use crate::automaton::{Automaton, Label};
use crate::layout::{FAIL_IN, NEXT_IN, PARENT_IN, SIZE_IN};
use stored::walk::Walk;

impl<'a> Automaton<'a> {
    // The length of the word of state `q`: of a label's, of `#` or of the empty word.
    #[tactic(auto, using(stored::proofs::Laws::Shapes::Tested::sizes), unfolding(notation::specs::Limits::max_labels, stored::specs::Automaton::links_at, stored::specs::Automaton::link_size))]
    pub fn size_of(&self, q: usize) -> usize
        requires { q ≤ suc max_labels }
        ensures value { result ≡ size_of self.now q }
        ensures bound { result < 65536 }
    {
        if q < 2 { q } else { self.link(q - 2, SIZE_IN) }
    }

    // The state of the word of state `q` followed by a name. `first` is the name's first label.
    #[tactic(auto, using(stored::proofs::Laws::Tables::Fuel::gotos), unfolding(notation::specs::Limits::max_labels, stored::specs::Automaton::links_at, stored::specs::Automaton::link_size, stored::specs::Tables::goto_by))]
    pub fn goto_state(&self, q: usize, first: Option<Label>) -> Option<usize>
        requires searchable { Searchable self.now }
        requires within { place_of first ≤ label_count self.now }
        ensures found { unwrap_or result 0 ≡ goto_by self.now q (place_of first) }
        ensures state { IfSome result (λ to. (1 < to) × (to ≤ suc (label_count self.now))) }
    {
        let mut next = first;
        // By `successors`, `take` and `find`, which was proved, reports took 2 to 81 % more instructions: each turn reads the next link first.
        while let Some(label) = next {
            let l = label.number();
            if self.link(l, PARENT_IN) == q {
                return Some(l + 2);
            }
            next = self.linked(l, NEXT_IN);
        }
        None
    }

    // The state of the failure move from state `q`.
    #[tactic(auto, unfolding(notation::specs::Limits::max_labels, stored::specs::Automaton::links_at, stored::specs::Automaton::link_size, stored::specs::Tables::fail_of))]
    pub fn fail_of(&self, q: usize) -> usize
        requires { q ≤ suc max_labels }
        ensures { result ≡ fail_of self.now q }
    {
        if q < 2 { 0 } else { self.link(q - 2, FAIL_IN) }
    }

    // The walk from state `q`, by failure moves until a state goes on. `first` is the first label with the name.
    #[tactic(auto, using(stored::proofs::Laws::Tables::Fuel::walks), unfolding(notation::specs::Limits::max_labels, stored::specs::Automaton::links_at, stored::specs::Automaton::link_size, notation::specs::Limits::max_steps))]
    pub fn walk_from(&self, q: usize, first: Option<Label>) -> Walk
        requires walkable { Walkable self.now }
        requires state { q ≤ suc (label_count self.now) }
        requires within { place_of first ≤ label_count self.now }
        ensures walked { result ≡ walk_by self.now q (place_of first) }
        ensures state { result.state ≤ suc (label_count self.now) }
        ensures moves { result.moves ≤ size_of self.now q }
    {
        if let Some(state) = self.goto_state(q, first) {
            return Walk { moves: 0, state };
        }
        if q == 0 {
            return Walk { moves: 0, state: 0 };
        }
        let rest = self.walk_from(self.fail_of(q), first);
        Walk {
            moves: rest.moves + 1,
            ..rest
        }
    }
}
