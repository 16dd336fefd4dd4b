// Each label's parent and the length of its word, step by step in set order.
#![tactic(auto, unfolding(notation::specs::Limits::max_labels, stored::specs::Automaton::automaton_size))]

ghost use Rattle.std.specs.Prelude.{◌≡◌, suc, ◌+◌, ◌≤◌, ◌<◌};
ghost use Rattle.notation.specs.Limits.{max_labels};
ghost use Rattle.notation.specs.Reads.{path_at, step_count, label_count, label_name};
ghost use Rattle.stored.specs.Tables.{goto};
ghost use Rattle.stored.specs.Usable.{Searchable};
ghost use Rattle.stored.specs.Code.Parents.{starts_at, entered, emptied, word_stored, labelled, passed, parented, before_paths, Sound};

use crate::automaton::Automaton;
use crate::build::bytes::{Bytes, put_link};
use crate::layout::{PARENT_IN, SIZE_IN};
use notation::limits::MAX_LABELS;
use notation::{PathPlace, reads};
use stored::place::Place;

// Whether path `p` begins with step `i`.
fn starts_path(part: &[u8], p: usize, i: usize) -> bool
    ensures { result ≡ starts_at (path_at part.now (record { 0 = p })) i }
{
    reads::path_at(part, PathPlace(p)).is_some_and(|path| path.first == i)
}

// Before a step's test: a path's first step starts from `#` or, by `//`, from nothing; `//` starts from nothing.
// Of the masks' axes `Star` and `Last` would be cases without a meaning here.
fn enter(at: Place, first: bool, deep: bool) -> Place
    requires { at.paths < 65536 }
    ensures { result ≡ entered first deep at }
{
    match (first, deep) {
        (true, _) => Place {
            paths: at.paths + 1,
            state: if deep { 0 } else { 1 },
            ..at
        },
        (false, true) => emptied(at),
        (false, false) => at,
    }
}

// After `*` the word is empty.
fn emptied(at: Place) -> Place
    ensures { result ≡ emptied at }
{
    Place { state: 0, ..at }
}

fn store_word(part: &mut Bytes, l: usize, q: usize)
    requires { (l < max_labels) × (q ≤ suc max_labels) }
    ensures { part.new ≡ word_stored l q part.old }
{
    let automaton = Automaton { bytes: part };
    let size = automaton.size_of(q) + 1;
    put_link(part, l, PARENT_IN, q);
    put_link(part, l, SIZE_IN, size);
}

// The state after label `l` where `q` is the one before it.
fn follow(part: &Bytes, q: usize, l: usize) -> usize
    requires { Searchable part.now }
    ensures { (result ≡ goto part.now q (label_name part.now l)) × (result ≤ suc (label_count part.now)) }
{
    let automaton = Automaton { bytes: part };
    let first = automaton.first_label(reads::label_name(part, l));
    automaton.goto_state(q, first).unwrap_or(0)
}

// A label's step: its parent and length are stored, and its word's state is the next one.
fn put_word(part: &mut Bytes, at: Place) -> Place
    requires { Searchable part.old × (at.state ≤ suc (label_count part.old)) }
    ensures bytes { part.new ≡ (labelled at part.old).bytes }
    ensures place { result ≡ (labelled at part.old).place }
    ensures sound { Sound at.paths result part.new }
{
    let l = at.labels;
    if MAX_LABELS <= l {
        return at;
    }
    store_word(part, l, at.state);
    Place {
        labels: l + 1,
        state: follow(part, at.state, l),
        ..at
    }
}

// One step.
fn pass_step(part: &mut Bytes, i: usize, at: Place) -> Place
    requires { Sound i at part.old × (i < 65536) }
    ensures bytes { part.new ≡ (passed i at part.old).bytes }
    ensures place { result ≡ (passed i at part.old).place }
    ensures sound { Sound (i + 1) result part.new }
{
    let first = starts_path(part, at.paths, i);
    let Some(step) = reads::step_at(part, i) else {
        return at;
    };
    let on = enter(at, first, step.descendant);
    if step.star {
        emptied(on)
    } else {
        put_word(part, on)
    }
}

// Every step, from the first to the last.
pub fn parents(part: &mut Bytes)
    requires { Searchable part.old }
    ensures { part.new ≡ parented (step_count part.old) 0 before_paths part.old }
{
    let mut at = Place::default();
    for i in 0..reads::steps(part) {
        at = pass_step(part, i, at);
    }
}
