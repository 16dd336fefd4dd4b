// Labels by name: the chains of the hashes, and the labels of each name.
#![tactic(auto, unfolding(notation::specs::Limits::max_labels, stored::specs::Automaton::automaton_size, stored::specs::Automaton::hashes, stored::specs::Automaton::heads_at))]

ghost use Rattle.std.specs.Prelude.{◌≡◌, ◌<◌, min};
ghost use Rattle.notation.specs.Limits.{max_labels};
ghost use Rattle.notation.specs.Reads.{label_count};
ghost use Rattle.stored.specs.Automaton.{hashes};
ghost use Rattle.stored.specs.Usable.{Lookable};
ghost use Rattle.stored.specs.Code.Chains.{entered, preceded, linked, chained, Linkable};

use crate::automaton::Automaton;
use crate::build::bytes::{Bytes, label_count, put_link};
use crate::hash::hash_of;
use crate::layout::{FIRST_IN, HEADS_AT, NEXT_IN, OTHER_IN};
use crate::words::word;
use notation::layout::WORD_SIZE;
use notation::reads;
use text::store::put16;

// Label l is the last of a new name: it becomes the first of the chain of hash h.
fn enter_name(part: &mut Bytes, h: usize, l: usize)
    requires { (l < max_labels) × (h < hashes) }
    ensures { part.new ≡ entered h l part.old }
{
    let head = HEADS_AT + WORD_SIZE * h;
    let other = word(part, head);
    put_link(part, l, OTHER_IN, other);
    put_link(part, l, FIRST_IN, l + 1);
    put16(part, head, l + 1);
}

// Label l becomes the first of the name whose last label is r.
fn precede(part: &mut Bytes, r: usize, l: usize)
    requires { (l < max_labels) × (r < max_labels) }
    ensures { part.new ≡ preceded r l part.old }
{
    let first = Automaton { bytes: part }.link(r, FIRST_IN);
    put_link(part, l, NEXT_IN, first);
    put_link(part, r, FIRST_IN, l + 1);
}

fn link_label(part: &mut Bytes, l: usize)
    requires { (l < max_labels) × Lookable part.old }
    ensures { part.new ≡ linked l part.old }
{
    let automaton = Automaton { bytes: part };
    let e = reads::label_name(automaton.bytes, l);
    let h = hash_of(e);
    match automaton.look_up(e, h) {
        None => enter_name(part, h, l),
        Some(last) => precede(part, last.number(), l),
    }
}

// Every label, from the last to the first.
pub fn chain(part: &mut Bytes)
    requires { Linkable (min (label_count part.old) max_labels) part.old }
    ensures { part.new ≡ chained (min (label_count part.old) max_labels) part.old }
{
    for l in (0..label_count(part)).rev() {
        link_label(part, l);
    }
}
