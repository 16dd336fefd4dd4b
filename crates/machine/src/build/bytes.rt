// The bytes that a build writes. Their number stands in the type, so that no clause of a pass asks for room.
#![tactic(auto, unfolding(notation::specs::Limits::max_labels, stored::specs::Automaton::links_at, stored::specs::Automaton::link_size))]

ghost use Rattle.std.specs.Prelude.{◌≡◌, ◌+◌, ◌≤◌, ◌<◌, min};
ghost use Rattle.std.proofs.lemmas.List.Edits.{sets};
ghost use Rattle.text.specs.Bytes.{le16};
ghost use Rattle.notation.specs.Limits.{max_labels};
ghost use Rattle.notation.specs.Reads.{label_count};
ghost use Rattle.stored.specs.Automaton.{bits_in, link_entry_at};

use crate::layout::{AUTOMATON_SIZE, LINK_SIZE, LINKS_AT};
use notation::limits::MAX_LABELS;
use notation::reads;
use text::store::put16;

pub type Bytes = [u8; AUTOMATON_SIZE];

// The stored count, or the limit if that is smaller.
pub fn label_count(part: &Bytes) -> usize
    ensures { result ≡ min (label_count part.now) max_labels }
{
    reads::labels(part).min(MAX_LABELS)
}

// A field of the links of label `l`.
pub fn put_link(part: &mut Bytes, l: usize, field: usize, v: usize)
    requires label { l < max_labels }
    requires field { field ≤ bits_in }
    ensures { part.new ≡ sets part.old (link_entry_at l + field) (le16 v) }
{
    put16(part, LINKS_AT + LINK_SIZE * l + field, v);
}
