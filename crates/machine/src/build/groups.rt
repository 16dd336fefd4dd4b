// Labels of one name whose steps stand in one byte of a mask, taken together.
#![tactic(auto, unfolding(notation::specs::Limits::max_labels, stored::specs::Automaton::automaton_size, stored::specs::Automaton::links_at, stored::specs::Automaton::link_size))]

ghost use Rattle.std.specs.Prelude.{◌≡◌, ◌+◌, ◌/◌, ◌≤◌, ◌<◌, min};
ghost use Rattle.notation.specs.Limits.{max_labels};
ghost use Rattle.notation.specs.Reads.{word16, label_count, label_step};
ghost use Rattle.stored.specs.Automaton.{link_entry_at};
ghost use Rattle.stored.specs.Code.Groups.{joins, far_over, bits_over, grouped, grouped_below};
ghost use Rattle.machine.specs.Places.{place_of};

use crate::automaton::{Automaton, Label};
use crate::build::bytes::{Bytes, label_count, put_link};
use crate::layout::{BITS_IN, FAR_IN, LINK_SIZE, LINKS_AT, NEXT_IN};
use notation::layout::{LABEL_SIZE, LABEL_STEP_IN, LABELS_AT};
use notation::reads::word_at;

// What a label takes over: the place of the next label of its name in a later byte, and bits of steps in its own.
// As it is stored, 0 for none: an `Option<Label>` would be made of a stored number and made the same number again.
#[derive(Clone, Copy)]
struct Taken {
    far: usize,
    bits: u8,
}

fn step_of(part: &[u8], l: usize) -> usize
    requires { l ≤ 65536 }
    ensures { (result ≡ label_step part.now l) × (result < 65536) }
{
    word_at(part, LABELS_AT + LABEL_SIZE * l + LABEL_STEP_IN)
}

// A field of the links of label l, which a place may lead to that is none's: read with a range test.
fn link_field(part: &[u8], l: usize, field: usize) -> usize
    requires { (l ≤ 65536) × (field ≤ 65536) }
    ensures { result ≡ word16 part.now (link_entry_at l + field) }
{
    word_at(part, LINKS_AT + LINK_SIZE * l + field)
}

// From the next label of the name: if it has its step in the same byte, its group goes on.
fn taken_over(part: &[u8], byte: usize, next: Option<Label>) -> Taken
    requires { place_of next < 65536 }
    ensures far { result.far ≡ far_over (joins part.now byte (place_of next)) part.now (place_of next) }
    ensures bits { result.bits ≡ bits_over (joins part.now byte (place_of next)) part.now (place_of next) }
{
    match next {
        Some(l) if step_of(part, l.number()) / 8 == byte => Taken {
            far: link_field(part, l.number(), FAR_IN),
            bits: (link_field(part, l.number(), BITS_IN) % 256) as u8,
        },
        Some(l) => Taken {
            far: l.place,
            bits: 0,
        },
        None => Taken { far: 0, bits: 0 },
    }
}

// The group of label l, from that of the next label of its name.
fn group_label(part: &mut Bytes, l: usize)
    requires { l < max_labels }
    ensures { part.new ≡ grouped l part.old }
{
    let step = step_of(part, l);
    let byte = step / 8;
    let automaton = Automaton { bytes: part };
    let taken = taken_over(automaton.bytes, byte, automaton.linked(l, NEXT_IN));
    let bits = taken.bits | 1 << (step % 8);
    put_link(part, l, FAR_IN, taken.far);
    put_link(part, l, BITS_IN, usize::from(bits) + 256 * byte);
}

// Every label's, from the last to the first.
pub fn group(part: &mut Bytes)
    ensures { part.new ≡ grouped_below (min (label_count part.old) max_labels) part.old }
{
    for l in (0..label_count(part)).rev() {
        group_label(part, l);
    }
}
