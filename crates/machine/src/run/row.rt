// Numbers written where there is room for them, and the new row of an open before its bits.
#![tactic(auto, unfolding(text::specs::Names::max_name, stored::specs::Run::row_size))]

ghost use Rattle.std.specs.Prelude.{◌≡◌, ◌+◌, ◌≤◌, length};
ghost use Rattle.std.proofs.lemmas.List.Edits.{sets};
ghost use Rattle.text.specs.Names.{max_name};
ghost use Rattle.text.specs.Bytes.{le16};
ghost use Rattle.notation.specs.Layout.{word_size};
ghost use Rattle.stored.specs.Run.{row_size};
ghost use Rattle.stored.specs.Code.OpenSteps.{blank_row};

use crate::run::layout::{ACTIVE_IN, NAME_IN, ROW_SIZE, SEEN_IN, STATE_IN};
use notation::layout::WORD_SIZE;
use text::names::MAX_NAME;
use text::store::le16;

// A number of two bytes, the lower first.
pub fn put_word(part: &mut [u8], at: usize, v: usize)
    requires { at + word_size ≤ length part.old }
    ensures { part.new ≡ sets part.old at (le16 v) }
{
    part[at..at + WORD_SIZE].copy_from_slice(&le16(v));
}

// All of the row. Its bits are cleared in two parts with the state between them, and the name is filled up beside it: one fill of the row is a
// call, which takes 4 % more instructions for a whole report.
pub fn write_row(row: &mut [u8], e: &[u8], state: usize)
    requires { (length row.old ≡ row_size) × (length e.now ≤ max_name) }
    ensures { row.new ≡ blank_row e.now state }
{
    let mut name = [0; MAX_NAME];
    name[..e.len()].copy_from_slice(e);
    row[0] = e.len() as u8;
    row[NAME_IN..STATE_IN].copy_from_slice(&name);
    row[ACTIVE_IN..SEEN_IN].fill(0);
    put_word(row, STATE_IN, state);
    row[SEEN_IN..ROW_SIZE].fill(0);
}
