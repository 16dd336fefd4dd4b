// Reading a set: its text is judged, and an accepted one is laid out in a buffer.
ghost use Rattle.std.specs.Prelude.{◌≡◌, ◌++◌, ◌≤◌, length, drop};
ghost use Rattle.std.proofs.lemmas.List.Edits.{sets};
ghost use Rattle.text.specs.Answers.{refusal_in};
ghost use Rattle.text.specs.Bytes.{le16};
ghost use Rattle.notation.specs.Limits.{max_set_bytes};
ghost use Rattle.notation.specs.Sets.{FolderSet};
ghost use Rattle.notation.specs.Accepted.{Accepted};
ghost use Rattle.notation.specs.Layout.{set_size, set_part};
ghost use Rattle.notation.specs.ReadSet.{ReadSet};
ghost use Rattle.notation.specs.Code.Taking.{text_refusal, answered};

use crate::layout::{LABEL_COUNT_AT, PATH_COUNT_AT, SET_SIZE, TEXT_AT, TEXT_LEN_AT};
use crate::limits::MAX_SET_BYTES;
use crate::take::take_set;
use crate::tally::Tally;
use text::refusals::Refusal;
use text::store;

// Judges a text, in build's order. One pass, with no buffer to write into. A trait with a sink that keeps nothing would say it no more plainly:
// `Reading`, its methods and all that their clauses cite would be generic over it.
#[tactic(auto, using(text::proofs::Laws::Results::handed_on, crate::proofs::Laws::Refused::Taken::taken_verdict), unfolding(crate::specs::Code::Taking::text_refusal, crate::specs::Limits::max_set_bytes))]
fn judge(text: &[u8]) -> Result<(), Refusal>
    ensures { result ≡ answered (text_refusal text.now) }
{
    if MAX_SET_BYTES < text.len() {
        return Err(Refusal::TooLarge);
    }
    let tally = take_set(text, &mut []).ok_or(Refusal::MalformedSet)?;
    tally.verdict()
}

fn put_counts(part: &mut [u8], size: usize, t: Tally)
    requires { set_size ≤ length part.old }
    ensures { part.new ≡ sets part.old 0 (le16 size ++ (le16 t.folders ++ (le16 t.paths ++ (le16 t.steps ++ le16 t.labels)))) }
{
    store::put_pair(part, TEXT_LEN_AT, size, t.folders);
    store::put_pair(part, PATH_COUNT_AT, t.paths, t.steps);
    store::put16(part, LABEL_COUNT_AT, t.labels);
}

// An accepted text, laid out.
#[tactic(auto, using(crate::proofs::Laws::Refused::Taken::filled), unfolding(crate::specs::Layout::set_size, crate::specs::Layout::text_at, crate::specs::Limits::max_set_bytes))]
fn fill(text: &[u8], part: &mut [u8])
    requires { (set_size ≤ length part.old) × (length text.now ≤ max_set_bytes) }
    ensures { (s : FolderSet) → Accepted text.now s → part.new ≡ set_part s ++ drop set_size part.old }
{
    store::clear(part, SET_SIZE);
    store::copy_all(&mut part[TEXT_AT..TEXT_AT + text.len()], text);
    if let Some(tally) = take_set(text, part) {
        put_counts(part, text.len(), tally);
    }
}

// Reads a set's text into the first bytes of `part`, or refuses it: for a short buffer, and then in build's order. A refusal changes
// nothing. Two passes over the text, and one over the buffer.
#[tactic(auto, using(text::proofs::Laws::Results::handed_on, crate::proofs::Laws::Refused::Taken::short_text, crate::proofs::Laws::Refused::ReadAnswer::answers), unfolding(crate::specs::Layout::set_size))]
pub fn read_set(text: &[u8], part: &mut [u8]) -> Result<(), Refusal>
    ensures { ReadSet text.now part.old (refusal_in result) part.new }
{
    if part.len() < SET_SIZE {
        return Err(Refusal::ShortBuffer);
    }
    judge(text)?;
    fill(text, part);
    Ok(())
}
