// Building an automaton: a set is read into its first bytes, and a pass for each of its tables makes the others behind it. What a pass needs of
// those before it stands in clauses (Linkable, Searchable, Growing): the bytes have it from some pass on, so that it would be a type for each pass.
mod bytes;
mod chains;
mod fails;
mod groups;
mod masks;
mod parents;

ghost use Rattle.std.specs.Prelude.{◌≡◌};
ghost use Rattle.text.specs.Answers.{refusal_in};
ghost use Rattle.stored.specs.Build.{Built};
ghost use Rattle.stored.specs.Code.Passes.{ReadIn, cleared, made};

use crate::build::bytes::Bytes;
use crate::layout::AUTOMATON_SIZE;
use notation::layout::SET_SIZE;
use notation::read::read_set;
use text::refusals::Refusal;

// Zeros behind the read set.
#[tactic(auto, unfolding(notation::specs::Layout::set_size, stored::specs::Automaton::automaton_size, stored::specs::Code::Passes::cleared))]
fn clear_tables(part: &mut Bytes)
    ensures { part.new ≡ cleared part.old }
{
    part[SET_SIZE..].fill(0);
}

// The passes over a read set, in order.
fn make(part: &mut Bytes)
    requires { ReadIn part.old }
    ensures { part.new ≡ made part.old }
{
    clear_tables(part);
    chains::chain(part);
    groups::group(part);
    parents::parents(part);
    fails::fails(part);
    masks::write_masks(part);
    masks::write_start(part);
}

// Builds the automaton of a set's text, or answers a refusal, for a short buffer or of the text, which changes nothing. Two passes over the text,
// one over the buffer, one over the labels or steps for each of links, groups, parents and masks, and one over the labels for each length of a
// word.
pub fn build(text: &[u8], automaton: &mut [u8]) -> Result<(), Refusal>
    ensures { Built text.now automaton.old (refusal_in result) automaton.new }
{
    let Some(part) = automaton.first_chunk_mut::<AUTOMATON_SIZE>() else {
        return Err(Refusal::ShortBuffer);
    };
    read_set(text, part)?;
    make(part);
    Ok(())
}
