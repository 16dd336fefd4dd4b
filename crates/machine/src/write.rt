// Writing an automaton's set back.
ghost use Rattle.stored.specs.Build.{SetWritten};

use crate::layout::AUTOMATON_SIZE;
use crate::shape::automaton_shaped;
use notation::limits::MAX_SET_BYTES;
use notation::write::write_text;
use text::refusals::Refusal;

// Writes the text of an automaton's set and answers its length; refused are a short automaton or buffer (`ShortBuffer`), and then bytes that
// are no automaton (`BadShape`). Bytes past the text stay.
#[tactic(auto, using(notation::proofs::Laws::Refused::WriteBack::written_back), unfolding(text::specs::Order::given, text::specs::Order::first, stored::specs::Automaton::automaton_size, notation::specs::Limits::max_set_bytes))]
pub fn write_set(automaton: &[u8], out: &mut [u8]) -> Result<usize, Refusal>
    ensures { SetWritten automaton.now out.old result out.new }
{
    if automaton.len() < AUTOMATON_SIZE || out.len() < MAX_SET_BYTES {
        return Err(Refusal::ShortBuffer);
    }
    if !automaton_shaped(automaton) {
        return Err(Refusal::BadShape);
    }
    write_text(automaton, out)
}
