// Writing a stored set back: its text, into a buffer.
ghost use Rattle.notation.specs.WriteText.{WriteText};

use crate::reads;
use text::refusals::Refusal;

// Copies the text of the stored set to the first bytes of `out`; later bytes stay. A buffer that is too short is left as it was.
pub fn write_text(part: &[u8], out: &mut [u8]) -> Result<usize, Refusal>
    ensures { WriteText part.now out.old result out.new }
{
    let text = reads::text(part);
    let size = text.len();
    if out.len() < size {
        return Err(Refusal::ShortBuffer);
    }
    out[..size].copy_from_slice(text);
    Ok(size)
}
