// Numbers as they are stored, read without a range test: for callers that know that they lie within the buffer. They are answered as `usize` with
// their bound, since each caller counts on with them; what counts with them asks for bounds that it has from here.
ghost use Rattle.std.specs.Prelude.{◌≡◌, ◌+◌, ◌≤◌, ◌<◌, length};
ghost use Rattle.notation.specs.Layout.{word_size};
ghost use Rattle.notation.specs.Reads.{word16};

// A number of two bytes, the lower first.
#[tactic(auto, unfolding(notation::specs::Reads::word16))]
pub fn word(a: &[u8], at: usize) -> usize
    requires { at + word_size ≤ length a.now }
    ensures { (result ≡ word16 a.now at) × (result < 65536) }
{
    usize::from(u16::from_le_bytes([a[at], a[at + 1]]))
}
