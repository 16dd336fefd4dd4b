// Words at an offset of some bytes.
ghost use Rattle.std.specs.Prelude.{◌≡◌, drop};
ghost use Rattle.text.specs.Read.{starts_with};

// Whether the word stands at an offset. Any offset is answered: past the bytes' end only a word of no bytes stands. By bytes: `starts_with` of a slice
// calls out, so that a report of references takes a quarter more instructions.
pub fn word_at(s: &[u8], at: usize, w: &[u8]) -> bool
    ensures { result ≡ starts_with w.now (drop at s.now) }
{
    if s.len().saturating_sub(at) < w.len() {
        return false;
    }
    for i in 0..w.len() {
        if s[at + i] != w[i] {
            return false;
        }
    }
    true
}
