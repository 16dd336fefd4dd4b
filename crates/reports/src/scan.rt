// The bytes of a report, and how far blanks go.
ghost use Rattle.std.specs.Prelude.{◌≡◌};
ghost use Rattle.documents.specs.Tokens.{blank as blank_byte, listed as listed_byte, in_text};
ghost use Rattle.reports.specs.Code.Reaches.{blanks_to};

// A tab, a line end, a carriage return or a space. Most bytes are above, and that is tested first.
#[tactic(auto, unfolding(documents::specs::Tokens::blank))]
pub fn blank(b: u8) -> bool
    ensures { result ≡ blank_byte b }
{
    b <= b' ' && matches!(b, b'\t' | b'\n' | b'\r' | b' ')
}

// A byte that a report may have. Without branches, so that many are tested at once.
#[tactic(auto, unfolding(documents::specs::Tokens::listed))]
pub fn listed(b: u8) -> bool
    ensures { result ≡ listed_byte b }
{
    (b' ' <= b) & (b <= b'~') | (b == b'\r') | (b'\t' <= b) & (b <= b'\n')
}

// A byte that may stand for itself in text.
#[tactic(auto, unfolding(documents::specs::Tokens::in_text))]
pub fn in_text(b: u8) -> bool
    ensures { result ≡ in_text b }
{
    b != b'<' && b != b'&' && listed(b)
}

// Where the blanks that begin at an offset end. A search by an iterator takes 3 % more instructions to file many attributes.
#[tactic(auto, using(crate::proofs::Laws::Read::Reaches::blanks))]
pub fn blanks_end(s: &[u8], at: usize) -> usize
    ensures { result ≡ blanks_to s.now at }
{
    for i in at..s.len() {
        if !blank(s[i]) {
            return i;
        }
    }
    s.len()
}
