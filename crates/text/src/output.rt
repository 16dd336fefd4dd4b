// A text that is put together piece by piece: measured first, or written into a lent buffer.
ghost use Rattle.std.specs.Prelude.{◌≡◌, [], ◌∷◌, ◌++◌, ◌+◌, ◌<◌, length};
ghost use Rattle.text.specs.Decimal.{decimal};
ghost use Rattle.text.specs.Output.{Adds, put_at, written_to};

use crate::refusals::Refusal;
use crate::store::copy;

// Where the pieces of a text go, one after the other.
pub trait Sink {
    ghost use Rattle.std.specs.Prelude.{ℕ, List};

    // What a piece makes of it.
    ghost puts: { Self → List ℕ → Self };

    fn put(&mut self, piece: &[u8])
        ensures { self.new ≡ puts self.old piece.now };
}

// How long a text is; nothing is written.
#[derive(Clone, Copy, Debug, Default)]
pub struct Length {
    pub bytes: usize,
}

impl Sink for Length {
    ghost use Rattle.text.specs.Output.{measured};

    ghost puts = { measured };

    fn put(&mut self, piece: &[u8]) {
        self.bytes = self.bytes.saturating_add(piece.len());
    }
}

// The front of a lent buffer. A piece that has no room is left out, and so are all after it.
#[derive(Drop)]
pub struct Front<'a> {
    pub out: &'a mut [u8],
    // After the last piece; an error once one had no room, and then after the last that had.
    pub end: Result<usize, usize>,
}

impl<'a> Front<'a> {
    ghost use Rattle.std.specs.Result.{result_or};
    ghost use Rattle.text.specs.declared.refusals.Refusal.TheVariants.{ShortBuffer};

    pub fn new(out: &'a mut [u8]) -> Front<'a>
        ensures { result ≡ record { out = out.entry; end = Ok 0 } }
    {
        Front { out, end: Ok(0) }
    }

    // The bytes that all pieces take, if all had room.
    pub fn written(&self) -> Result<usize, Refusal>
        ensures { result ≡ result_or self.now.end (Err ShortBuffer) }
    {
        self.end.or(Err(Refusal::ShortBuffer))
    }
}

impl Sink for Front<'_> {
    ghost use Rattle.text.specs.Output.{fronted};

    ghost puts = { fronted };

    fn put(&mut self, piece: &[u8]) {
        if let Ok(at) = self.end {
            self.end = put_piece(self.out, at, piece);
        }
    }
}

// A piece from an offset on, if it has room there, and where it ends; else that offset.
#[tactic(auto, using(crate::proofs::Laws::Output::written_part))]
fn put_piece(out: &mut [u8], at: usize, piece: &[u8]) -> Result<usize, usize>
    ensures end { result ≡ put_at (length out.old) at piece.now }
    ensures leaves { out.new ≡ written_to result out.old at piece.now }
{
    let end = at.saturating_add(piece.len());
    if end > out.len() {
        return Err(at);
    }
    copy(out, at, piece);
    Ok(end)
}

// A digit.
fn put_digit<S: Sink>(to: &mut S, d: usize)
    requires { d < 10 }
    ensures { to.new ≡ S.puts to.old ((48 + d) ∷ []) }
{
    to.put(&[48 + d as u8]);
}

// A number's decimal digits, a piece each. Not by `Display`: what writes that takes a `str`, and can fail.
pub fn put_number<S: Sink>(to: &mut S, n: usize)
    ensures { Adds S.puts to.old (decimal n) to.new }
{
    if n >= 10 {
        put_number(to, n / 10);
    }
    put_digit(to, n % 10);
}

// A word, then a number's decimal digits.
#[tactic(auto, using(crate::specs::Output::a_piece))]
pub fn put_numbered<S: Sink>(to: &mut S, word: &[u8], n: usize)
    ensures { Adds S.puts to.old (word.now ++ decimal n) to.new }
{
    to.put(word);
    put_number(to, n);
}
