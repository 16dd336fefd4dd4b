// Plain writes into a lent buffer. Any place is answered: what would lie past the buffer's end is not written. A slice has no method for that:
// its own ask that there be room.
ghost use Rattle.std.specs.Prelude.{◌≡◌, ◌++◌, min, length, drop, replicate};
ghost use Rattle.std.proofs.lemmas.List.Edits.{sets};
ghost use Rattle.text.specs.Bytes.{le16};

// Zeros in the first `n` bytes.
pub fn clear(part: &mut [u8], n: usize)
    ensures { part.new ≡ replicate (min n (length part.old)) 0 ++ drop n part.old }
{
    let end = n.min(part.len());
    part[..end].fill(0);
}

// All of a slice into one that is as long. By a loop: `copy_from_slice` has an archive for C ask for `memmove`.
pub fn copy_all<T: Copy>(to: &mut [T], from: &[T])
    requires { length to.old ≡ length from.now }
    ensures { to.new ≡ from.now }
{
    for i in 0..from.len() {
        to[i] = from[i];
    }
}

// The bytes of a slice, from `at` on.
#[tactic(auto, using(crate::proofs::Laws::Bytes::Cut::copies))]
pub fn copy(part: &mut [u8], at: usize, bytes: &[u8])
    ensures { part.new ≡ sets part.old at bytes.now }
{
    if part.len() <= at {
        return;
    }
    let n = (part.len() - at).min(bytes.len());
    copy_all(&mut part[at..at + n], &bytes[..n]);
}

// The lower two bytes of a number, the lower first.
pub fn le16(v: usize) -> [u8; 2]
    ensures { result ≡ le16 v }
{
    ((v % 65536) as u16).to_le_bytes()
}

// A number of two bytes.
pub fn put16(part: &mut [u8], at: usize, v: usize)
    ensures { part.new ≡ sets part.old at (le16 v) }
{
    copy(part, at, &le16(v));
}

// Two such numbers, one after the other.
pub fn put_pair(part: &mut [u8], at: usize, v: usize, w: usize)
    ensures { part.new ≡ sets part.old at (le16 v ++ le16 w) }
{
    let [a, b] = le16(v);
    let [c, d] = le16(w);
    copy(part, at, &[a, b, c, d]);
}
