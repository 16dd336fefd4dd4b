// The hash of a name: every byte of it, 31 h + b modulo the count of hashes. What a turn begins with is below the count, and taken modulo it once more
// so that no bound of it is carried along; the compiler leaves that out.
ghost use Rattle.std.specs.Prelude.{◌≡◌, ◌<◌};
ghost use Rattle.stored.specs.Automaton.{hashes, hash};

use crate::layout::HASHES;

pub fn hash_of(e: &[u8]) -> usize
    ensures { (result ≡ hash e.now) × (result < hashes) }
{
    e.iter().fold(0, |h: usize, b| {
        (h % HASHES * 31 + usize::from(*b)) % HASHES
    })
}
