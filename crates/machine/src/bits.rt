// Bits of bytes, eight steps to a byte, the first in the lowest place.
ghost use Rattle.std.specs.Prelude.{◌≡◌, ◌≤◌};
ghost use Rattle.stored.specs.Bits.{bit_in};

use notation::reads;

// Bit i of the bytes from `base` on.
#[tactic(auto, unfolding(stored::specs::Bits::bit_of))]
pub fn bit_in(bytes: &[u8], base: usize, i: usize) -> bool
    requires { (base ≤ 65536) × (i ≤ 1048576) }
    ensures { result ≡ bit_in bytes.now base i }
{
    (reads::byte_at(bytes, base + i / 8) >> (i % 8)) % 2 == 1
}
