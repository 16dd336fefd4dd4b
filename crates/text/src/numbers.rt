// Numbers at an offset of some bytes.
ghost use Rattle.std.specs.Prelude.{◌≡◌, length, drop};
ghost use Rattle.text.specs.Read.{number_ahead, read_number};
ghost use Rattle.text.specs.Numbers.{number_found};

#[derive(Clone, Copy, Debug, PartialEq, Eq)]
pub struct Number {
    pub value: usize,
    // After its last digit.
    pub end: usize,
}

// Whether a number begins at an offset.
pub fn number_ahead(s: &[u8], at: usize) -> bool
    ensures { result ≡ number_ahead (drop at s.now) }
{
    matches!(s.get(at), Some(b'1'..=b'9'))
}

// The number from 1 to `most` that stands at an offset. A digit is added only if `most` allows it, so no sum is too large.
#[tactic(auto, using(crate::proofs::Laws::NumberScan::exits), unfolding(crate::specs::Names::digit))]
pub fn number_at(s: &[u8], at: usize, most: usize) -> Option<Number>
    ensures { result ≡ number_found (length s.now) (read_number most (drop at s.now)) }
{
    if !number_ahead(s, at) {
        return None;
    }
    let mut value = 0;
    for i in at..s.len() {
        let b = s[i];
        if !b.is_ascii_digit() {
            return Some(Number { value, end: i });
        }
        let d = usize::from(b - b'0');
        if most.checked_sub(d)? / 10 < value {
            return None;
        }
        value = 10 * value + d;
    }
    Some(Number {
        value,
        end: s.len(),
    })
}
