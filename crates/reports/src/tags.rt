// The parts of tags: references, values, attributes. Each call answers where a part ends that begins at an offset, and `None` where none begins.
// With slices of the rest in place of offsets they take 9 % more instructions to file a report of 64 kB.
ghost use Rattle.std.specs.Prelude.{◌≡◌, ◌≤◌, length, []};
ghost use Rattle.text.specs.Read.{read_name};
ghost use Rattle.documents.specs.Reading.{read_reference, read_attribute_from};
ghost use Rattle.reports.specs.Code.Reaches.{reach, read_mark, read_quoted, read_value};
ghost use Rattle.reports.specs.Code.Seen.{has_byte};

use crate::scan::{blanks_end, in_text};
use text::names;
use text::words::word_at;

// One of the five references, after its `&`. A call, since no loop has room for this test. `find` over an array of them takes twice the instructions
// to file a report of references.
#[inline(never)]
#[tactic(auto, using(crate::proofs::Laws::Read::Reaches::references))]
pub fn reference_end(s: &[u8], at: usize) -> Option<usize>
    requires { at ≤ length s.now }
    ensures { result ≡ reach read_reference s.now at }
{
    if word_at(s, at, b"amp;") {
        return Some(at + 4);
    }
    if word_at(s, at, b"lt;") || word_at(s, at, b"gt;") {
        return Some(at + 3);
    }
    if word_at(s, at, b"quot;") || word_at(s, at, b"apos;") {
        return Some(at + 5);
    }
    None
}

// A name.
#[tactic(auto, using(crate::proofs::Laws::Read::Offsets::names))]
pub fn name_end(s: &[u8], at: usize) -> Option<usize>
    ensures { result ≡ reach read_name s.now at }
{
    if at < s.len() && names::begins_name(s[at]) {
        Some(names::name_end(s, at + 1))
    } else {
        None
    }
}

// Whether a byte stands at an offset.
pub fn byte_at(s: &[u8], at: usize, byte: u8) -> bool
    ensures { result ≡ has_byte s.now at byte }
{
    s.get(at) == Some(&byte)
}

// A byte, after blanks.
#[tactic(auto, using(crate::proofs::Laws::Read::Offsets::marks))]
pub fn mark_end(s: &[u8], at: usize, mark: u8) -> Option<usize>
    ensures { result ≡ reach (read_mark mark) s.now at }
{
    let q = blanks_end(s, at);
    byte_at(s, q, mark).then_some(q + 1)
}

// The parts of a value and the quote after them. A reference is passed as a whole, so that no search goes over the bytes one by one.
#[tactic(auto, using(crate::proofs::Laws::Read::Values::quotes))]
fn quoted_end(s: &[u8], at: usize, quote: u8) -> Option<usize>
    ensures { result ≡ reach (read_quoted quote) s.now at }
{
    let mut i = at;
    while i < s.len() {
        match s[i] {
            b'&' => i = reference_end(s, i + 1)?,
            b if b == quote => return Some(i + 1),
            b if in_text(b) => i += 1,
            _ => return None,
        }
    }
    None
}

// A value in quotes, after blanks.
#[tactic(auto, using(crate::proofs::Laws::Read::Offsets::values))]
fn value_end(s: &[u8], at: usize) -> Option<usize>
    ensures { result ≡ reach read_value s.now at }
{
    let v = blanks_end(s, at);
    match s.get(v) {
        Some(b'"') => quoted_end(s, v + 1, b'"'),
        Some(b'\'') => quoted_end(s, v + 1, b'\''),
        _ => None,
    }
}

// An attribute, after the blanks before it.
#[tactic(auto, using(crate::proofs::Laws::Read::Offsets::attributes))]
pub fn attribute_end(s: &[u8], at: usize) -> Option<usize>
    ensures { result ≡ reach (read_attribute_from []) s.now at }
{
    value_end(s, mark_end(s, name_end(s, at)?, b'=')?)
}
