// Names compared where they stand, by their offsets, and offsets sorted by the names there.
ghost use Rattle.std.specs.Prelude.{◌≡◌, ◌+◌, length};
ghost use Rattle.std.specs.Result.{is_err};
ghost use Rattle.text.specs.Names.{same_name};
ghost use Rattle.reports.specs.Code.Ordered.{name_at, names_at, first_byte, order_of, ahead, MergesTo, Sorts};

use std::cmp::Ordering;
use text::names::in_name;
use text::store::copy_all;

// The first byte of the name at an offset, 0 if there is none: no name has that byte. An `Option` takes a third more instructions to file many attributes.
#[tactic(auto, using(crate::proofs::Laws::Ordered::NameAt::name_bytes))]
fn name_byte(s: &[u8], at: usize) -> u8
    ensures { result ≡ first_byte (name_at s.now at) }
{
    if at < s.len() && in_name(s[at]) {
        s[at]
    } else {
        0
    }
}

// The names at two offsets, byte by byte; it ends with the shorter one. Two slices, whose ends are to be found first, take twice the instructions
// to file many attributes, iterators half as many again. `cmp` is asked of two bytes that differ alone: of all it takes a twentieth more.
#[tactic(auto, using(crate::proofs::Laws::Ordered::NameAt::comparings))]
pub fn compare(s: &[u8], p: usize, q: usize) -> Ordering
    ensures { result ≡ order_of (name_at s.now p) (name_at s.now q) }
{
    let mut i = p;
    let mut j = q;
    loop {
        let a = name_byte(s, i);
        let b = name_byte(s, j);
        if a != b {
            return a.cmp(&b);
        }
        if a == 0 {
            return Ordering::Equal;
        }
        i += 1;
        j += 1;
    }
}

// Whether the names at two offsets are the same.
#[tactic(auto, using(crate::proofs::Laws::Ordered::Order::same_is))]
pub fn same_names(s: &[u8], p: usize, q: usize) -> bool
    ensures { result ≡ same_name (name_at s.now p) (name_at s.now q) }
{
    compare(s, p, q).is_eq()
}

// Which of two parts gives the next name; `Equal` if their first names are the same.
fn next_part(s: &[u8], left: &[u16], right: &[u16]) -> Ordering
    ensures { result ≡ ahead (names_at s.now left.now) (names_at s.now right.now) }
{
    match (left, right) {
        ([], _) => Ordering::Greater,
        (_, []) => Ordering::Less,
        ([p, ..], [q, ..]) => compare(s, usize::from(*p), usize::from(*q)),
    }
}

// Two names are the same.
#[derive(Clone, Copy, Debug, PartialEq, Eq)]
pub struct Repeated;

// Two sorted parts, merged, up to a name that both have. Each part goes on at its own pace, so that two places are counted.
fn merge(s: &[u8], left: &[u16], right: &[u16], out: &mut [u16]) -> Result<(), Repeated>
    requires { length out.old ≡ length left.now + length right.now }
    ensures { MergesTo (names_at s.now left.now) (names_at s.now right.now) (is_err result) (names_at s.now out.new) }
{
    let mut i = 0;
    let mut j = 0;
    for place in out.iter_mut() {
        match next_part(s, &left[i..], &right[j..]) {
            Ordering::Equal => return Err(Repeated),
            Ordering::Less => {
                *place = left[i];
                i += 1;
            }
            Ordering::Greater => {
                *place = right[j];
                j += 1;
            }
        }
    }
    Ok(())
}

// Two offsets need no halves.
fn sort_two(s: &[u8], places: &mut [u16]) -> Result<(), Repeated>
    requires { length places.old ≡ 2 }
    ensures { Sorts s.now places.old (is_err result) places.new }
{
    match compare(s, usize::from(places[0]), usize::from(places[1])) {
        Ordering::Less => Ok(()),
        Ordering::Equal => Err(Repeated),
        Ordering::Greater => {
            places.swap(0, 1);
            Ok(())
        }
    }
}

// Sorts offsets by the names there; if two of these are the same, the offsets are in no order. By halves: each is sorted, and both are merged by
// way of `spare`. The library's sort finds no two that are the same, and takes up to a third more instructions.
pub fn sort(s: &[u8], places: &mut [u16], spare: &mut [u16]) -> Result<(), Repeated>
    requires { length spare.old ≡ length places.old }
    ensures { Sorts s.now places.old (is_err result) places.new }
{
    let n = places.len();
    if n < 2 {
        return Ok(());
    }
    if n == 2 {
        return sort_two(s, places);
    }
    let half = n / 2;
    sort(s, &mut places[..half], &mut spare[..half])?;
    sort(s, &mut places[half..], &mut spare[half..])?;
    let sorted = &places[..];
    merge(s, &sorted[..half], &sorted[half..], spare)?;
    copy_all(places, spare);
    Ok(())
}
