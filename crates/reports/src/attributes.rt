// The attributes of a tag: how far they go, and whether two of them have the same name.
ghost use Rattle.std.specs.Prelude.{◌≡◌, ◌≤◌, length, take, drop, MatchOption};
ghost use Rattle.text.specs.Read.{fail};
ghost use Rattle.documents.specs.Limits.{max_report_bytes};
ghost use Rattle.documents.specs.Reading.{read_attributes};
ghost use Rattle.documents.specs.Repeats.{repeated};
ghost use Rattle.reports.specs.Code.Reaches.{names_from};
ghost use Rattle.reports.specs.Code.Ordered.{names_at};
ghost use Rattle.reports.specs.Code.Attributes.{next_from, kept, Notes, inside_from};
ghost use Rattle.reports.specs.Seen.{judged};

use crate::limits::MAX_REPORT;
use crate::order::{same_names, sort};
use crate::scan::blanks_end;
use crate::tags::{attribute_end, byte_at};
use text::names::begins_name;

// So many names are compared without a second look at the tag.
const FEW: usize = 16;

// So many take little room.
const SOME: usize = 256;

// No report has room for more attributes in a tag: each takes five bytes at least.
const MANY: usize = 13107;

// What comes next in a tag: no attribute, and where the blanks end; or one, where its name begins and where it ends.
#[derive(Clone, Copy, Debug, PartialEq, Eq)]
enum Next {
    Blanks(usize),
    Attribute { name: usize, end: usize },
}

// `None` for an attribute that cannot be read.
#[tactic(auto, using(crate::proofs::Laws::Read::Inside::nexts))]
fn next_attribute(s: &[u8], at: usize) -> Option<Next>
    ensures { result ≡ next_from s.now at }
{
    let n = blanks_end(s, at);
    if n == at || s.len() <= n || !begins_name(s[n]) {
        return Some(Next::Blanks(n));
    }
    let end = attribute_end(s, n)?;
    Some(Next::Attribute { name: n, end })
}

// A place is kept if there is room for it, in two bytes: these hold every offset into a report, and in longer bytes nothing is told by them. Names that
// are not kept are counted too, so that no `ArrayVec` tells their count.
fn keep(places: &mut [u16], k: usize, name: usize)
    ensures { places.new ≡ kept places.old k name }
{
    if k < places.len() {
        places[k] = (name % 65536) as u16;
    }
}

// Where the attributes of a tag and the blanks after them end, and how many attributes there are.
#[derive(Clone, Copy, Debug, PartialEq, Eq)]
struct Noted {
    end: usize,
    count: usize,
}

// The places of the names are noted as far as there is room. An iterator over the attributes would end with `None`, and not with where the blanks end.
#[tactic(auto, using(crate::proofs::Laws::Read::Attributes::notings))]
fn note_names(s: &[u8], at: usize, places: &mut [u16]) -> Option<Noted>
    ensures { MatchOption result
        (read_attributes (drop at s.now) ≡ fail)
        (λ n. Notes s.now at n.end n.count places.new) }
{
    let mut i = at;
    let mut count = 0;
    loop {
        match next_attribute(s, i)? {
            Next::Blanks(end) => return Some(Noted { end, count }),
            Next::Attribute { name, end } => {
                keep(places, count, name);
                count += 1;
                i = end;
            }
        }
    }
}

// Whether a name is repeated where more names were found than noted: all are noted, and sorted. A tag with few attributes has no large arrays
// cleared for it.
fn many_repeat<const ROOM: usize>(s: &[u8], at: usize, count: usize) -> bool
    requires room { ROOM ≤ 13107 }
    requires fits { count ≤ ROOM }
    requires short { length s.now ≤ max_report_bytes }
    requires counts { count ≡ length (names_from s.now at) }
    ensures { result ≡ repeated (names_from s.now at) }
{
    let mut places = [0; ROOM];
    let mut spare = [0; ROOM];
    note_names(s, at, &mut places);
    sort(s, &mut places[..count], &mut spare[..count]).is_err()
}

// Whether a name is repeated among so many, noted as far as there is room; told only in no more bytes than a report may have.
#[tactic(auto, using(crate::proofs::Laws::Read::Attributes::judgings), unfolding(documents::specs::Limits::max_report_bytes))]
fn names_repeat(s: &[u8], at: usize, count: usize, places: &mut [u16]) -> bool
    requires room { length places.old ≡ 16 }
    requires counts { count ≡ length (names_from s.now at) }
    requires noted { length s.now ≤ max_report_bytes
        → count ≤ length places.old
        → names_at s.now (take count places.old) ≡ names_from s.now at }
    ensures { result ≡ judged (length s.now) (names_from s.now at) }
{
    if count < 2 || MAX_REPORT < s.len() {
        return false;
    }
    if count == 2 {
        return same_names(s, usize::from(places[0]), usize::from(places[1]));
    }
    if count <= FEW {
        let mut spare = [0; FEW];
        return sort(s, &mut places[..count], &mut spare[..count]).is_err();
    }
    if count <= SOME {
        return many_repeat::<SOME>(s, at, count);
    }
    many_repeat::<MANY>(s, at, count)
}

// Where the attributes of a tag and the blanks after them end, and whether two have the same name.
#[derive(Clone, Copy, Debug, PartialEq, Eq)]
pub struct Inside {
    pub end: usize,
    pub twice: bool,
}

// A tag that ends behind its name has none. It costs at most the tag's bytes times the logarithm of its attributes, and once the two large arrays.
#[tactic(auto, using(crate::proofs::Laws::Read::Attributes::insides))]
pub fn attributes(s: &[u8], at: usize) -> Option<Inside>
    ensures { result ≡ inside_from s.now at }
{
    if byte_at(s, at, b'/') {
        return Some(Inside {
            end: at,
            twice: false,
        });
    }
    let mut places = [0; FEW];
    let noted = note_names(s, at, &mut places)?;
    let end = noted.end;
    Some(Inside {
        end,
        twice: names_repeat(s, at, noted.count, &mut places),
    })
}
