// The token at an offset of a report, by value.
ghost use Rattle.std.specs.Prelude.{◌≡◌, true, false, ltb, ◌↔◌, ◌+◌, ◌≤◌, ◌<◌, length, drop};
ghost use Rattle.text.specs.Lists.{every};
ghost use Rattle.documents.specs.Tokens.{RunOfTokens, listed as listed_byte};
ghost use Rattle.documents.specs.Reading.{read_tag, read_end_tag, read_contents, read_comment, read_text, read_token};
ghost use Rattle.reports.specs.Code.Reaches.{reach};
ghost use Rattle.reports.specs.Seen.{found_of, name_of};
ghost use Rattle.reports.specs.Code.Seen.{tag_end_of, text_found, text_on, declaration_at};
ghost use Rattle.reports.specs.NamePart.{NamePart, SpanAt};

use crate::attributes::attributes;
use crate::scan::{blanks_end, in_text, listed};
use crate::tags::{byte_at, mark_end, name_end, reference_end};

// Where a name stands.
#[derive(Clone, Copy, Debug, PartialEq, Eq)]
pub struct Span {
    pub from: usize,
    pub to: usize,
}

// What a token is; of a tag also where its name stands, and of one that opens whether it has an attribute's name twice, told in no more bytes than
// a report may have. Whether a text is blank is no field: that would lie over one byte of a tag's `from`, which would then be handled in parts.
#[derive(Clone, Copy, Debug, PartialEq, Eq)]
pub enum Kind {
    Declaration,
    Comment,
    Start { name: Span, twice: bool },
    Empty { name: Span, twice: bool },
    End { name: Span },
    // A text of blanks alone.
    Blank,
    Text,
}

impl Kind {
    // Where the name of a tag stands.
    pub fn name(self) -> Option<Span>
        ensures { result ≡ name_of self }
    {
        match self {
            Kind::Start { name, .. } | Kind::Empty { name, .. } | Kind::End { name } => Some(name),
            Kind::Declaration | Kind::Comment | Kind::Blank | Kind::Text => None,
        }
    }
}

// A token that begins at an offset, and where it ends.
#[derive(Clone, Copy, Debug, PartialEq, Eq)]
pub struct Found {
    pub kind: Kind,
    pub end: usize,
}

// Whether every byte of a report is listed; without that, `InvalidByte`. It goes over all bytes, so that many are tested at once.
pub fn all_listed(s: &[u8]) -> bool
    ensures { result ≡ every listed_byte s.now }
{
    s.iter().fold(true, |all, b| all & listed(*b))
}

// A start or empty-element tag, whose `<` stands at the offset. Most end behind their name.
#[tactic(auto, using(crate::proofs::Laws::Read::Tags::tags))]
fn tag(s: &[u8], at: usize) -> Option<Found>
    requires { at < length s.now }
    ensures { result ≡ found_of (length s.now) at (read_tag (drop (at + 1) s.now)) }
{
    let from = at + 1;
    let to = name_end(s, from)?;
    let name = Span { from, to };
    if byte_at(s, to, b'>') {
        return Some(Found {
            kind: Kind::Start { name, twice: false },
            end: to + 1,
        });
    }
    let inside = attributes(s, to)?;
    tag_end(s, name, inside.end, inside.twice)
}

// The end of such a tag: `>` or `/>`.
fn tag_end(s: &[u8], name: Span, at: usize, twice: bool) -> Option<Found>
    ensures { result ≡ tag_end_of s.now name at twice }
{
    if byte_at(s, at, b'>') {
        return Some(Found {
            kind: Kind::Start { name, twice },
            end: at + 1,
        });
    }
    if byte_at(s, at, b'/') && byte_at(s, at + 1, b'>') {
        return Some(Found {
            kind: Kind::Empty { name, twice },
            end: at + 2,
        });
    }
    None
}

// An end tag, whose `</` stands at the offset. Most end behind their name, as a start tag's does; after it an end has no attributes.
#[tactic(auto, using(crate::proofs::Laws::Read::Tags::end_tags))]
fn end_tag(s: &[u8], at: usize) -> Option<Found>
    requires { at + 2 ≤ length s.now }
    ensures { result ≡ found_of (length s.now) at (read_end_tag (drop (at + 2) s.now)) }
{
    let from = at + 2;
    let to = name_end(s, from)?;
    let kind = Kind::End {
        name: Span { from, to },
    };
    if byte_at(s, to, b'>') {
        return Some(Found { kind, end: to + 1 });
    }
    let end = mark_end(s, to, b'>')?;
    Some(Found { kind, end })
}

// The contents of a comment, with the `-->` after them.
#[tactic(auto, using(crate::proofs::Laws::Read::Comments::contents))]
fn contents_end(s: &[u8], at: usize) -> Option<usize>
    ensures { result ≡ reach read_contents s.now at }
{
    for i in at..s.len() {
        let b = s[i];
        if b == b'-' && byte_at(s, i + 1, b'-') {
            return byte_at(s, i + 2, b'>').then_some(i + 3);
        }
        if !listed(b) {
            return None;
        }
    }
    None
}

// A comment, whose `<!` stands at the offset.
#[tactic(auto, using(crate::proofs::Laws::Read::Comments::comments))]
fn comment(s: &[u8], at: usize) -> Option<Found>
    requires { at + 2 ≤ length s.now }
    ensures { result ≡ found_of (length s.now) at (read_comment (drop (at + 2) s.now)) }
{
    let from = at + 2;
    if !s[from..].starts_with(b"--") {
        return None;
    }
    let end = contents_end(s, from + 2)?;
    Some(Found {
        kind: Kind::Comment,
        end,
    })
}

// A text, up to the next `<` or the end. Its blanks first: most texts have nothing else.
#[tactic(auto, using(crate::proofs::Laws::Read::Texts::text_starts))]
fn text(s: &[u8], at: usize) -> Option<Found>
    ensures { result ≡ found_of (length s.now) at (read_text (drop at s.now)) }
{
    let i = blanks_end(s, at);
    match s.get(i) {
        Some(b'<') | None => text_found(at, i, Kind::Blank),
        Some(_) => text_from(s, at, i),
    }
}

// The rest, from an offset on, of a text that is not blank, up to the next `<` or the end; it has no `]]>`. Small letters first: most bytes are
// those. A reference is passed as a whole, so that no search goes over the bytes one by one.
#[tactic(auto, using(crate::proofs::Laws::Read::Texts::texts))]
fn text_from(s: &[u8], at: usize, from: usize) -> Option<Found>
    requires begun { at ≤ from }
    requires within { from ≤ length s.now }
    ensures { result ≡ text_on s.now at false from }
{
    let mut i = from;
    while i < s.len() {
        let b = s[i];
        if b'^' <= b {
            if b'~' < b {
                return None;
            }
            i += 1;
        } else if b == b'<' {
            return text_found(at, i, Kind::Text);
        } else if b == b'&' {
            i = reference_end(s, i + 1)?;
        } else {
            if !in_text(b) || (b == b']' && byte_at(s, i + 1, b']') && byte_at(s, i + 2, b'>')) {
                return None;
            }
            i += 1;
        }
    }
    text_found(at, i, Kind::Text)
}

// A text is not empty.
fn text_found(at: usize, end: usize, kind: Kind) -> Option<Found>
    ensures { result ≡ text_found at end kind }
{
    (at < end).then_some(Found { kind, end })
}

// The declaration, at the offset.
#[tactic(auto, using(crate::proofs::Laws::Read::Words::told, crate::proofs::Laws::Read::TokenAt::declarations), unfolding(documents::specs::Tokens::declaration_bytes))]
fn declaration(s: &[u8], at: usize) -> Option<Found>
    requires { at ≤ length s.now }
    ensures { result ≡ declaration_at s.now at }
{
    if s[at..].starts_with(b"<?xml version=\"1.0\"?>") {
        return Some(Found {
            kind: Kind::Declaration,
            end: at + 21,
        });
    }
    None
}

// The token at an offset of any bytes; `None` where no whole one begins.
#[tactic(auto, using(crate::proofs::Laws::Read::TokenAt::tokens))]
pub fn token_at(s: &[u8], at: usize) -> Option<Found>
    ensures { result ≡ found_of (length s.now) at (read_token (drop at s.now)) }
{
    if s.len() <= at {
        return None;
    }
    if s[at] != b'<' {
        return text(s, at);
    }
    if s.len() <= at + 1 {
        return None;
    }
    match s[at + 1] {
        b'!' => comment(s, at),
        b'/' => end_tag(s, at),
        b'?' => declaration(s, at),
        _ => tag(s, at),
    }
}

// Where the name of the tag at an offset of any bytes stands; `None` where no whole tag begins there.
#[tactic(auto, using(crate::proofs::Laws::Read::TagName::spans))]
pub fn tag_span(s: &[u8], at: usize) -> Option<Span>
    ensures { SpanAt s.now at result }
{
    token_at(s, at)?.kind.name()
}

// The name of that tag, as the part of those bytes between the two offsets; where there is none, the empty part that they begin with.
pub fn tag_name(s: &[u8], at: usize) -> &[u8]
    ensures { NamePart s.entry at result }
{
    match tag_span(s, at) {
        Some(name) => &s[name.from..name.to],
        None => &s[..0],
    }
}

// Whether a report is a run of tokens; without that, `SyntaxError`. A type of the tokens with its own `Iterator` and the relation of its steps is three
// times as long as this loop.
#[tactic(auto, using(crate::proofs::Laws::Read::RunAt::runs))]
pub fn is_run(s: &[u8]) -> bool
    ensures { (result ≡ true) ↔ RunOfTokens s.now }
{
    let mut i = 0;
    while i < s.len() {
        let Some(found) = token_at(s, i) else {
            return false;
        };
        if i != 0 && found.kind == Kind::Declaration {
            return false;
        }
        i = found.end;
    }
    true
}
