// Texts in a line. `\n` is a line end, `\013` the byte 13, `{16*/a}` sixteen times `/a`, and `<1000 1128>` the lines of folders
// numbered from 1000, below 1128. Any other byte stands for itself.
ghost use Rattle.std.specs.Prelude.{◌≡◌, ◌+◌, ◌<◌, ◌≤◌, [], ◌++◌, length};

use crate::bytes::script::{byte, number, split, split_once, split_word, trimmed};
use itoa::Buffer;
use std::fmt;
use std::marker::Model;

// Bytes of a text at most.
pub const MAX_TEXT: usize = 20000;

// A text, put together piece by piece. A piece that has no room is left out. An `ArrayVec` takes a third more to add a piece many times.
#[derive(Drop)]
pub struct Text<const ROOM: usize> {
    bytes: [u8; ROOM],
    size: usize,
}

impl<const ROOM: usize> Model for Text<ROOM> {
    ghost use Rattle.std.specs.Prelude.{List, ℕ, take, ◌≤◌};

    ghost Value = { List ℕ };

    ghost view = { λ t. take t.size t.bytes };

    ghost invariant = { λ t. t.size ≤ ROOM };
}

impl<const ROOM: usize> Text<ROOM> {
    pub fn new() -> Self
        ensures { result ≡ [] }
    {
        Text {
            bytes: [0; ROOM],
            size: 0,
        }
    }

    pub fn as_slice(&self) -> &[u8]
        ensures { result.now ≡ self.now }
    {
        &self.bytes[..self.size]
    }

    pub fn add(&mut self, piece: &[u8])
        ensures added { length self.old + length piece.now ≤ ROOM → self.new ≡ self.old ++ piece.now }
        ensures left_out { ROOM < length self.old + length piece.now → self.new ≡ self.old }
    {
        let bytes = &mut self.bytes[..];
        if piece.len() <= bytes.len() - self.size {
            let end = self.size + piece.len();
            bytes[self.size..end].copy_from_slice(piece);
            self.size = end;
        }
    }

    // A piece so many times. Once it has no room it has none later.
    pub fn times(&mut self, piece: &[u8], n: usize) {
        if piece.is_empty() {
            return;
        }
        let bytes = &mut self.bytes[..];
        let n = n.min((bytes.len() - self.size) / piece.len());
        let end = self.size + n * piece.len();
        for place in bytes[self.size..end].chunks_exact_mut(piece.len()) {
            place.copy_from_slice(piece);
        }
        self.size = end;
    }
}

impl<const ROOM: usize> fmt::Write for Text<ROOM> {
    fn write_str(&mut self, piece: &str) -> fmt::Result {
        self.add(piece.as_bytes());
        Ok(())
    }
}

// A line `NAME = TEXT`. The spaces about the sign are left out, whatever bytes they are.
pub fn split_name(line: &[u8]) -> (&[u8], &[u8]) {
    let (name, text) = split(line, b'=');
    (trimmed(name), text.get(1..).unwrap_or(&[]))
}

// Adds what the line stands for. Into a text of the caller: one that is returned is copied.
pub fn expand<const ROOM: usize>(text: &mut Text<ROOM>, line: &[u8]) {
    let mut rest = line;
    // No iterator is plainer: how far a turn goes is known once its piece is read.
    while let [first, tail @ ..] = rest {
        rest = match first {
            b'\\' => escape(text, tail),
            b'{' => repeat(text, tail),
            b'<' => folders(text, tail),
            _ => plain(text, *first, tail),
        };
    }
}

fn plain<'a, const ROOM: usize>(text: &mut Text<ROOM>, first: u8, tail: &'a [u8]) -> &'a [u8]
    ensures { length result.now ≤ length tail.now }
{
    text.add(&[first]);
    tail
}

// What stands after a `\`: three bytes at most. Each answers what is left after its piece.
fn escape<'a, const ROOM: usize>(text: &mut Text<ROOM>, tail: &'a [u8]) -> &'a [u8]
    ensures { length result.now ≤ length tail.now }
{
    if let [b'n', rest @ ..] = tail {
        text.add(b"\n");
        return rest;
    }
    let (digits, rest) = tail.split_at(tail.len().min(3));
    text.add(&[byte(digits)]);
    rest
}

// Up to the `}`; where there is none, the last byte stands for it.
fn repeat<'a, const ROOM: usize>(text: &mut Text<ROOM>, tail: &'a [u8]) -> &'a [u8]
    ensures { length result.now ≤ length tail.now }
{
    let (inner, rest) = split_once(tail, b'}').unwrap_or((trimmed(tail), &[]));
    let (times, piece) = split(inner, b'*');
    text.times(piece, number(times));
    rest
}

fn folders<'a, const ROOM: usize>(text: &mut Text<ROOM>, tail: &'a [u8]) -> &'a [u8]
    ensures { length result.now ≤ length tail.now }
{
    let (inner, rest) = split(tail, b'>');
    let (first, end) = split_word(inner);
    for folder in number(first)..number(end) {
        add_folder(text, folder);
    }
    rest
}

// Three pieces, each with room or not.
fn add_folder<const ROOM: usize>(text: &mut Text<ROOM>, number: usize) {
    text.add(b"(folder ");
    text.add(Buffer::new().format(number).as_bytes());
    text.add(b" (/a))\n");
}
