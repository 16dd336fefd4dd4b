// Reports made of repeated pieces. What holds an array is never inlined: arrays of several cases would stand in one frame.
use crate::bench::file;
use cases::bytes::texts::Text;
use std::fmt::Write;
use std::io;

// Bytes of a report at most: one more than filing takes.
const ROOM: usize = 65537;

fn file_named(rt: &impl Print, name: &str, report: &[u8]) -> io::Result<()> {
    let set = "(folders\n(folder 1 (//a))\n)\n";
    file(rt, name.as_bytes(), set, report)
}

// Elements in one another, other text, and as many end tags.
#[inline(never)]
pub fn nested(
    rt: &impl Print,
    name: &str,
    count: usize,
    middle: &str,
    closes: usize,
) -> io::Result<()> {
    let mut report = Text::<ROOM>::new();
    report.times(b"<a>", count);
    report.add(middle.as_bytes());
    report.times(b"</a>", closes);
    file_named(rt, name, report.as_slice())
}

// An element with text of so many bytes.
#[inline(never)]
pub fn sized(rt: &impl Print, name: &str, count: usize) -> io::Result<()> {
    let mut report = Text::<ROOM>::new();
    report.add(b"<a>");
    report.times(b"x", count);
    report.add(b"</a>");
    file_named(rt, name, report.as_slice())
}

// A tag with so many attributes of different names, n0000, n0001 and so on, and one more of this name.
#[inline(never)]
pub fn attributes(rt: &impl Print, name: &str, count: usize, last: &str) -> io::Result<()> {
    let mut report = Text::<ROOM>::new();
    report.add(b"<a");
    for i in 0..count {
        let _ = write!(report, " n{i:04}=''");
    }
    let _ = write!(report, " {last}=''/>");
    file_named(rt, name, report.as_slice())
}

// A tag with so many attributes of one name.
#[inline(never)]
pub fn alike(rt: &impl Print, name: &str, count: usize) -> io::Result<()> {
    let mut report = Text::<ROOM>::new();
    report.add(b"<a");
    report.times(b" b=''", count);
    report.add(b"/>");
    file_named(rt, name, report.as_slice())
}
