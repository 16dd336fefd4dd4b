// How answers print.
use std::fmt::Write;
use std::{fmt, io};
use text::refusals::Refusal;

// Bytes as text; one that does not print stands as `?`.
#[derive(Clone, Copy)]
pub struct Shown<'a>(pub &'a [u8]);

impl fmt::Display for Shown<'_> {
    fn fmt<W: fmt::Write>(&self, f: &mut fmt::Formatter<W>) -> fmt::Result {
        for byte in self.0 {
            f.write_char(match byte {
                b' '..=b'~' => char::from(*byte),
                _ => '?',
            })?;
        }
        Ok(())
    }
}

#[derive(Clone, Copy)]
pub struct YesNo(pub bool);

impl fmt::Display for YesNo {
    fn fmt<W: fmt::Write>(&self, f: &mut fmt::Formatter<W>) -> fmt::Result {
        f.write_str(if self.0 { "yes" } else { "no" })
    }
}

// What a call answered: a value after a word, or the number of the refusal.
#[derive(Clone, Copy)]
pub struct Answer<T>(pub &'static str, pub Result<T, Refusal>);

impl<T: fmt::Display> fmt::Display for Answer<T> {
    fn fmt<W: fmt::Write>(&self, f: &mut fmt::Formatter<W>) -> fmt::Result {
        let word = self.0;
        match &self.1 {
            Ok(value) => write!(f, "{word}{value}"),
            Err(refusal) => write!(f, "refused {}", refusal.number()),
        }
    }
}

// The number of the refusal, 0 for none.
#[derive(Clone, Copy)]
pub struct Number(pub Result<(), Refusal>);

impl fmt::Display for Number {
    fn fmt<W: fmt::Write>(&self, f: &mut fmt::Formatter<W>) -> fmt::Result {
        let number = self.0.map_or_else(Refusal::number, |()| 0);
        write!(f, "{number}")
    }
}

// Bytes as they are, which may be no text, and a line end.
pub fn print_line(rt: &impl Print, bytes: &[u8]) -> io::Result<()> {
    rt.write_all(bytes)?;
    println!(rt; "")
}

// A name as it is, and what was answered. Never inlined: the frame with the buffers of a bench stays free of what printing takes.
#[inline(never)]
pub fn print_named<D: fmt::Display + Drop>(
    rt: &impl Print,
    name: &[u8],
    answer: D,
) -> io::Result<()> {
    rt.write_all(name)?;
    println!(rt; ": {answer}")
}
