// A script of text: the lines of standard input, and the numbers in a line. What cannot be read is an error. `bytes::script` takes any bytes.
use anyhow::{Context, Result, ensure};
use std::alloc::Global;
use std::io::{BufRead, BufReader, Input};

// A line of a script that is not empty: all of it, and what stands after its first character.
#[derive(Clone, Copy)]
pub struct Line<'a> {
    pub whole: &'a str,
    pub rest: &'a str,
}

// What the lines of a script work on.
pub trait Bench: Drop {
    fn new(alloc: Global) -> Result<Self>;

    // Carries out a line that begins with this character.
    fn carry_out(&mut self, rt: &(impl Print + AllocGlobal), sign: char, line: Line) -> Result<()>;
}

// Carries out each line that is not empty, without its line end, up to the first that fails.
pub fn carry_out<B: Bench>(rt: &(impl Input + Print + AllocGlobal)) -> Result<()> {
    let mut bench = B::new(rt.alloc())?;
    for line in BufReader::new(rt.alloc(), rt.reader())?.lines(rt.alloc()) {
        let line = line?;
        let whole = line.as_str();
        let mut rest = whole.chars();
        if let Some(sign) = rest.next() {
            let rest = rest.as_str();
            bench.carry_out(rt, sign, Line { whole, rest })?;
        }
    }
    Ok(())
}

// A line's first word, and what stands after it.
pub fn split_word(line: &str) -> (&str, &str) {
    line.split_once(' ').unwrap_or((line, ""))
}

pub fn number(word: &str) -> Result<usize> {
    word.parse::<usize>()
        .context(format_args!("reading the number {word:?}"))
}

pub fn byte(word: &str) -> Result<u8> {
    word.parse::<u8>()
        .context(format_args!("reading the byte {word:?}"))
}

// `AT BYTE`: a place in a buffer, and what is put there.
pub fn place(text: &str) -> Result<(usize, u8)> {
    let (at, value) = split_word(text);
    Ok((number(at)?, byte(value)?))
}

// So many numbers with spaces between them, and nothing else.
pub fn numbers<const N: usize>(text: &str) -> Result<[usize; N]> {
    let mut found = [0; N];
    let mut words = text.split(' ');
    for place in found.iter_mut() {
        *place = number(words.next().context("a number is missing")?)?;
    }
    ensure!(words.next().is_none(), "more than {N} numbers");
    Ok(found)
}
