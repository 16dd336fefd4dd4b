// Texts in a line, put together on the heap. `\n` is a line end, `\013` the byte 13, `{16*/a}` sixteen times `/a`, and `<1000 1128>` the lines of
// folders numbered from 1000, below 1128. Any other character stands for itself. `bytes::texts` puts them into an array.
ghost use Rattle.std.specs.Prelude.{◌≤◌, length, IfOk};

use crate::script::{byte, number};
use anyhow::{Context, Result, ensure};
use std::alloc::Global;
use std::io::Write;

// A line `NAME = TEXT`. The spaces about the sign are left out.
pub fn split_name(line: &str) -> Result<(&str, &str)> {
    let (name, text) = line.split_once('=').context("no =")?;
    Ok((
        name.strip_suffix(' ').unwrap_or(name),
        text.strip_prefix(' ').unwrap_or(text),
    ))
}

pub fn expand(alloc: Global, line: &str) -> Result<Vec<u8>> {
    let mut text = Vec::new(alloc);
    let mut rest = line;
    // No iterator is plainer: how far a turn goes is known once its piece is read, which may fail.
    while let Some((first, tail)) = rest.split_at_checked(1) {
        rest = match first {
            "\\" => escape(&mut text, tail)?,
            "{" => repeat(&mut text, tail)?,
            "<" => folders(&mut text, tail)?,
            _ => plain(&mut text, first, tail)?,
        };
    }
    ensure!(rest.is_empty(), "not of ASCII: {rest}");
    Ok(text)
}

fn plain<'a>(text: &mut Vec<u8>, first: &str, tail: &'a str) -> Result<&'a str>
    ensures { IfOk result (λ rest. length rest.now ≤ length tail.now) }
{
    text.extend_from_slice(first.as_bytes())?;
    Ok(tail)
}

// What stands after a `\`. Each answers what is left after its piece.
fn escape<'a>(text: &mut Vec<u8>, tail: &'a str) -> Result<&'a str>
    ensures { IfOk result (λ rest. length rest.now ≤ length tail.now) }
{
    if let Some(rest) = tail.strip_prefix('n') {
        text.push(b'\n')?;
        return Ok(rest);
    }
    let (digits, rest) = tail.split_at_checked(3).context("no three digits")?;
    text.push(byte(digits)?)?;
    Ok(rest)
}

fn repeat<'a>(text: &mut Vec<u8>, tail: &'a str) -> Result<&'a str>
    ensures { IfOk result (λ rest. length rest.now ≤ length tail.now) }
{
    let (inner, rest) = tail.split_once('}').context("no }")?;
    let (times, piece) = inner.split_once('*').context("no *")?;
    for _ in 0..number(times)? {
        text.extend_from_slice(piece.as_bytes())?;
    }
    Ok(rest)
}

fn folders<'a>(text: &mut Vec<u8>, tail: &'a str) -> Result<&'a str>
    ensures { IfOk result (λ rest. length rest.now ≤ length tail.now) }
{
    let (inner, rest) = tail.split_once('>').context("no >")?;
    let (first, end) = inner.split_once(' ').context("no range")?;
    for folder in number(first)?..number(end)? {
        writeln!(text, "(folder {folder} (/a))")?;
    }
    Ok(rest)
}
