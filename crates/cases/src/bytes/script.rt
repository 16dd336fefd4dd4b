// A script: the lines of standard input, and the words and numbers in a line. Any bytes are a script, and any line says something.
ghost use Rattle.std.specs.Prelude.{◌≡◌, ◌+◌, ◌-◌, ◌<◌, ◌≤◌, [], length, take, IfSome};

use std::io;
use std::io::Input;

// Bytes of a script at most; what lies past them is not read.
const MAX_SCRIPT: usize = 65536;

// A line of a script that is not empty, its line end too: all of it, and what stands after its first byte.
#[derive(Clone, Copy)]
pub struct Line<'a> {
    pub whole: &'a [u8],
    pub rest: &'a [u8],
}

// What the lines of a script work on.
pub trait Bench: Drop {
    fn new() -> Self;

    // Carries out a line that begins with this byte. An error is one of printing.
    fn carry_out(&mut self, rt: &impl Print, sign: u8, line: Line) -> io::Result<()>;
}

// Carries out each line that is not empty; what cannot be printed is left out. A line has a byte at least and ends within the script, by
// what `split_inclusive` promises.
pub fn carry_out<B: Bench>(rt: &(impl Input + Print)) {
    let mut script = [0; MAX_SCRIPT];
    let size = read(&mut rt.reader(), &mut script);
    let mut bench = B::new();
    for whole in script[..size].split_inclusive(|byte| *byte == b'\n') {
        if let [sign, rest @ ..] = whole
            && *sign != b'\n'
        {
            let _ = bench.carry_out(rt, *sign, Line { whole, rest });
        }
    }
}

// Reads until the reader ends or fails or the buffer is full; the count of bytes.
fn read<R: io::Read>(from: &mut R, buffer: &mut [u8]) -> usize
    ensures { result ≤ length buffer.new }
{
    let mut size = 0;
    while let Ok(more) = from.read(&mut buffer[size..])
        && more > 0
    {
        size += more;
    }
    size
}

// What stands before the first such byte, and after it.
pub fn split_once(bytes: &[u8], mark: u8) -> Option<(&[u8], &[u8])>
    ensures { IfSome result (λ p. length p.0.now + 1 + length p.1.now ≡ length bytes.now) }
{
    let at = bytes.iter().position(|byte| *byte == mark)?;
    Some((&bytes[..at], &bytes[at + 1..]))
}

// The same; all of it and nothing, where there is no such byte.
pub fn split(bytes: &[u8], mark: u8) -> (&[u8], &[u8])
    ensures before { length result.0.now ≤ length bytes.now }
    ensures after { length result.1.now ≤ length bytes.now }
{
    split_once(bytes, mark).unwrap_or((bytes, &[]))
}

// A line's first word, and what stands after it.
pub fn split_word(line: &[u8]) -> (&[u8], &[u8]) {
    split(line, b' ')
}

// All but the last byte: a line without its line end.
pub fn trimmed(bytes: &[u8]) -> &[u8]
    ensures { result.now ≡ take (length bytes.now - 1) bytes.now }
{
    bytes.split_last().map_or(bytes, |(_, rest)| rest)
}

// So many of the first bytes; none where there are fewer.
pub fn front(bytes: &[u8], size: usize) -> &[u8]
    ensures within { size ≤ length bytes.now → result.now ≡ take size bytes.now }
    ensures past { length bytes.now < size → result.now ≡ [] }
{
    bytes.get(..size).unwrap_or(&[])
}

// The digits that a text begins with, five at most after its zeros.
pub fn number(text: &[u8]) -> usize {
    text.iter()
        .take_while(|byte| byte.is_ascii_digit())
        .fold(0, |number, digit| with_digit(number, *digit))
}

fn with_digit(number: usize, digit: u8) -> usize {
    if number > 9999 {
        return number;
    }
    number * 10 + usize::from(digit.saturating_sub(b'0'))
}

pub fn byte(text: &[u8]) -> u8 {
    (number(text) % 256) as u8
}

// `AT BYTE`: a place in a buffer, and what is put there.
pub fn place(text: &[u8]) -> (usize, u8) {
    let (at, value) = split_word(text);
    (number(at), byte(value))
}

// So many numbers with a space between them, 0 for one that is missing.
pub fn numbers<const N: usize>(text: &[u8]) -> [usize; N] {
    let mut found = [0; N];
    for (place, word) in found.iter_mut().zip(text.split(|byte| *byte == b' ')) {
        *place = number(word);
    }
    found
}
