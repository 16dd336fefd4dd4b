// A line of the script is carried out. `NAME = TEXT`: the text is read into the part. `?`: something asked. `=size N`: the part is the first
// N bytes of the buffer from here on. `=fill N`: every byte of the part is N. `>N NAME`: the set is written to N bytes. `#`: printed as it is.
// `;`: a remark.
use crate::stored;
use cases::answers::{Number, YesNo, print_named};
use cases::bytes::lent::Lent;
use cases::bytes::script::{self, Line, byte, number, split_word, trimmed};
use cases::bytes::texts::{MAX_TEXT, Text, expand, split_name};
use notation::layout::SET_SIZE;
use notation::read::read_set;
use notation::write::write_text;
use std::io;
use text::names;

// With a byte after it.
const PART_ROOM: usize = SET_SIZE + 1;

// The part that a set is read into.
#[derive(Drop)]
pub struct Bench {
    part: Lent<PART_ROOM>,
}

impl script::Bench for Bench {
    fn new() -> Self {
        Bench {
            part: Lent::new(0, SET_SIZE),
        }
    }

    fn carry_out(&mut self, rt: &impl Print, sign: u8, line: Line) -> io::Result<()> {
        // After a size past the buffer every line is passed over.
        if !self.part.fits() {
            return Ok(());
        }
        match sign {
            b';' => Ok(()),
            b'#' => rt.write_all(line.rest),
            b'>' => self.write_back(rt, line.rest),
            b'?' => self.ask(rt, line.rest),
            b'=' => {
                self.put(line.rest);
                Ok(())
            }
            _ => self.read(rt, trimmed(line.whole)),
        }
    }
}

impl Bench {
    fn read(&mut self, rt: &impl Print, line: &[u8]) -> io::Result<()> {
        let (name, text) = split_name(line);
        let answer = self.expand_and_read(text);
        print_named(rt, name, answer)
    }

    // Never inlined: the text's array is gone when the answer is printed.
    #[inline(never)]
    fn expand_and_read(&mut self, text: &[u8]) -> Number {
        let mut set = Text::<MAX_TEXT>::new();
        expand(&mut set, text);
        Number(read_set(set.as_slice(), self.part.get_mut()))
    }

    // Into so many of 78 bytes, each a point before.
    #[inline(never)]
    fn write_back(&self, rt: &impl Print, rest: &[u8]) -> io::Result<()> {
        let (size, name) = split_word(rest);
        let mut page = [b'.'; 78];
        let Some(out) = page.get_mut(..number(size)) else {
            return Ok(());
        };
        match write_text(self.part.get(), out) {
            Ok(length) => print_named(rt, trimmed(name), length)?,
            Err(_) => print_named(rt, trimmed(name), "short")?,
        }
        rt.write_all(out)
    }

    // `name NAME`, `byte BYTE`, and of the part: `counts`, `edges`, `folder AT`, `of NUMBER`, `path PLACE`, `step AT`, `label AT`. The first
    // byte tells them apart.
    #[inline(never)]
    fn ask(&self, rt: &impl Print, question: &[u8]) -> io::Result<()> {
        let (_, rest) = split_word(question);
        let part = self.part.get();
        match question {
            [b'n', ..] => ask_name(rt, trimmed(rest)),
            [b'b', ..] => ask_byte(rt, byte(rest)),
            [b'c', ..] => stored::counts(rt, part),
            [b'e', ..] => stored::edges(rt, part),
            [b'f', ..] => stored::folder(rt, part, number(rest)),
            [b'o', ..] => stored::numbered(rt, part, number(rest)),
            [b'p', ..] => stored::path(rt, part, number(rest)),
            [b's', ..] => stored::step(rt, part, number(rest)),
            _ => stored::label(rt, part, number(rest)),
        }
    }

    // `size N`, `fill N`. The first byte tells them apart.
    fn put(&mut self, line: &[u8]) {
        let (_, rest) = split_word(line);
        match line {
            [b's', ..] => self.part.lend(number(rest)),
            _ => self.part.get_mut().fill(byte(rest)),
        }
    }
}

fn ask_name(rt: &impl Print, name: &[u8]) -> io::Result<()> {
    let form = YesNo(names::name_form(name));
    let long = YesNo(names::too_long(name));
    print!(rt; "name ")?;
    print_named(rt, name, format_args!("form {form}, too long {long}"))
}

fn ask_byte(rt: &impl Print, byte: u8) -> io::Result<()> {
    let class = names::class_of(byte) as u8;
    let begins = YesNo(names::begins_name(byte));
    let inside = YesNo(names::in_name(byte));
    println!(rt; "byte {byte}: class {class}, begins {begins}, inside {inside}")
}
