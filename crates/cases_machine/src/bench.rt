// A line of the script is carried out. `NAME = TEXT`: the text is built. `>NAME`: the set is written back. `^N NAME`: what was written, N
// bytes, is built. `!AT BYTE NAME`: the worked example with one byte changed is written back. `?`: something asked. `=`: something put in
// place. `;`: a remark, shown: what the offsets after it are.
use cases::answers::{Answer, Number, print_line, print_named};
use cases::bytes::lent::{Lent, put};
use cases::bytes::script::{self, Line, byte, front, number, numbers, split_word, trimmed};
use cases::bytes::texts::{MAX_TEXT, Text, expand, split_name};
use machine::build;
use machine::layout::AUTOMATON_SIZE;
use machine::write::write_set;
use notation::layout::WORD_SIZE;
use notation::limits::MAX_SET_BYTES;
use notation::reads::{byte_at, word_at};
use std::io;

const EXAMPLE: &[u8] =
    b"(folders\n(folder 3 (//clock/drift) (/lock/*/drift))\n(folder 8 (//*/lock))\n)\n";

// With a byte after it.
const AUTOMATON_ROOM: usize = AUTOMATON_SIZE + 1;

// What the calls are lent.
#[derive(Drop)]
pub struct Bench {
    automaton: Lent<AUTOMATON_ROOM>,
    out: Lent<MAX_SET_BYTES>,
}

impl script::Bench for Bench {
    fn new() -> Self {
        Bench {
            automaton: Lent::new(7, AUTOMATON_SIZE),
            out: Lent::new(b'.', MAX_SET_BYTES),
        }
    }

    fn carry_out(&mut self, rt: &impl Print, sign: u8, line: Line) -> io::Result<()> {
        // After a size past its buffer every line is passed over.
        if !self.automaton.fits() || !self.out.fits() {
            return Ok(());
        }
        match sign {
            b';' => rt.write_all(line.rest),
            b'>' => self.write_back(rt, trimmed(line.rest)),
            b'^' => self.build_again(rt, line.rest),
            b'!' => self.damage(rt, line.rest),
            b'?' => self.ask(rt, line.rest),
            b'=' => {
                self.put(line.rest);
                Ok(())
            }
            _ => self.build_text(rt, trimmed(line.whole)),
        }
    }
}

impl Bench {
    fn build_text(&mut self, rt: &impl Print, line: &[u8]) -> io::Result<()> {
        let (name, text) = split_name(line);
        let answer = self.expand_and_build(text);
        print_named(rt, name, answer)
    }

    // Never inlined: the text's array is gone when the answer is printed.
    #[inline(never)]
    fn expand_and_build(&mut self, text: &[u8]) -> Number {
        let mut set = Text::<MAX_TEXT>::new();
        expand(&mut set, text);
        Number(build::build(set.as_slice(), self.automaton.get_mut()))
    }

    #[inline(never)]
    fn build_again(&mut self, rt: &impl Print, rest: &[u8]) -> io::Result<()> {
        let (size, name) = split_word(rest);
        let text = front(self.out.get(), number(size));
        let answer = build::build(text, self.automaton.get_mut());
        print_named(rt, trimmed(name), Number(answer))
    }

    fn write_back(&mut self, rt: &impl Print, name: &[u8]) -> io::Result<()> {
        let answer = write_set(self.automaton.get(), self.out.get_mut());
        print_named(rt, name, Answer("bytes ", answer))
    }

    #[inline(never)]
    fn damage(&mut self, rt: &impl Print, rest: &[u8]) -> io::Result<()> {
        let (at, rest) = split_word(rest);
        let (value, name) = split_word(rest);
        let _ = build::build(EXAMPLE, self.automaton.get_mut());
        put(self.automaton.get_mut(), number(at), byte(value));
        self.write_back(rt, trimmed(name))
    }

    // `four AT`, `word AT`, `byte AT` of the automaton, and `text N`: the first bytes of what was written. The first byte tells them apart.
    #[inline(never)]
    fn ask(&self, rt: &impl Print, question: &[u8]) -> io::Result<()> {
        let (_, rest) = split_word(question);
        let at = number(rest);
        let a = self.automaton.get();
        match question {
            [b'f', ..] => print_four(rt, a, at),
            [b'w', ..] => println!(rt; "at {at}: {}", word_at(a, at)),
            [b'b', ..] => println!(rt; "byte {at}: {}", byte_at(a, at)),
            _ => print_line(rt, front(self.out.get(), at)),
        }
    }

    // `sizes AUTOMATON OUT`, `fill BYTE`: every byte of the automaton. The first byte tells them apart.
    fn put(&mut self, line: &[u8]) {
        let (_, rest) = split_word(line);
        match line {
            [b's', ..] => {
                let [automaton, out] = numbers::<2>(rest);
                self.automaton.lend(automaton);
                self.out.lend(out);
            }
            _ => self.automaton.get_mut().fill(byte(rest)),
        }
    }
}

fn print_four(rt: &impl Print, a: &[u8], at: usize) -> io::Result<()> {
    if AUTOMATON_SIZE < at {
        return Ok(());
    }
    println!(rt;
        "at {at}: {} {} {} {}",
        word_at(a, at),
        word_at(a, at + WORD_SIZE),
        word_at(a, at + 2 * WORD_SIZE),
        word_at(a, at + 3 * WORD_SIZE)
    )
}
