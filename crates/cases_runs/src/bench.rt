// A line of the script is carried out. `# TITLE`. `(`: a set, built. `?`: something asked. `=`: something put in place. `;`: a remark.
// Any other line is a call that changes the run.
use cases::answers::{Answer, YesNo};
use cases::bytes::lent::{Lent, put};
use cases::bytes::script::{self, Line, number, numbers, split_word, trimmed};
use cases::bytes::texts::{Text, expand};
use machine::build;
use machine::layout::AUTOMATON_SIZE;
use machine::run::layout::RUN_SIZE;
use machine::run::{asking, close, open, start};
use notation::{FolderNumber, PathPlace, reads};
use std::fmt::{Display, Write};
use std::io;
use stored::counters::Counters;

// Bytes of a set at most.
const MAX_SET: usize = 200;

// Bytes of an answer at most, but for a name: three numbers of 20 digits, and their words, take less.
const MAX_SHORT: usize = 80;

// Each with a byte after it.
const AUTOMATON_ROOM: usize = AUTOMATON_SIZE + 1;

const RUN_ROOM: usize = RUN_SIZE + 1;

// What the calls are lent.
#[derive(Drop)]
pub struct Bench {
    automaton: Lent<AUTOMATON_ROOM>,
    run: Lent<RUN_ROOM>,
    counters: Counters,
}

impl script::Bench for Bench {
    fn new() -> Self {
        Bench {
            automaton: Lent::new(7, AUTOMATON_SIZE),
            run: Lent::new(7, RUN_SIZE),
            counters: Counters::none(),
        }
    }

    fn carry_out(&mut self, rt: &impl Print, sign: u8, line: Line) -> io::Result<()> {
        // After a size past its buffer every line is passed over.
        if !self.automaton.fits() || !self.run.fits() {
            return Ok(());
        }
        let (_, rest) = split_word(line.whole);
        match sign {
            b'#' => rt.write_all(rest),
            b'(' => {
                self.build(trimmed(line.whole));
                Ok(())
            }
            b'?' => self.ask(rt, line.rest, rest),
            b'=' => {
                self.put(line.rest, rest);
                Ok(())
            }
            _ => self.call(rt, sign, rest),
        }
    }
}

impl Bench {
    // A set that is refused is passed over.
    fn build(&mut self, line: &[u8]) {
        let mut set = Text::<MAX_SET>::new();
        expand(&mut set, line);
        let _ = build::build(set.as_slice(), self.automaton.get_mut());
    }

    // `start`, `open NAME`, `close NAME`, and `deepen N`: so many opens of `a` that are not printed. The first byte tells them apart.
    fn call(&mut self, rt: &impl Print, sign: u8, rest: &[u8]) -> io::Result<()> {
        let a = self.automaton.get();
        let run = self.run.get_mut();
        let counters = &mut self.counters;
        let name = trimmed(rest);
        match sign {
            b's' => {
                let answer = start::start(a, run, counters).map(|()| "accepted");
                print_started(rt, Answer("", answer))
            }
            b'o' => {
                let answer = open::open(a, run, counters, name);
                print_called(rt, "open", name, Answer("accepted ", answer))
            }
            b'c' => {
                let answer = close::close(a, run, counters, name).map(|()| "accepted");
                print_called(rt, "close", name, Answer("", answer))
            }
            b'd' => {
                for _ in 0..number(rest) {
                    let _ = open::open(a, run, counters, b"a");
                }
                Ok(())
            }
            _ => Ok(()),
        }
    }

    // `?path PLACE`, `?step PLACE STEP`, `?folder NUMBER`, `?length` of the prefix, `?name DEPTH`, `?bytes` at the ends, and `?counters`. The
    // first byte tells them apart.
    fn ask(&self, rt: &impl Print, question: &[u8], rest: &[u8]) -> io::Result<()> {
        let a = self.automaton.get();
        let run = self.run.get();
        let [n, step] = numbers::<2>(rest);
        match question {
            [b'p', ..] => {
                let answer = asking::path_matched(a, run, PathPlace(n)).map(YesNo);
                print_asked(rt, "path", n, Answer("", answer))
            }
            [b's', ..] => self.ask_step(rt, n, step),
            [b'f', ..] => {
                let answer = asking::folder_matched(a, run, FolderNumber(n)).map(YesNo);
                print_asked(rt, "folder", n, Answer("", answer))
            }
            [b'l', ..] => self.ask_prefix(rt),
            [b'n', ..] => self.ask_name(rt, n),
            [b'b', ..] => self.print_ends(rt),
            _ => self.print_counters(rt),
        }
    }

    fn ask_step(&self, rt: &impl Print, n: usize, step: usize) -> io::Result<()> {
        let answer = asking::step_active(self.automaton.get(), self.run.get(), PathPlace(n), step);
        print_short(
            rt,
            &format_args!("  path {n} step {step} {}\n", Answer("", answer.map(YesNo))),
        )
    }

    fn ask_prefix(&self, rt: &impl Print) -> io::Result<()> {
        let answer = asking::prefix_length(self.automaton.get(), self.run.get());
        print_short(rt, &format_args!("  prefix {}\n", Answer("", answer)))
    }

    // The name between brackets, and the refusal beside it.
    fn ask_name(&self, rt: &impl Print, depth: usize) -> io::Result<()> {
        let a = self.automaton.get();
        let run = self.run.get();
        let answer = asking::name_refusal(a, run, depth).map(|()| "accepted");
        print_short(rt, &format_args!("  name {depth} ("))?;
        rt.write_all(asking::open_name(a, run, depth))?;
        print_short(rt, &format_args!(") {}\n", Answer("", answer)))
    }

    // The last byte that is lent of each buffer, and the byte after it.
    fn print_ends(&self, rt: &impl Print) -> io::Result<()> {
        for (buffer, size) in [
            (self.automaton.get(), AUTOMATON_SIZE),
            (self.run.get(), RUN_SIZE),
        ] {
            for at in [size - 1, size] {
                print_byte(rt, buffer, at)?;
            }
        }
        Ok(())
    }

    fn print_counters(&self, rt: &impl Print) -> io::Result<()> {
        let Counters {
            opens,
            closes,
            moves,
        } = self.counters;
        print_short(rt, &format_args!("  counters {opens} {closes} {moves}\n"))
    }

    // `=automaton AT BYTE`, `=run AT BYTE`, `=sizes AUTOMATON RUN`, `=counters OPENS CLOSES MOVES`. The first byte tells them apart.
    fn put(&mut self, line: &[u8], rest: &[u8]) {
        let [n, m, moves] = numbers::<3>(rest);
        match line {
            [b'a', ..] => put_byte(self.automaton.get_mut(), n, m),
            [b'r', ..] => put_byte(self.run.get_mut(), n, m),
            [b's', ..] => {
                self.automaton.lend(n);
                self.run.lend(m);
            }
            _ => {
                self.counters = Counters {
                    opens: n,
                    closes: m,
                    moves,
                }
            }
        }
    }
}

// A number that is no byte is not put.
fn put_byte(part: &mut [u8], at: usize, value: usize) {
    if let Ok(value) = u8::try_from(value) {
        put(part, at, value);
    }
}

// What is shorter than the text, printed by way of it: `println!` takes 2.6 kB of stack, and the buffers leave no such room. For the same
// reason each form of answer has a function: what they hold then shares its place once they are inlined.
#[inline(never)]
fn print_short<D: Display>(rt: &impl Print, shown: &D) -> io::Result<()> {
    let mut text = Text::<MAX_SHORT>::new();
    let _ = write!(text, "{shown}");
    rt.write_all(text.as_slice())
}

fn print_asked(rt: &impl Print, asked: &str, n: usize, answer: Answer<YesNo>) -> io::Result<()> {
    print_short(rt, &format_args!("  {asked} {n} {answer}\n"))
}

fn print_started<D: Display + Drop>(rt: &impl Print, answer: D) -> io::Result<()> {
    print_short(rt, &format_args!("  start {answer}\n"))
}

fn print_byte(rt: &impl Print, buffer: &[u8], at: usize) -> io::Result<()> {
    print_short(
        rt,
        &format_args!("  byte {at} {}\n", reads::byte_at(buffer, at)),
    )
}

// A call of a name, and what it answered.
fn print_called<D: Display + Drop>(
    rt: &impl Print,
    call: &str,
    name: &[u8],
    answer: D,
) -> io::Result<()> {
    print_short(rt, &format_args!("  {call} "))?;
    rt.write_all(name)?;
    print_short(rt, &format_args!(" {answer}\n"))
}
