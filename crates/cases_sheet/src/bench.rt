// A line of the script is carried out. `(`: a set, built. `<`: a report, filed. `=`: something put in place. `;`: a remark, shown. Any other
// line names a case: the sheet is written and shown.
use cases::answers::{Answer, Number, print_named};
use cases::bytes::lent::{Lent, put};
use cases::bytes::script::{self, Line, byte, numbers, place, split_word, trimmed};
use cases::bytes::texts::{MAX_TEXT, Text, expand};
use filing::report::file_report;
use machine::build;
use machine::layout::AUTOMATON_SIZE;
use machine::run::layout::RUN_SIZE;
use sheets::limits::SHEET_SIZE;
use sheets::sheet::write_sheet;
use std::io;
use stored::counters::Counters;

// Each with bytes after it.
const AUTOMATON_ROOM: usize = AUTOMATON_SIZE + 1;

const RUN_ROOM: usize = RUN_SIZE + 1;

const SHEET_ROOM: usize = SHEET_SIZE + 1000;

// What writing a sheet is lent; and the byte that fills the last before a sheet is written into it. A set is built in the whole of the first,
// a report filed in the whole of both.
#[derive(Drop)]
pub struct Bench {
    automaton: Lent<AUTOMATON_ROOM>,
    run: Lent<RUN_ROOM>,
    out: Lent<SHEET_ROOM>,
    filler: u8,
}

impl script::Bench for Bench {
    fn new() -> Self {
        Bench {
            automaton: Lent::new(7, AUTOMATON_SIZE),
            run: Lent::new(7, RUN_SIZE),
            out: Lent::new(7, SHEET_SIZE),
            filler: b'.',
        }
    }

    fn carry_out(&mut self, rt: &impl Print, sign: u8, line: Line) -> io::Result<()> {
        match sign {
            b';' => rt.write_all(line.rest),
            b'(' => self.build(rt, trimmed(line.whole)),
            b'<' => self.file(rt, trimmed(line.whole)),
            b'=' => {
                self.put(line.rest);
                Ok(())
            }
            _ => self.show(rt, trimmed(line.whole)),
        }
    }
}

impl Bench {
    fn build(&mut self, rt: &impl Print, line: &[u8]) -> io::Result<()> {
        let answer = self.expand_and_build(line);
        print_named(rt, b"built", answer)
    }

    // Never inlined: the text's array is gone when the answer is printed.
    #[inline(never)]
    fn expand_and_build(&mut self, line: &[u8]) -> Number {
        let mut set = Text::<MAX_TEXT>::new();
        expand(&mut set, line);
        Number(build::build(set.as_slice(), self.automaton.whole_mut()))
    }

    // A report stands as it is: its tags would be taken for folders.
    fn file(&mut self, rt: &impl Print, line: &[u8]) -> io::Result<()> {
        let answer = self.file_whole(line);
        print_named(rt, b"filed", answer)
    }

    // Never inlined, as what filing holds would stay beside the buffers.
    #[inline(never)]
    fn file_whole(&mut self, report: &[u8]) -> Number {
        Number(file_report(
            self.automaton.whole(),
            self.run.whole_mut(),
            &mut Counters::none(),
            report,
        ))
    }

    // `automaton AT BYTE`, `run AT BYTE`, `sizes AUTOMATON RUN SHEET`, `filler BYTE`. The first byte tells them apart.
    fn put(&mut self, line: &[u8]) {
        let (_, rest) = split_word(line);
        let (at, value) = place(rest);
        match line {
            [b'a', ..] => put(self.automaton.whole_mut(), at, value),
            [b'r', ..] => put(self.run.whole_mut(), at, value),
            [b's', ..] => {
                let [automaton, run, out] = numbers::<3>(rest);
                self.automaton.lend(automaton);
                self.run.lend(run);
                self.out.lend(out);
            }
            _ => self.filler = byte(rest),
        }
    }

    // The sheet, and how many bytes after it were not written to, up to the first that was; the name alone where the sheet's size is past
    // its buffer.
    #[inline(never)]
    fn show(&mut self, rt: &impl Print, name: &[u8]) -> io::Result<()> {
        if !self.out.fits() {
            return rt.write_all(name);
        }
        let out = self.out.get_mut();
        out.fill(self.filler);
        let answer = write_sheet(self.automaton.get(), self.run.get(), out);
        print_named(rt, name, Answer("bytes ", answer))?;
        let (sheet, rest) = out.split_at(answer.unwrap_or(0).min(out.len()));
        rt.write_all(sheet)?;
        let stayed = rest.iter().take_while(|byte| **byte == self.filler).count();
        println!(rt; "stayed {stayed} of {}", rest.len())
    }
}
