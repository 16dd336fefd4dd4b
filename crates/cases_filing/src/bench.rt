// Files a report with a set and prints what the program prints. The buffers of a case are arrays of its function: in a struct with a
// constructor they are copied. It is never inlined: buffers of several cases would stand in one frame.
use cases::answers::{Number, Shown};
use cases::bytes::lent::put;
use cases::bytes::script::front;
use filing::limits::LISTING_SIZE;
use filing::listing::{write_listing, write_refused};
use filing::report::file_report;
use machine::build::build;
use machine::layout::AUTOMATON_SIZE;
use machine::run::layout::RUN_SIZE;
use notation::layout::{PATH_LENGTH_IN, PATH_SIZE, PATHS_AT, TEXT_LEN_AT};
use std::io;
use stored::counters::Counters;
use text::refusals::Refusal;

const NO_FOLDERS: &str = "(folders\n)\n";

// The set of a case is built; it and the name of the case are printed.
fn build_named(rt: &impl Print, set: &str, name: &[u8], automaton: &mut [u8]) -> io::Result<()> {
    let _ = build(set.as_bytes(), automaton);
    println!(rt; "{set}{}", Shown(name))
}

// What was written at the start of a page, or that it was refused.
fn print_page(rt: &impl Print, answer: Result<usize, Refusal>, page: &[u8]) -> io::Result<()> {
    match answer {
        Ok(length) => rt.write_all(front(page, length)),
        Err(_) => println!(rt; "no page"),
    }
}

fn print_listing(rt: &impl Print, a: &[u8], run: &[u8], counters: Counters) -> io::Result<()> {
    let mut page = [0; LISTING_SIZE];
    let answer = write_listing(a, run, counters, &mut page);
    print_page(rt, answer, &page)
}

fn print_refused(rt: &impl Print, refusal: Refusal) -> io::Result<()> {
    let mut page = [0; LISTING_SIZE];
    let answer = write_refused(refusal.number(), &mut page);
    print_page(rt, answer, &page)
}

fn print_answer(rt: &impl Print, answer: Result<(), Refusal>) -> io::Result<()> {
    println!(rt; "answer {}", Number(answer))
}

// The set and the name of a case, and what filing prints.
#[inline(never)]
pub fn file(rt: &impl Print, name: &[u8], set: &str, report: &[u8]) -> io::Result<()> {
    let mut automaton = [0; AUTOMATON_SIZE];
    let mut run = [0; RUN_SIZE];
    let mut counters = Counters::none();
    build_named(rt, set, name, &mut automaton)?;
    match file_report(&automaton, &mut run, &mut counters, report) {
        Ok(()) => print_listing(rt, &automaton, &run, counters),
        Err(refusal) => print_refused(rt, refusal),
    }
}

// A report with a set that has no folders.
pub fn judge(rt: &impl Print, report: &[u8]) -> io::Result<()> {
    file(rt, report, NO_FOLDERS, report)
}

// A report after another on the same run: the number answered, and what is left.
#[inline(never)]
pub fn left(rt: &impl Print, report: &[u8]) -> io::Result<()> {
    let set = "(folders\n(folder 1 (//a))\n(folder 2 (//b))\n)\n";
    let mut automaton = [0; AUTOMATON_SIZE];
    let mut run = [0; RUN_SIZE];
    let mut counters = Counters::none();
    build_named(rt, set, report, &mut automaton)?;
    let _ = file_report(&automaton, &mut run, &mut counters, b"<b/>");
    let answer = file_report(&automaton, &mut run, &mut counters, report);
    print_answer(rt, answer)?;
    print_listing(rt, &automaton, &run, counters)
}

// An automaton that fails the shape test: its count of folders is out of range.
#[inline(never)]
pub fn strange(rt: &impl Print, report: &[u8]) -> io::Result<()> {
    let mut automaton = [0; AUTOMATON_SIZE];
    let mut run = [0; RUN_SIZE];
    build_named(rt, NO_FOLDERS, report, &mut automaton)?;
    put(&mut automaton, 3, 255);
    let answer = file_report(&automaton, &mut run, &mut Counters::none(), report);
    print_answer(rt, answer)
}

// A run that is too short: 1 comes before all else.
#[inline(never)]
pub fn short(rt: &impl Print, report: &[u8]) -> io::Result<()> {
    let mut automaton = [0; AUTOMATON_SIZE];
    let mut run = [0; RUN_SIZE - 1];
    build_named(rt, NO_FOLDERS, report, &mut automaton)?;
    let answer = file_report(&automaton, &mut run, &mut Counters::none(), report);
    print_answer(rt, answer)
}

// An automaton of the right shape whose listing is longer than any built set's: text and both paths are said to be 63 * 256 bytes longer, so
// that the paths overlap. The listing has 7 + (8 + 1 + 2 * (2 + 16131 + 1) + 2) + 12 + 2 bytes, 32300.
#[inline(never)]
pub fn long(rt: &impl Print, report: &[u8]) -> io::Result<()> {
    let mut automaton = [0; AUTOMATON_SIZE];
    let mut run = [0; RUN_SIZE];
    let mut counters = Counters::none();
    build_named(
        rt,
        "(folders\n(folder 1 (//a) (//b))\n)\n",
        report,
        &mut automaton,
    )?;
    let _ = file_report(&automaton, &mut run, &mut counters, report);
    for length in [
        TEXT_LEN_AT,
        PATHS_AT + PATH_LENGTH_IN,
        PATHS_AT + PATH_SIZE + PATH_LENGTH_IN,
    ] {
        put(&mut automaton, length + 1, 63);
    }
    print_lent(rt, &automaton, &run, counters, &mut [0; 32299])?;
    print_lent(rt, &automaton, &run, counters, &mut [0; 32300])?;
    print_lent(rt, &automaton, &run, counters, &mut [0; 32301])
}

// What a page of this size is answered by.
fn print_lent(
    rt: &impl Print,
    a: &[u8],
    run: &[u8],
    counters: Counters,
    page: &mut [u8],
) -> io::Result<()> {
    print!(rt; "{} lent: ", page.len())?;
    match write_listing(a, run, counters, page) {
        Ok(length) => println!(rt; "{length} bytes"),
        Err(refusal) => print_answer(rt, Err(refusal)),
    }
}
