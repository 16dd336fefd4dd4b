// The calls for programs in C and Rust; include/rannvoul.h declares them, and crate exports_c gives them their symbols. Each returns 0 or the
// number of a refusal, and puts a value behind a pointer.
#![tactic(auto)]

mod told;

ghost use Rattle.stored.specs.Build.{Built};
ghost use Rattle.stored.specs.Asking.{ask_path, ask_folder};
ghost use Rattle.filing.specs.ReportRefusals.{Files};
ghost use Rattle.filing.specs.Listed.{ListingWritten};
ghost use Rattle.filing.specs.Filer.{Prints};
ghost use Rattle.sheets.specs.SheetIn.{SheetWritten};
ghost use Rattle.exports.specs.Told.{counters_in, MatchTold, LengthTold};

use filing::listing::write_listing;
use filing::printing::print_filing;
use filing::report::file_report;
use machine::build::build;
use machine::run::asking::{folder_matched, path_matched};
use notation::{FolderNumber, PathPlace};
use sheets::sheet::write_sheet;

// Builds the automaton of a set's text.
pub fn rannvoul_build(text: &[u8], automaton: &mut [u8]) -> u8
    ensures { Built text.now automaton.old result automaton.new }
{
    told::number(build(text, automaton))
}

// Files a report.
pub fn rannvoul_file(
    automaton: &[u8],
    run: &mut [u8],
    report: &[u8],
    counters: &mut [usize; 3],
) -> u8
    ensures { Files automaton.now run.old (counters_in counters.old) report.now result run.new (counters_in counters.new) }
{
    let mut counted = told::counters_in(counters);
    let answer = file_report(automaton, run, &mut counted, report);
    told::put_counters(counted, counters);
    told::number(answer)
}

// Is a path matched, by its place among all paths of the set?
pub fn rannvoul_path_matched(automaton: &[u8], run: &[u8], place: usize, matched: &mut u8) -> u8
    ensures { MatchTold (ask_path automaton.now run.now (record { 0 = place })) matched.old result matched.new }
{
    told::tell_match(path_matched(automaton, run, PathPlace(place)), matched)
}

// Is a folder matched, by its number?
pub fn rannvoul_folder_matched(automaton: &[u8], run: &[u8], number: usize, matched: &mut u8) -> u8
    ensures { MatchTold (ask_folder automaton.now run.now (record { 0 = number })) matched.old result matched.new }
{
    told::tell_match(
        folder_matched(automaton, run, FolderNumber(number)),
        matched,
    )
}

// Writes the listing of a run.
pub fn rannvoul_list(
    automaton: &[u8],
    run: &[u8],
    counters: &[usize; 3],
    out: &mut [u8],
    length: &mut usize,
) -> u8
    ensures { LengthTold (λ w. ListingWritten automaton.now run.now (counters_in counters.now) out.old w out.new) length.old result length.new }
{
    let written = write_listing(automaton, run, told::counters_in(counters), out);
    told::tell(written, length)
}

// Writes the class sheet of a run.
pub fn rannvoul_sheet(automaton: &[u8], run: &[u8], out: &mut [u8], length: &mut usize) -> u8
    ensures { LengthTold (λ w. SheetWritten automaton.now run.now out.old w out.new) length.old result length.new }
{
    let written = write_sheet(automaton, run, out);
    told::tell(written, length)
}

// Writes what a set and a report print, by the bytes of both.
pub fn rannvoul_print(
    text: &[u8],
    report: &[u8],
    automaton: &mut [u8],
    run: &mut [u8],
    out: &mut [u8],
    length: &mut usize,
) -> u8
    ensures { LengthTold (λ w. Prints text.now report.now automaton.old run.old out.old w automaton.new run.new out.new) length.old result length.new }
{
    let written = print_filing(text, report, automaton, run, out);
    told::tell(written, length)
}
