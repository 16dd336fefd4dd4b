// The symbols of the calls for programs in C and Rust: each is the call of that name of crate exports, with its contract. A static library exports
// only functions of its own, and no other crate can use it: so each call stands here and there.
#![tactic(auto)]

ghost use Rattle.stored.specs.Build.{Built};
ghost use Rattle.stored.specs.Asking.{ask_path, ask_folder};
ghost use Rattle.filing.specs.ReportRefusals.{Files};
ghost use Rattle.filing.specs.Listed.{ListingWritten};
ghost use Rattle.filing.specs.Filer.{Prints};
ghost use Rattle.sheets.specs.SheetIn.{SheetWritten};
ghost use Rattle.exports.specs.Told.{counters_in, MatchTold, LengthTold};

// Builds the automaton of a set's text.
#[unsafe(no_mangle)]
pub extern "C" fn rannvoul_build(text: &[u8], automaton: &mut [u8]) -> u8
    ensures { Built text.now automaton.old result automaton.new }
{
    exports::rannvoul_build(text, automaton)
}

// Files a report.
#[unsafe(no_mangle)]
pub extern "C" fn rannvoul_file(
    automaton: &[u8],
    run: &mut [u8],
    report: &[u8],
    counters: &mut [usize; 3],
) -> u8
    ensures { Files automaton.now run.old (counters_in counters.old) report.now result run.new (counters_in counters.new) }
{
    exports::rannvoul_file(automaton, run, report, counters)
}

// Is a path matched, by its place among all paths of the set?
#[unsafe(no_mangle)]
pub extern "C" fn rannvoul_path_matched(
    automaton: &[u8],
    run: &[u8],
    place: usize,
    matched: &mut u8,
) -> u8
    ensures { MatchTold (ask_path automaton.now run.now (record { 0 = place })) matched.old result matched.new }
{
    exports::rannvoul_path_matched(automaton, run, place, matched)
}

// Is a folder matched, by its number?
#[unsafe(no_mangle)]
pub extern "C" fn rannvoul_folder_matched(
    automaton: &[u8],
    run: &[u8],
    number: usize,
    matched: &mut u8,
) -> u8
    ensures { MatchTold (ask_folder automaton.now run.now (record { 0 = number })) matched.old result matched.new }
{
    exports::rannvoul_folder_matched(automaton, run, number, matched)
}

// Writes the listing of a run.
#[unsafe(no_mangle)]
pub extern "C" fn rannvoul_list(
    automaton: &[u8],
    run: &[u8],
    counters: &[usize; 3],
    out: &mut [u8],
    length: &mut usize,
) -> u8
    ensures { LengthTold (λ w. ListingWritten automaton.now run.now (counters_in counters.now) out.old w out.new) length.old result length.new }
{
    exports::rannvoul_list(automaton, run, counters, out, length)
}

// Writes the class sheet of a run.
#[unsafe(no_mangle)]
pub extern "C" fn rannvoul_sheet(
    automaton: &[u8],
    run: &[u8],
    out: &mut [u8],
    length: &mut usize,
) -> u8
    ensures { LengthTold (λ w. SheetWritten automaton.now run.now out.old w out.new) length.old result length.new }
{
    exports::rannvoul_sheet(automaton, run, out, length)
}

// Writes what a set and a report print, by the bytes of both.
#[unsafe(no_mangle)]
pub extern "C" fn rannvoul_print(
    text: &[u8],
    report: &[u8],
    automaton: &mut [u8],
    run: &mut [u8],
    out: &mut [u8],
    length: &mut usize,
) -> u8
    ensures { LengthTold (λ w. Prints text.now report.now automaton.old run.old out.old w automaton.new run.new out.new) length.old result length.new }
{
    exports::rannvoul_print(text, report, automaton, run, out, length)
}
