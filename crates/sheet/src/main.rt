// Files the report `report.xml` by the folder set `folders.txt`, both of the current folder, and prints the class sheet or the refusal. Of a
// file that is there and cannot be read it tells on standard error, and prints nothing. A failed write ends it with an error.
#![tactic(auto)]

ghost use Rattle.std.specs.Result.{result_unwrap_or};
ghost use Rattle.sheets.specs.SheetOf.{SheetFor};
ghost use Rattle.programs.specs.Shows.{Shows};

use machine::layout::AUTOMATON_SIZE;
use machine::run::layout::RUN_SIZE;
use programs::output::print_page;
use sheets::limits::SHEET_SIZE;
use sheets::printing::print_sheet;
use std::io;
use text::refusals::Refusal;

// The class sheet of a set and a report, or the line of a refusal, at the start of `out`; its length. In buffers of their sizes nothing is refused.
fn shown(
    set: &[u8],
    report: &[u8],
    automaton: &mut [u8; AUTOMATON_SIZE],
    run: &mut [u8; RUN_SIZE],
    out: &mut [u8; SHEET_SIZE],
) -> Result<usize, Refusal>
    ensures { Shows SheetFor set.now report.now (result_unwrap_or result 0) out.new }
{
    print_sheet(set, report, automaton, run, out)
}

fn main(rt: HostRuntime) -> io::Result<()> {
    let mut out = [0; SHEET_SIZE];
    print_page(&rt, &mut out, shown)
}
