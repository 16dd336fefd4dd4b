// Files the report `report.xml` by the folder set `folders.txt`, both of the current folder, and prints the listing or the refusal. Of a file
// that is there and cannot be read it tells on standard error, and prints nothing. A failed write ends it with an error.
#![tactic(auto)]

ghost use Rattle.std.specs.Result.{result_unwrap_or};
ghost use Rattle.filing.specs.Printed.{PrintedFor};
ghost use Rattle.programs.specs.Shows.{Shows};

use filing::limits::LISTING_SIZE;
use filing::printing::print_filing;
use machine::layout::AUTOMATON_SIZE;
use machine::run::layout::RUN_SIZE;
use programs::output::print_page;
use std::io;
use text::refusals::Refusal;

// What a set and a report print, at the start of `out`; its length. In buffers of their sizes nothing is refused.
fn filed(
    set: &[u8],
    report: &[u8],
    automaton: &mut [u8; AUTOMATON_SIZE],
    run: &mut [u8; RUN_SIZE],
    out: &mut [u8; LISTING_SIZE],
) -> Result<usize, Refusal>
    ensures { Shows PrintedFor set.now report.now (result_unwrap_or result 0) out.new }
{
    print_filing(set, report, automaton, run, out)
}

fn main(rt: HostRuntime) -> io::Result<()> {
    let mut out = [0; LISTING_SIZE];
    print_page(&rt, &mut out, filed)
}
