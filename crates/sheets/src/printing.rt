// The job of the program that prints the class sheet: a set is built, a report filed with it, and the sheet written.
ghost use Rattle.sheets.specs.Printer.{PrintsSheet};

use crate::limits::SHEET_SIZE;
use crate::sheet::write_sheet;
use filing::shown::{Show, print_shown};
use stored::counters::Counters;
use text::refusals::Refusal;

// The sheet is shown.
pub struct Sheet;

#[tactic(auto, unfolding(crate::specs::Limits::sheet_size, crate::specs::Limits::max_pages, crate::specs::Limits::page_size, crate::specs::Limits::body_lines, crate::specs::Limits::line_width, crate::specs::Limits::number_width, crate::specs::Limits::path_width))]
impl Show for Sheet {
    ghost use Rattle.sheets.specs.Limits.{sheet_size, line-within};
    ghost use Rattle.sheets.specs.SheetOf.{SheetFor};
    ghost use Rattle.sheets.specs.SheetIn.{SheetWritten};

    const SIZE: usize = SHEET_SIZE;

    ghost SIZE = { sheet_size };

    ghost For = { SheetFor };

    ghost shows = { λ a run _ before answer after. SheetWritten a run before answer after };

    fn show(a: &[u8], run: &[u8], _c: Counters, out: &mut [u8]) -> Result<usize, Refusal> {
        write_sheet(a, run, out)
    }

    ghost line = { line-within };
}

// Writes the class sheet of a set's text and a report, or the line of a refusal, to the first bytes of `out` and answers its length; a short
// buffer is refused. Bytes past it stay. The automaton and the run are left as built and filed.
// A call of its own, since its promise is by printing and XPath 1.0 alone, where `print_shown` promises what the show does.
#[tactic(auto, using(filing::proofs::Laws::Listing::Showing::prints_by, crate::proofs::Laws::Filed::Faithful::sheet_faithful))]
pub fn print_sheet(
    text: &[u8],
    report: &[u8],
    automaton: &mut [u8],
    run: &mut [u8],
    out: &mut [u8],
) -> Result<usize, Refusal>
    ensures { PrintsSheet text.now report.now automaton.old run.old out.old result automaton.new run.new out.new }
{
    print_shown::<Sheet>(text, report, automaton, run, out)
}
