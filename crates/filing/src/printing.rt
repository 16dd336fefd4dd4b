// The filing program's job as one call: a set is built, a report filed with it, and the listing written.
ghost use Rattle.filing.specs.Filer.{Prints};

use crate::limits::LISTING_SIZE;
use crate::listing::write_listing;
use crate::shown::{Show, print_shown};
use stored::counters::Counters;
use text::refusals::Refusal;

// The listing is shown.
pub struct Listing;

#[tactic(auto, unfolding(crate::specs::Limits::listing_size, crate::specs::Limits::max_moves_line, notation::specs::Limits::max_set_bytes))]
impl Show for Listing {
    ghost use Rattle.filing.specs.Limits.{listing_size, line-within};
    ghost use Rattle.filing.specs.Printed.{PrintedFor};
    ghost use Rattle.filing.specs.Listed.{ListingWritten};

    const SIZE: usize = LISTING_SIZE;

    ghost SIZE = { listing_size };

    ghost For = { PrintedFor };

    ghost shows = { ListingWritten };

    fn show(a: &[u8], run: &[u8], c: Counters, out: &mut [u8]) -> Result<usize, Refusal> {
        write_listing(a, run, c, out)
    }

    ghost line = { line-within };
}

// Writes what the filing program prints of a set's text and a report to the first bytes of `out` and answers its length; a short buffer is
// refused. Bytes past it stay. The automaton and the run are left as built and filed.
// A call of its own, since its promise is by printing and XPath 1.0 alone, where `print_shown` promises what the show does.
#[tactic(auto, using(crate::proofs::Laws::Listing::Showing::prints_by, crate::proofs::Laws::Listing::Faithful::listing_faithful))]
pub fn print_filing(
    text: &[u8],
    report: &[u8],
    automaton: &mut [u8],
    run: &mut [u8],
    out: &mut [u8],
) -> Result<usize, Refusal>
    ensures { Prints text.now report.now automaton.old run.old out.old result automaton.new run.new out.new }
{
    print_shown::<Listing>(text, report, automaton, run, out)
}
