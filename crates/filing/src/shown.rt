// What programs do with a set's text and a report, whatever they show of a filed one: sizes are tested, a set is built, the report is filed with
// it, and what filing left is shown, or the line of a refusal.
ghost use Rattle.std.specs.Prelude.{◌≡◌};
ghost use Rattle.filing.specs.Shown.{too_small, FilesText, PrintsWith};

use crate::listing::write_line;
use crate::report::file_report;
use machine::build::build;
use machine::run::lent;
use stored::counters::Counters;
use text::refusals::Refusal;

// What is shown of a filed report.
pub trait Show {
    ghost use Rattle.std.specs.Prelude.{ℕ, List, Result, ◌≤◌};
    ghost use Rattle.text.specs.declared.refusals.Refusal.{Refusal};
    ghost use Rattle.notation.specs.Sets.{FolderSet};
    ghost use Rattle.stored.specs.declared.counters.Counters.{Counters};
    ghost use Rattle.filing.specs.Limits.{max_refused_line};

    // Room for whatever is shown of a built set.
    const SIZE: usize;

    ghost SIZE: { ℕ };

    // What bytes are to be shown of a report, filed with a set; that they are is `Faithful`.
    ghost For: { FolderSet → List ℕ → List ℕ → Type 0 };

    // What a show of what filing left answers and leaves.
    ghost shows: { List ℕ → List ℕ → Counters → List ℕ → Result ℕ Refusal → List ℕ → Type 0 };

    fn show(a: &[u8], run: &[u8], c: Counters, out: &mut [u8]) -> Result<usize, Refusal>
        ensures { shows a.now run.now c out.old result out.new };

    // And for the line of a refusal.
    ghost line: { max_refused_line ≤ SIZE };
}

// An automaton, a run or bytes to be printed, of which there are to be `size`, are too short.
#[tactic(auto, unfolding(crate::specs::Shown::too_small))]
pub fn too_small(a: &[u8], run: &[u8], out: &[u8], size: usize) -> bool
    ensures { result ≡ too_small size a.now run.now out.now }
{
    lent::too_short(a, run) || out.len() < size
}

// Builds a set and files a report with it: the refusal is the set's, or the report's.
#[tactic(auto, using(text::proofs::Laws::Results::handed_on, crate::specs::Shown::set_refused, crate::specs::Shown::report_refused, crate::specs::Shown::report_filed))]
pub fn file_text(
    text: &[u8],
    report: &[u8],
    automaton: &mut [u8],
    run: &mut [u8],
) -> Result<Counters, Refusal>
    ensures { FilesText text.now report.now automaton.old run.old result automaton.new run.new }
{
    build(text, automaton)?;
    let mut counters = Counters::none();
    file_report(automaton, run, &mut counters, report)?;
    Ok(counters)
}

// Writes what is shown of a set's text and a report to the first bytes of `out` and answers its length; a short buffer is refused. Bytes past it
// stay. The automaton and the run are left as built and filed.
#[tactic(auto, using(crate::proofs::Laws::Listing::Showing::out_room))]
pub fn print_shown<S: Show>(
    text: &[u8],
    report: &[u8],
    automaton: &mut [u8],
    run: &mut [u8],
    out: &mut [u8],
) -> Result<usize, Refusal>
    ensures { PrintsWith S.shows S.SIZE text.now report.now automaton.old run.old out.old result automaton.new run.new out.new }
{
    if too_small(automaton, run, out, S::SIZE) {
        return Err(Refusal::ShortBuffer);
    }
    match file_text(text, report, automaton, run) {
        Ok(counters) => S::show(automaton, run, counters, out),
        Err(refusal) => write_line(refusal.number(), out),
    }
}
