// Writing the class sheet of a run.
#![tactic(auto, unfolding(crate::specs::Limits::max_pages))]

ghost use Rattle.std.specs.Prelude.{◌≡◌, ◌≤◌, length};
ghost use Rattle.text.specs.Answers.{refusal_in};
ghost use Rattle.text.specs.Order.{given};
ghost use Rattle.text.specs.Output.{Adds};
ghost use Rattle.notation.specs.Limits.{max_paths};
ghost use Rattle.sheets.specs.Limits.{body_lines, max_pages};
ghost use Rattle.sheets.specs.Sheet.{body_at, ended, body_from, page, pages_for, pages_from, sheet};
ghost use Rattle.sheets.specs.SheetIn.{sheet_in, sheet_conditions, SheetWritten};

use crate::limits::{BODY_LINES, SHEET_SIZE};
use crate::lines::{put_blank, put_head, put_row};
use crate::rows;
use machine::run::lent;
use machine::set;
use notation::PathPlace;
use std::marker::Model;
use text::output::{Front, Sink};
use text::refusals::Refusal;

// The rows of a sheet, by the automaton and two tables.
#[derive(Drop)]
struct Rows<'a> {
    automaton: &'a [u8],
    // Places of paths, in the order of the rows.
    places: &'a [u8],
    // The number of each place's folder.
    numbers: &'a [u16],
}

impl<'a> Model for Rows<'a> {
    ghost use Rattle.std.specs.Prelude.{List};
    ghost use Rattle.sheets.specs.Sheet.{Row};
    ghost use Rattle.sheets.specs.Code.Rows.{table_rows, InTables};

    ghost Value = { List Row };

    ghost view = { λ r. table_rows r.automaton.now r.places.now r.numbers.now };

    ghost invariant = { λ r. InTables r.places.now r.numbers.now };
}

impl Rows<'_> {
    // Body line `j` of the sheet: that of a row, and blank past the last.
    #[tactic(auto, using(text::proofs::Laws::Output::same_bytes, crate::proofs::Laws::Stored::Tables::lines), unfolding(notation::specs::Limits::max_number, crate::specs::Code::Rows::table_row))]
    fn put_line<S: Sink>(&self, j: usize, to: &mut S)
        ensures { Adds S.puts to.old (ended (body_at self.now j)) to.new }
    {
        match self.places.get(j) {
            Some(place) => {
                let place = usize::from(*place);
                let number = usize::from(self.numbers[place]);
                put_row(number, set::path_text(self.automaton, PathPlace(place)), to);
            }
            None => put_blank(to),
        }
    }

    // Page `k`, from 0.
    fn put_page<S: Sink>(&self, k: usize, to: &mut S)
        requires { k ≤ max_pages }
        ensures { Adds S.puts to.old (page self.now k) to.new }
    {
        put_head(k + 1, to);
        let first = BODY_LINES * k;
        for j in first..first + BODY_LINES {
            self.put_line(j, to);
        }
    }

    // As few pages as can be, one at least.
    #[tactic(auto, using(crate::proofs::Laws::Stored::Tables::rows_many), unfolding(crate::specs::Limits::body_lines, crate::specs::Limits::max_pages, crate::specs::Sheet::pages_for, notation::specs::Limits::max_paths))]
    fn pages(&self) -> usize
        ensures { (result ≡ pages_for (length self.now)) × (result ≤ max_pages) }
    {
        self.places.len().div_ceil(BODY_LINES).max(1)
    }

    #[tactic(auto, using(filing::proofs::Laws::Listing::Steps::turn, filing::proofs::Laws::Listing::Steps::turned), unfolding(crate::specs::Sheet::sheet))]
    fn put_pages<S: Sink>(&self, to: &mut S)
        ensures { Adds S.puts to.old (sheet self.now) to.new }
    {
        for k in 0..self.pages() {
            self.put_page(k, to);
        }
    }
}

#[tactic(auto, using(text::proofs::Laws::Output::same_bytes, crate::proofs::Laws::Stored::Tables::tables), unfolding(crate::specs::SheetIn::sheet_in))]
fn put_sheet<S: Sink>(a: &[u8], run: &[u8], to: &mut S)
    ensures { Adds S.puts to.old (sheet_in a.now run.now) to.new }
{
    let places = rows::matched_places(a, run);
    let numbers = rows::folder_numbers(a);
    let rows = Rows {
        automaton: a,
        places: places.as_slice(),
        numbers: &numbers,
    };
    rows.put_pages(to);
}

// `ShortBuffer` (automaton, run or sheet), `BadShape` (automaton and run).
#[tactic(auto, using(crate::proofs::Laws::Stored::Refused::refusals), unfolding(crate::specs::Limits::sheet_size, crate::specs::Limits::max_pages, crate::specs::Limits::page_size, crate::specs::Limits::body_lines, crate::specs::Limits::line_width, crate::specs::Limits::number_width, crate::specs::Limits::path_width))]
fn check(a: &[u8], run: &[u8], out: &[u8]) -> Result<(), Refusal>
    ensures { refusal_in result ≡ given (sheet_conditions a.now run.now out.now) }
{
    if out.len() < SHEET_SIZE {
        return Err(Refusal::ShortBuffer);
    }
    lent::pair_refusal(a, run)
}

// Writes the sheet of a run to the first bytes of `out` and answers its length, or the refusal. Bytes past it stay. It costs one test of the
// automaton's and the run's shape, one look at each place, a fill of the places' numbers for each folder, and the sheet's bytes.
pub fn write_sheet(a: &[u8], run: &[u8], out: &mut [u8]) -> Result<usize, Refusal>
    ensures { SheetWritten a.now run.now out.old result out.new }
{
    check(a, run, out)?;
    let mut front = Front::new(out);
    put_sheet(a, run, &mut front);
    front.written()
}
