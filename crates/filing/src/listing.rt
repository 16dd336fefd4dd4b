// Writing what the filing program prints: the listing of a run, or the line of a refusal. Automaton and run are passed on side by side: a struct of
// both would be taken apart for each call of the machine.
ghost use Rattle.std.specs.Prelude.{◌≡◌, ◌≤◌, ◌-◌, [], length};
ghost use Rattle.model.specs.Folders.{count_from};
ghost use Rattle.stored.specs.HeldSet.{folders_held};
ghost use Rattle.text.specs.Answers.{refusal_in};
ghost use Rattle.text.specs.Output.{Adds};
ghost use Rattle.text.specs.Written.{TextWritten};
ghost use Rattle.filing.specs.Limits.{max_refused_line};
ghost use Rattle.filing.specs.Listing.{moves_line, refused_line};
ghost use Rattle.filing.specs.Listed.{path_listed, paths_listed, folder_listed, folders_listed, listing_in, listing_refusal, ListingWritten, RefusedWritten};

use crate::limits::LISTING_SIZE;
use machine::run::{lent, matches};
use machine::set;
use notation::PathPlace;
use std::ops::Range;
use stored::counters::Counters;
use text::output::{Front, Length, Sink, put_number, put_numbered};
use text::refusals::Refusal;

fn put_path<S: Sink>(a: &[u8], place: usize, to: &mut S)
    ensures { Adds S.puts to.old (path_listed a.now place) to.new }
{
    to.put(b" (");
    to.put(set::path_text(a, PathPlace(place)));
    to.put(b")");
}

// The matched ones of the paths at these places.
fn put_paths<S: Sink>(a: &[u8], run: &[u8], places: Range<usize>, to: &mut S)
    ensures { Adds S.puts to.old (paths_listed a.now run.now (count_from places.start (places.end - places.start))) to.new }
{
    for place in places {
        if matches::place_matched(a, run, PathPlace(place)) {
            put_path(a, place, to);
        }
    }
}

// A folder's line, none where no path of it is matched.
fn put_folder<S: Sink>(a: &[u8], run: &[u8], i: usize, to: &mut S)
    ensures { Adds S.puts to.old (folder_listed a.now run.now i) to.new }
{
    if !matches::folder_paths_matched(a, run, i) {
        return;
    }
    if let Some(folder) = set::folder_at(a, i) {
        put_numbered(to, b"(folder ", folder.number.0);
        put_paths(a, run, folder.places(), to);
        to.put(b")\n");
    }
}

#[tactic(auto, using(crate::proofs::Laws::Listing::Steps::turn, crate::proofs::Laws::Listing::Steps::turned))]
fn put_folders<S: Sink>(a: &[u8], run: &[u8], to: &mut S)
    ensures { Adds S.puts to.old (folders_listed a.now run.now (count_from 0 (folders_held a.now))) to.new }
{
    for i in 0..set::folders(a) {
        put_folder(a, run, i, to);
    }
}

fn put_moves<S: Sink>(opens: usize, moves: usize, to: &mut S)
    ensures { Adds S.puts to.old (moves_line opens moves) to.new }
{
    put_numbered(to, b"(moves ", opens);
    to.put(b" ");
    put_number(to, moves);
    to.put(b")\n");
}

fn put_listing<S: Sink>(a: &[u8], run: &[u8], c: Counters, to: &mut S)
    ensures { Adds S.puts to.old (listing_in a.now run.now c) to.new }
{
    to.put(b"(filed\n");
    put_folders(a, run, to);
    put_moves(c.opens, c.moves, to);
    to.put(b")\n");
}

pub fn put_refused<S: Sink>(n: u8, to: &mut S)
    ensures { Adds S.puts to.old (refused_line n) to.new }
{
    put_numbered(to, b"(refused ", usize::from(n));
    to.put(b")\n");
}

// `ShortBuffer` and `BadShape`. The listing is measured, since what is stored may have more than there is room for.
fn check(a: &[u8], run: &[u8], c: Counters, out: &[u8]) -> Result<(), Refusal>
    ensures { refusal_in result ≡ listing_refusal a.now run.now c out.now }
{
    if out.len() < LISTING_SIZE {
        return Err(Refusal::ShortBuffer);
    }
    lent::refusal(a, run, c)?;
    let mut length = Length::default();
    put_listing(a, run, c, &mut length);
    if length.bytes > out.len() {
        return Err(Refusal::ShortBuffer);
    }
    Ok(())
}

// Writes the listing of a run to the first bytes of `out` and answers its length, or the refusal. Bytes past it stay. The listing is gone
// through twice, once for its length, so that a refusal changes nothing.
pub fn write_listing(a: &[u8], run: &[u8], c: Counters, out: &mut [u8]) -> Result<usize, Refusal>
    ensures { ListingWritten a.now run.now c out.old result out.new }
{
    check(a, run, c, out)?;
    let mut front = Front::new(out);
    put_listing(a, run, c, &mut front);
    front.written()
}

// The line of a refusal, by its number, at the start of a buffer that has room for each such line.
pub(crate) fn write_line(n: u8, out: &mut [u8]) -> Result<usize, Refusal>
    requires { max_refused_line ≤ length out.old }
    ensures { TextWritten [] (refused_line n) out.old result out.new }
{
    let mut front = Front::new(out);
    put_refused(n, &mut front);
    front.written()
}

// Writes the line of a refusal, by its number, and answers its length; refused is a buffer that is short for a listing. The number may be any byte,
// as this interface always had it: a `Refusal` would ask more of a caller.
#[tactic(auto, using(crate::proofs::Laws::Listing::Written::refused_lines), unfolding(crate::specs::Limits::listing_size, notation::specs::Limits::max_set_bytes, crate::specs::Limits::max_moves_line))]
pub fn write_refused(n: u8, out: &mut [u8]) -> Result<usize, Refusal>
    ensures { RefusedWritten n out.old result out.new }
{
    if out.len() < LISTING_SIZE {
        return Err(Refusal::ShortBuffer);
    }
    write_line(n, out)
}
