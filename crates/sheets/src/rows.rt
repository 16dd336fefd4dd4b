// The rows of a sheet: the matched places in order, and the number of each place's folder.
ghost use Rattle.std.specs.Prelude.{◌≡◌, length};
ghost use Rattle.notation.specs.Limits.{max_paths};
ghost use Rattle.stored.specs.HeldSet.{folders_held};
ghost use Rattle.sheets.specs.SheetIn.{matched_places};
ghost use Rattle.sheets.specs.Code.Rows.{Numbered};

use arrayvec::ArrayVec;
use machine::run::matches;
use machine::set;
use notation::PathPlace;
use notation::limits::MAX_PATHS;

// The places of the matched paths, in order.
pub fn matched_places(a: &[u8], run: &[u8]) -> ArrayVec<u8, MAX_PATHS>
    ensures { result.items ≡ matched_places a.now run.now }
{
    let mut places = ArrayVec::new();
    for place in 0..MAX_PATHS {
        if matches::place_matched(a, run, PathPlace(place)) {
            places.push(place as u8);
        }
    }
    places
}

// The number of each place's folder. A folder's number stands from its first path on, until a later folder takes its place, so that no folder
// is searched for each row; a fill is a few wide stores. 0 where there is none, which no folder has: an `Option` in each place is twice as long to
// fill, and says no more.
pub fn folder_numbers(a: &[u8]) -> [u16; MAX_PATHS]
    ensures { Numbered a.now (folders_held a.now) result }
{
    let mut numbers = [0; MAX_PATHS];
    for i in 0..set::folders(a) {
        if let Some(folder) = set::folder_at(a, i) {
            let from = folder.first.0.min(MAX_PATHS);
            numbers[from..].fill(folder.number.0 as u16);
        }
    }
    numbers
}
