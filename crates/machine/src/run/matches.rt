// Inner calls on matches: they read by what is stored, without the refusals of the asking calls.
#![tactic(auto, unfolding(text::specs::Lists::any, stored::specs::Run::matches_at, stored::specs::Asking::place_matched))]

ghost use Rattle.std.specs.Prelude.{◌≡◌, ◌<◌, Some};
ghost use Rattle.model.specs.Folders.{count_from};
ghost use Rattle.notation.specs.Reads.{path_top};
ghost use Rattle.stored.specs.HeldSet.{folder_held};
ghost use Rattle.stored.specs.Asking.{last_matched, place_matched, any_matched, paths_of_folder};

use crate::bits::bit_in;
use crate::run::layout::MATCHES_AT;
use crate::set;
use notation::reads::StoredPath;
use notation::{PathPlace, reads};

// The match bit of a path's last step.
pub(crate) fn last_matched(run: &[u8], path: StoredPath) -> bool
    requires { path_top (Some path) < 65536 }
    ensures { result ≡ last_matched run.now (Some path) }
{
    bit_in(run, MATCHES_AT, (path.first + path.steps).saturating_sub(1))
}

pub fn place_matched(a: &[u8], run: &[u8], place: PathPlace) -> bool
    ensures { result ≡ place_matched a.now run.now place }
{
    reads::path_at(a, place).is_some_and(|path| last_matched(run, path))
}

// One of the paths of folder `i` is matched.
pub fn folder_paths_matched(a: &[u8], run: &[u8], i: usize) -> bool
    ensures { result ≡ any_matched a.now run.now (paths_of_folder (folder_held a.now i)) }
{
    match set::folder_at(a, i) {
        Some(folder) => folder
            .places()
            .any(|place| place_matched(a, run, PathPlace(place))),
        None => false,
    }
}
