// What an automaton holds of its set: cheap calls on any bytes, by what is stored, so that no layer above reads those bytes.
ghost use Rattle.std.specs.Prelude.{◌≡◌, ◌<◌};
ghost use Rattle.stored.specs.HeldSet.{folders_held, folder_held, top_held, path_held};

use notation::reads::StoredFolder;
use notation::{PathPlace, reads};

#[tactic(auto, unfolding(stored::specs::HeldSet::folders_held))]
pub fn folders(a: &[u8]) -> usize
    ensures { (result ≡ folders_held a.now) × (result < 65536) }
{
    reads::folders(a)
}

#[tactic(auto, unfolding(stored::specs::HeldSet::folder_held))]
pub fn folder_at(a: &[u8], i: usize) -> Option<StoredFolder>
    ensures { (result ≡ folder_held a.now i) × (top_held result < 65536) }
{
    reads::folder_at(a, i)
}

#[tactic(auto, unfolding(stored::specs::HeldSet::path_held))]
pub fn path_text(a: &[u8], place: PathPlace) -> &[u8]
    ensures { result.now ≡ path_held a.now place }
{
    reads::path_text(a, place)
}
