// The entries of a read set's tables, written at their places, where there is room: a text is judged with no buffer for them. An index is a
// count of `Tally`, so it asks here for what `Reading` knows of each; a type of an index would only be unwrapped.
#![tactic(auto, unfolding(crate::specs::Layout::folders_at, crate::specs::Layout::folder_size, crate::specs::Layout::paths_at, crate::specs::Layout::path_size, crate::specs::Layout::steps_at, crate::specs::Layout::labels_at, crate::specs::Layout::label_size))]

ghost use Rattle.std.specs.Prelude.{◌≡◌, [], ◌∷◌, ◌+◌, ◌*◌, ◌≤◌};
ghost use Rattle.std.proofs.lemmas.List.Edits.{sets};
ghost use Rattle.notation.specs.Layout.{folder_size, path_size, label_size, folders_at, paths_at, steps_at, labels_at, folder_entry, path_entry, label_entry};
ghost use Rattle.notation.specs.Reads.{kind_of};

use crate::layout::{
    FOLDER_SIZE, FOLDERS_AT, LABEL_SIZE, LABEL_STEP_IN, LABELS_AT, PATH_BEGIN_IN, PATH_SIZE,
    PATHS_AT, STEPS_AT,
};
use crate::reads::{StoredLabel, StoredPath, StoredStep};
use text::store::{copy, put_pair, put16};

pub fn put_folder(part: &mut [u8], i: usize, number: usize, first: usize)
    requires { i ≤ 65536 }
    ensures { part.new ≡ sets part.old (folders_at + folder_size * i) (folder_entry number first) }
{
    put_pair(part, FOLDERS_AT + FOLDER_SIZE * i, number, first);
}

pub fn put_path(part: &mut [u8], i: usize, path: StoredPath)
    requires { i ≤ 65536 }
    ensures { part.new ≡ sets part.old (paths_at + path_size * i) (path_entry path.first path.steps path.at path.size) }
{
    let at = PATHS_AT + PATH_SIZE * i;
    put_pair(part, at, path.first, path.steps);
    put_pair(part, at + PATH_BEGIN_IN, path.at, path.size);
}

pub fn put_step(part: &mut [u8], i: usize, step: StoredStep)
    requires { i ≤ 65536 }
    ensures { part.new ≡ sets part.old (steps_at + i) (kind_of step ∷ []) }
{
    copy(part, STEPS_AT + i, &[step.kind()]);
}

pub fn put_label(part: &mut [u8], i: usize, label: StoredLabel)
    requires { i ≤ 65536 }
    ensures { part.new ≡ sets part.old (labels_at + label_size * i) (label_entry label.at label.size label.step) }
{
    let at = LABELS_AT + LABEL_SIZE * i;
    put_pair(part, at, label.at, label.size);
    put16(part, at + LABEL_STEP_IN, label.step);
}
