// What is stored of a read set: cheap calls on any part of a buffer that keeps one. They answer by what is stored. A number of two bytes is
// answered as a `usize` and its bound, since each caller counts on with it: as `u16` it would be widened at each call.
#![tactic(auto, unfolding(crate::specs::Limits::max_paths, crate::specs::Limits::max_steps, crate::specs::Limits::max_labels, crate::specs::Layout::set_size, crate::specs::Layout::folders_at, crate::specs::Layout::folder_size, crate::specs::Layout::paths_at, crate::specs::Layout::path_size, crate::specs::Layout::steps_at, crate::specs::Layout::labels_at, crate::specs::Layout::label_size, crate::specs::Reads::present, crate::specs::Reads::paths_end, crate::specs::Reads::folder_at, crate::specs::Reads::path_at, crate::specs::Reads::step_at, crate::specs::Reads::label_at))]

ghost use Rattle.std.specs.Prelude.{◌≡◌, true, ◌-◌, ◌<◌, ◌≤◌, length, get_or};
ghost use Rattle.notation.specs.Limits.{max_paths};
ghost use Rattle.notation.specs.Layout.{set_size};
ghost use Rattle.notation.specs.Reads.{word16, text_len, folder_count, path_count, step_count, label_count, present, paths_end, folder_at, path_at, kind_of, step_of, step_at, label_at, text_slice, text_of, path_text, label_name, folder_of, folder_top, path_top, label_top};

use crate::layout::{
    FOLDER_COUNT_AT, FOLDER_FIRST_IN, FOLDER_SIZE, FOLDERS_AT, LABEL_COUNT_AT, LABEL_LENGTH_IN,
    LABEL_SIZE, LABEL_STEP_IN, LABELS_AT, MAX_ALL_STEPS, PATH_BEGIN_IN, PATH_COUNT_AT,
    PATH_LENGTH_IN, PATH_SIZE, PATH_STEPS_IN, PATHS_AT, SET_SIZE, STAR_KIND, STEP_COUNT_AT,
    STEPS_AT, TEXT_AT, TEXT_LEN_AT,
};
use crate::limits::{MAX_LABELS, MAX_PATHS, MAX_SET_BYTES};
use crate::{FolderNumber, PathPlace};
use std::ops::Range;

#[derive(Clone, Copy)]
pub struct StoredFolder {
    pub number: FolderNumber,
    // The place of its first path, and its count of paths.
    pub first: PathPlace,
    pub paths: usize,
}

impl StoredFolder {
    ghost use Rattle.std.specs.Prelude.{◌+◌, ◌^◌, min};

    // The places of its paths.
    pub fn places(self) -> Range<usize>
        ensures { result ≡ record { start = self.first.0; end = min (self.first.0 + self.paths) (2 ^ 64 - 1) } }
    {
        self.first.0..self.first.0.saturating_add(self.paths)
    }
}

#[derive(Clone, Copy)]
pub struct StoredPath {
    // Its first step, its count of steps.
    pub first: usize,
    pub steps: usize,
    // Where in the set's text it stands.
    pub at: usize,
    pub size: usize,
}

#[derive(Clone, Copy)]
pub struct StoredStep {
    // `//`, not `/`.
    pub descendant: bool,
    // `*`, not a label.
    pub star: bool,
}

impl StoredStep {
    // The byte of a step in its table, and back. Methods, not `From`, whose impls need a ghost member each to say of which byte they speak.
    pub fn kind(self) -> u8
        ensures { result ≡ kind_of self }
    {
        u8::from(self.descendant) + STAR_KIND as u8 * u8::from(self.star)
    }

    pub fn of_kind(kind: u8) -> StoredStep
        ensures { result ≡ step_of kind }
    {
        StoredStep {
            descendant: kind % 2 == 1,
            star: kind / STAR_KIND as u8 % 2 == 1,
        }
    }
}

#[derive(Clone, Copy)]
pub struct StoredLabel {
    // Where in the set's text it stands.
    pub at: usize,
    pub size: usize,
    // The step whose label it is.
    pub step: usize,
}

pub fn byte_at(part: &[u8], i: usize) -> usize
    ensures { (result ≡ get_or part.now i 0) × (result < 256) }
{
    part.get(i).map_or(0, |byte| usize::from(*byte))
}

// A number of two bytes, the lower first.
#[tactic(auto, unfolding(crate::specs::Reads::word16))]
pub fn word_at(part: &[u8], at: usize) -> usize
    ensures { (result ≡ word16 part.now at) × (result < 65536) }
{
    if at < part.len() {
        byte_at(part, at) + 256 * byte_at(part, at + 1)
    } else {
        0
    }
}

// The counts, a call each: what a name's contract says of its count, one call with an offset could not say.

// The length of the set's text.
pub fn text_len(part: &[u8]) -> usize
    ensures { (result ≡ text_len part.now) × (result < 65536) }
{
    word_at(part, TEXT_LEN_AT)
}

pub fn folders(part: &[u8]) -> usize
    ensures { (result ≡ folder_count part.now) × (result < 65536) }
{
    word_at(part, FOLDER_COUNT_AT)
}

pub fn paths(part: &[u8]) -> usize
    ensures { (result ≡ path_count part.now) × (result < 65536) }
{
    word_at(part, PATH_COUNT_AT)
}

pub fn steps(part: &[u8]) -> usize
    ensures { (result ≡ step_count part.now) × (result < 65536) }
{
    word_at(part, STEP_COUNT_AT)
}

pub fn labels(part: &[u8]) -> usize
    ensures { (result ≡ label_count part.now) × (result < 65536) }
{
    word_at(part, LABEL_COUNT_AT)
}

// The part is whole, and entry `i` is there.
fn has(part: &[u8], count: usize, capacity: usize, i: usize) -> bool
    ensures value { result ≡ present part.now count capacity i }
    ensures within { result ≡ true → (i < capacity) × (set_size ≤ length part.now) }
{
    SET_SIZE <= part.len() && i < count && i < capacity
}

// Where the paths of folder `i` end.
fn paths_end(part: &[u8], i: usize) -> usize
    requires { i < max_paths }
    ensures { (result ≡ paths_end part.now i) × (result < 65536) }
{
    let next = i + 1;
    if has(part, folders(part), MAX_PATHS, next) {
        word_at(part, FOLDERS_AT + FOLDER_SIZE * next + FOLDER_FIRST_IN)
    } else {
        paths(part)
    }
}

pub fn folder_at(part: &[u8], i: usize) -> Option<StoredFolder>
    ensures { (result ≡ folder_at part.now i) × (folder_top result < 65536) }
{
    if !has(part, folders(part), MAX_PATHS, i) {
        return None;
    }
    let at = FOLDERS_AT + FOLDER_SIZE * i;
    let first = word_at(part, at + FOLDER_FIRST_IN);
    Some(StoredFolder {
        number: FolderNumber(word_at(part, at)),
        first: PathPlace(first),
        paths: paths_end(part, i).saturating_sub(first),
    })
}

pub fn path_at(part: &[u8], place: PathPlace) -> Option<StoredPath>
    ensures { (result ≡ path_at part.now place) × (path_top result < 65536) }
{
    let i = place.0;
    if !has(part, paths(part), MAX_PATHS, i) {
        return None;
    }
    let from = PATHS_AT + PATH_SIZE * i;
    Some(StoredPath {
        first: word_at(part, from),
        steps: word_at(part, from + PATH_STEPS_IN),
        at: word_at(part, from + PATH_BEGIN_IN),
        size: word_at(part, from + PATH_LENGTH_IN),
    })
}

pub fn step_at(part: &[u8], i: usize) -> Option<StoredStep>
    ensures { result ≡ step_at part.now i }
{
    if !has(part, steps(part), MAX_ALL_STEPS, i) {
        return None;
    }
    Some(StoredStep::of_kind(part[STEPS_AT + i]))
}

pub fn label_at(part: &[u8], i: usize) -> Option<StoredLabel>
    ensures { (result ≡ label_at part.now i) × (label_top result < 65536) }
{
    if !has(part, labels(part), MAX_LABELS, i) {
        return None;
    }
    let from = LABELS_AT + LABEL_SIZE * i;
    Some(StoredLabel {
        at: word_at(part, from),
        size: word_at(part, from + LABEL_LENGTH_IN),
        step: word_at(part, from + LABEL_STEP_IN),
    })
}

// Bytes of the set's text.
fn text_slice(part: &[u8], at: usize, size: usize) -> &[u8]
    ensures { result.now ≡ text_slice part.now at size }
{
    if part.len() < SET_SIZE {
        return &[];
    }
    let room = &part[TEXT_AT..FOLDERS_AT];
    room.get(at..at.saturating_add(size)).unwrap_or(&[])
}

// The set's text.
pub fn text(part: &[u8]) -> &[u8]
    ensures { result.now ≡ text_of part.now }
{
    text_slice(part, 0, text_len(part))
}

pub fn path_text(part: &[u8], place: PathPlace) -> &[u8]
    ensures { result.now ≡ path_text part.now place }
{
    path_at(part, place).map_or(&[], |path| text_slice(part, path.at, path.size))
}

pub fn label_name(part: &[u8], i: usize) -> &[u8]
    ensures { result.now ≡ label_name part.now i }
{
    label_at(part, i).map_or(&[], |label| text_slice(part, label.at, label.size))
}

// The first folder that has this number.
pub fn folder_of(part: &[u8], number: FolderNumber) -> Option<usize>
    ensures { result ≡ folder_of part.now number }
{
    if part.len() < SET_SIZE {
        return None;
    }
    let top = folders(part).min(MAX_PATHS);
    (0..top).find(|i| word_at(part, FOLDERS_AT + FOLDER_SIZE * *i) == number.0)
}
