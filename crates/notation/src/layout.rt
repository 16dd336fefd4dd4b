// Where the parts of a read set stand in its buffer. Sizes are in bytes.

use crate::limits::{MAX_LABELS, MAX_PATHS, MAX_SET_BYTES, MAX_STEPS};

// Steps of all paths together.
pub const MAX_ALL_STEPS: usize = MAX_PATHS * MAX_STEPS;

// A number.
pub const WORD_SIZE: usize = 2;

// Fields and entries: a field begins where the one before it ends, the first with its entry, and an entry ends with its last field. Of a
// folder: its number, the place of its first path.
pub const FOLDER_FIRST_IN: usize = WORD_SIZE;

pub const FOLDER_SIZE: usize = FOLDER_FIRST_IN + WORD_SIZE;

// Of a path: its first step, its count of steps, where its text begins, how long that is.
pub const PATH_STEPS_IN: usize = WORD_SIZE;

pub const PATH_BEGIN_IN: usize = PATH_STEPS_IN + WORD_SIZE;

pub const PATH_LENGTH_IN: usize = PATH_BEGIN_IN + WORD_SIZE;

pub const PATH_SIZE: usize = PATH_LENGTH_IN + WORD_SIZE;

// Of a label: where its bytes begin, their count, its step.
pub const LABEL_LENGTH_IN: usize = WORD_SIZE;

pub const LABEL_STEP_IN: usize = LABEL_LENGTH_IN + WORD_SIZE;

pub const LABEL_SIZE: usize = LABEL_STEP_IN + WORD_SIZE;

// A step: 1 for `//`, and 2 more for `*`, so four kinds.
pub const STAR_KIND: usize = 2;

pub const STEP_KINDS: usize = 2 * STAR_KIND;

// The counts.
pub const TEXT_LEN_AT: usize = 0;

pub const FOLDER_COUNT_AT: usize = TEXT_LEN_AT + WORD_SIZE;

pub const PATH_COUNT_AT: usize = FOLDER_COUNT_AT + WORD_SIZE;

pub const STEP_COUNT_AT: usize = PATH_COUNT_AT + WORD_SIZE;

pub const LABEL_COUNT_AT: usize = STEP_COUNT_AT + WORD_SIZE;

// The text and the tables; an entry of a step is one byte.
pub const TEXT_AT: usize = LABEL_COUNT_AT + WORD_SIZE;

pub const FOLDERS_AT: usize = TEXT_AT + MAX_SET_BYTES;

pub const PATHS_AT: usize = FOLDERS_AT + FOLDER_SIZE * MAX_PATHS;

pub const STEPS_AT: usize = PATHS_AT + PATH_SIZE * MAX_PATHS;

pub const LABELS_AT: usize = STEPS_AT + MAX_ALL_STEPS;

pub const SET_SIZE: usize = LABELS_AT + LABEL_SIZE * MAX_LABELS;
