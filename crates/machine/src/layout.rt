// Where the parts of an automaton stand in its buffer, after the notation's part. Sizes are in bytes.
use notation::layout::{MAX_ALL_STEPS, SET_SIZE, WORD_SIZE};
use notation::limits::MAX_LABELS;

pub const HASHES: usize = 256;

// Of a label's links: the next label of its name, the parent, the failure link, the length of its word, the next name of its hash, the first
// label of its name, the next label of its name in a later byte of a mask, and the bits of the steps in its own byte.
pub const NEXT_IN: usize = 0;

pub const PARENT_IN: usize = NEXT_IN + WORD_SIZE;

pub const FAIL_IN: usize = PARENT_IN + WORD_SIZE;

pub const SIZE_IN: usize = FAIL_IN + WORD_SIZE;

pub const OTHER_IN: usize = SIZE_IN + WORD_SIZE;

pub const FIRST_IN: usize = OTHER_IN + WORD_SIZE;

pub const FAR_IN: usize = FIRST_IN + WORD_SIZE;

pub const BITS_IN: usize = FAR_IN + WORD_SIZE;

pub const LINK_SIZE: usize = BITS_IN + WORD_SIZE;

// One bit a step.
pub const MASK_SIZE: usize = MAX_ALL_STEPS / 8;

// The masks, in the order in which they stand: `*`; `/` and `//` of a step that is not the first; `//` and `/` of a first step; the last step.
#[derive(Clone, Copy)]
pub enum Mask {
    Star,
    Child,
    Descendant,
    Anywhere,
    Root,
    Last,
}

pub const MASK_COUNT: usize = Mask::Last as usize + 1;

pub const HEADS_AT: usize = SET_SIZE;

pub const LINKS_AT: usize = HEADS_AT + WORD_SIZE * HASHES;

pub const MASKS_AT: usize = LINKS_AT + LINK_SIZE * MAX_LABELS;

pub const START_AT: usize = MASKS_AT + MASK_COUNT * MASK_SIZE;

pub const AUTOMATON_SIZE: usize = 65536;
