// Where the parts of a run stand in its buffer. Sizes are in bytes.
use crate::layout::MASK_SIZE;
use notation::layout::WORD_SIZE;
use text::names::MAX_NAME;

// Elements open at once, and opens accepted in one run.
pub const MAX_DEPTH: usize = 64;

pub const MAX_OPENS: usize = 65535;

pub const DEPTH_AT: usize = 0;

pub const MATCHES_AT: usize = DEPTH_AT + WORD_SIZE;

pub const ROWS_AT: usize = MATCHES_AT + MASK_SIZE;

// Within a row: the name's length, the name, the state, the active steps, the steps seen.
pub const NAME_IN: usize = 1;

pub const STATE_IN: usize = NAME_IN + MAX_NAME;

pub const ACTIVE_IN: usize = STATE_IN + WORD_SIZE;

pub const SEEN_IN: usize = ACTIVE_IN + MASK_SIZE;

pub const ROW_SIZE: usize = SEEN_IN + MASK_SIZE;

pub const RUN_SIZE: usize = 65536;
