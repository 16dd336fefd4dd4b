// The measures of a class sheet; the specification's Limits has the same.

// Places of a path, and those that a path shows which has more bytes.
pub const PATH_WIDTH: usize = 66;

pub const PATH_CUT: usize = PATH_WIDTH - 1;

// Bytes of a line, its end aside.
pub const LINE_WIDTH: usize = 4 + 2 + PATH_WIDTH;

// Body lines of a page.
pub const BODY_LINES: usize = 40;

pub const PAGE_SIZE: usize = (1 + BODY_LINES) * (LINE_WIDTH + 1);

pub const MAX_PAGES: usize = 4;

// Bytes of the lent buffer.
pub const SHEET_SIZE: usize = MAX_PAGES * PAGE_SIZE;
