// Every limit of the notation, once; the specification's Limits has the same.

// The highest folder number.
pub const MAX_NUMBER: usize = 9999;

// Bytes of a set's text.
pub const MAX_SET_BYTES: usize = 16384;

// Steps of a path, paths and labels of a set.
pub const MAX_STEPS: usize = 16;

pub const MAX_PATHS: usize = 128;

pub const MAX_LABELS: usize = 1024;
