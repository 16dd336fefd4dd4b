// The limits of a listing; the specification's Limits has the same.
use notation::limits::MAX_SET_BYTES;

// Bytes of a moves line, and of a listing.
pub const MAX_MOVES_LINE: usize = 22;

pub const LISTING_SIZE: usize = MAX_SET_BYTES + MAX_MOVES_LINE;
