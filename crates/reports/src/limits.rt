// The limit of a report; the specification's Limits (of `documents`) has the same.

// Bytes of a report.
pub const MAX_REPORT: usize = 65536;
