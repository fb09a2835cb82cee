//! How long arguments and results may be.

/// The most octets of a procedure's arguments, and of its result: a record has 131,072, and a sealed
/// reply's head, token and lengths take the others (RFC 2203 section 5.3.3.2).
pub const MOST: u32 = 130_952;
