//! How a call ended, by the numbers that `faxpages.h` has.

/// All that was asked for is there.
pub(crate) const DONE: u32 = 0;

/// There is no more.
pub(crate) const END: u32 = 1;

/// A fault of what was read.
pub(crate) const FAULT: u32 = 2;

/// There is no such page, row or place.
pub(crate) const OUTSIDE: u32 = 3;

/// A growth was refused.
pub(crate) const MEMORY: u32 = 4;

/// What comes next does not fit.
pub(crate) const NO_ROOM: u32 = 5;

/// A text is no place's.
pub(crate) const NO_PLACE: u32 = 6;

/// Numbers are no options or no form.
pub(crate) const NO_OPTIONS: u32 = 7;

/// A file would be too large.
pub(crate) const TOO_LARGE: u32 = 8;

/// Rows of a strip of unknown height end with the data, after a whole row.
pub(crate) const DATA_END: u32 = 9;

/// More bytes of a strip are waited for.
pub(crate) const MORE: u32 = 10;
