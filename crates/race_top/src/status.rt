//! The exit statuses.

/// The text was written whole.
pub const WHOLE: u8 = 0;

/// The words are no command; nothing was read or written.
pub const USAGE: u8 = 2;

/// A read failed; nothing was written.
pub const READ_FAILED: u8 = 3;

/// The request was refused; the refusal's line was written.
pub const REFUSED: u8 = 4;

/// A write failed; a front of the text was written.
pub const WRITE_FAILED: u8 = 5;

/// There was no memory; nothing was written.
pub const NO_MEMORY: u8 = 6;
