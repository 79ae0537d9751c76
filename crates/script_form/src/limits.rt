//! How large a script may be: in bytes, lines, commands and pages.

/// The most bytes of a script.
pub const MOST_BYTES: usize = 67_108_864;

/// The most bytes of a line before its newline.
pub const MOST_TEXT: usize = 2_200_000;

/// The most command lines of a script.
pub const MOST_COMMANDS: usize = 200_000;

/// The most `page` commands of a script.
pub const MOST_PAGES: usize = 4_000;
