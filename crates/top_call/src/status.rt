//! The exit statuses of the program.

/// Every line was answered, and the whole text printed.
pub const FINE: u8 = 0;

/// The words aren't those of a command.
pub const USAGE: u8 = 2;

/// The script was refused.
pub const REFUSED: u8 = 3;

/// The source failed.
pub const SOURCE_FAILED: u8 = 4;

/// The sink failed.
pub const SINK_FAILED: u8 = 5;

/// The store failed, in a line or before the run.
pub const STORE_FAILED: u8 = 6;

/// The journal shows a clash or a zero hash.
pub const CLASHED: u8 = 7;

/// Memory was wanted.
pub const NO_MEMORY: u8 = 8;
