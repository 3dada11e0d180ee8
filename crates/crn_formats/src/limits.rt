// The limits of document 01, each in this place alone.

// Bytes of a file, at least: a header with the offset of one level.
pub const MIN_SIZE: usize = 74;

// Pixels of a side.
pub const MAX_SIDE: u32 = 4096;

// Levels of a file.
pub const MAX_LEVELS: u8 = 13;

// Entries of a palette.
pub const MAX_ENTRIES: u32 = 8192;

// A lent file is shorter than this.
pub const TOO_LONG: usize = 4294967296;
