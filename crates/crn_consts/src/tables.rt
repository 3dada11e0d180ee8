// The tables themselves, under their names in the Rust. A static is looked up in where it stands; a constant is written out anew wherever
// it is named.

// How many tiles a chunk has, for each encoding.
pub static CHUNK_ENCODING_NUM_TILES: [u8; 8] = [1, 2, 2, 3, 3, 3, 3, 4];

// The tiles at a chunk's four positions, for each encoding: two bits each, left-top lowest, then right-top, left-bottom and right-bottom.
pub static CHUNK_ENCODING_TILES: [u8; 8] = [
    0b00_00_00_00,
    0b01_01_00_00,
    0b01_00_01_00,
    0b10_01_00_00,
    0b00_00_10_01,
    0b10_00_01_00,
    0b00_10_00_01,
    0b11_10_01_00,
];

// The symbols of the code of lengths, in the order in which their own lengths are sent.
pub static MOST_PROBABLE_CODELENGTH_CODES: [u8; 21] = [
    17, 18, 19, 20, 0, 8, 7, 9, 6, 10, 5, 11, 4, 12, 3, 13, 2, 14, 1, 15, 16,
];

// The two deltas of each alpha selector symbol, (s mod 15) - 7 and (s div 15) - 7, each raised by 8. The Rust computes them.
pub const ALPHA_DELTA_PAIRS: [u8; 450] = [
    1, // from symbol 0 on
    1, 2, 1, 3, 1, 4, 1, 5, 1, 6, 1, 7, 1, 8, 1, 9, 1, 10, 1, 11, 1, 12, 1, 13, 1, 14, 1, 15, 1, 1, // from symbol 15 on
    2, 2, 2, 3, 2, 4, 2, 5, 2, 6, 2, 7, 2, 8, 2, 9, 2, 10, 2, 11, 2, 12, 2, 13, 2, 14, 2, 15, 2, 1, // from symbol 30 on
    3, 2, 3, 3, 3, 4, 3, 5, 3, 6, 3, 7, 3, 8, 3, 9, 3, 10, 3, 11, 3, 12, 3, 13, 3, 14, 3, 15, 3, 1, // from symbol 45 on
    4, 2, 4, 3, 4, 4, 4, 5, 4, 6, 4, 7, 4, 8, 4, 9, 4, 10, 4, 11, 4, 12, 4, 13, 4, 14, 4, 15, 4, 1, // from symbol 60 on
    5, 2, 5, 3, 5, 4, 5, 5, 5, 6, 5, 7, 5, 8, 5, 9, 5, 10, 5, 11, 5, 12, 5, 13, 5, 14, 5, 15, 5, 1, // from symbol 75 on
    6, 2, 6, 3, 6, 4, 6, 5, 6, 6, 6, 7, 6, 8, 6, 9, 6, 10, 6, 11, 6, 12, 6, 13, 6, 14, 6, 15, 6, 1, // from symbol 90 on
    7, 2, 7, 3, 7, 4, 7, 5, 7, 6, 7, 7, 7, 8, 7, 9, 7, 10, 7, 11, 7, 12, 7, 13, 7, 14, 7, 15, 7, 1, // from symbol 105 on
    8, 2, 8, 3, 8, 4, 8, 5, 8, 6, 8, 7, 8, 8, 8, 9, 8, 10, 8, 11, 8, 12, 8, 13, 8, 14, 8, 15, 8, 1, // from symbol 120 on
    9, 2, 9, 3, 9, 4, 9, 5, 9, 6, 9, 7, 9, 8, 9, 9, 9, 10, 9, 11, 9, 12, 9, 13, 9, 14, 9, 15, 9, 1, // from symbol 135 on
    10, 2, 10, 3, 10, 4, 10, 5, 10, 6, 10, 7, 10, 8, 10, 9, 10, 10, 10, 11, 10, 12, 10, 13, 10, 14,
    10, 15, 10, 1, // from symbol 150 on
    11, 2, 11, 3, 11, 4, 11, 5, 11, 6, 11, 7, 11, 8, 11, 9, 11, 10, 11, 11, 11, 12, 11, 13, 11, 14,
    11, 15, 11, 1, // from symbol 165 on
    12, 2, 12, 3, 12, 4, 12, 5, 12, 6, 12, 7, 12, 8, 12, 9, 12, 10, 12, 11, 12, 12, 12, 13, 12, 14,
    12, 15, 12, 1, // from symbol 180 on
    13, 2, 13, 3, 13, 4, 13, 5, 13, 6, 13, 7, 13, 8, 13, 9, 13, 10, 13, 11, 13, 12, 13, 13, 13, 14,
    13, 15, 13, 1, // from symbol 195 on
    14, 2, 14, 3, 14, 4, 14, 5, 14, 6, 14, 7, 14, 8, 14, 9, 14, 10, 14, 11, 14, 12, 14, 13, 14, 14,
    14, 15, 14, 1, // from symbol 210 on
    15, 2, 15, 3, 15, 4, 15, 5, 15, 6, 15, 7, 15, 8, 15, 9, 15, 10, 15, 11, 15, 12, 15, 13, 15, 14,
    15, 15, 15,
];
