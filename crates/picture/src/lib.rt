// What containers of blocks have in common: a picture's surfaces, where they stand, and how a writing ends.
#![tactic(auto)]

mod sizes; // which formats go out, and how many bytes a face has
mod put; // bytes and words, written

pub use put::{put_bytes, put_words};
pub use sizes::{chain_bytes, goes_out};

// A picture in blocks: the format by its CRN number, the sides in pixels, the levels, the faces.
#[derive(Clone, Copy)]
pub struct Picture {
    pub format: u32,
    pub width: u32,
    pub height: u32,
    pub levels: u32,
    pub faces: u32,
}

// How a writing ended: refusal 0 with the bytes written and the symbols and cut-outs of all levels; or the refusal, the level and the bit
// that it names, and the symbols drawn.
#[repr(C)]
#[derive(Clone, Copy)]
pub struct Written {
    pub refusal: u32,
    pub level: u32,
    pub at: usize,
    pub bytes: usize,
    pub symbols: u64,
    pub cutouts: u64,
}

// How many bytes a file takes, or the refusal of its header.
#[repr(C)]
#[derive(Clone, Copy)]
pub struct Needed {
    pub refusal: u32,
    pub bytes: usize,
}
