// A level whose checks have passed: its decoder tables made, its chunks drawn and painted, its grid cleared after a refusal.
#![tactic(auto)]

use crn_format::Refusal;

mod drawing;

pub use drawing::{draw_chunks, draw_level};

// A level that went through: the symbols drawn and the cut-outs.
#[derive(Clone, Copy)]
pub struct Unpacked {
    pub symbols: u64,
    pub cutouts: u64,
}

// A level refused: the refusal, the symbols drawn, and the bit that it names (0 before the first draw).
#[derive(Clone, Copy)]
pub struct Refused {
    pub refusal: Refusal,
    pub symbols: u64,
    pub at: usize,
}

// How a level ended.
pub type Drawn = Result<Unpacked, Refused>;
