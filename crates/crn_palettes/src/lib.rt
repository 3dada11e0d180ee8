// The parts that the four palettes (document 01, Palettes) are read by, each from its segment into a lent buffer: a code table, its decoder
// table, and whether small arrays do for them.
#![tactic(auto)]

mod reading;

pub use reading::{build_decoder, few, receive_lengths};
