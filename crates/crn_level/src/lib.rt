// A level unpacked: the checks before it in their order, and then its chunks.
#![tactic(auto)]

mod unpacking;

pub use crn_drawing::{Drawn, Refused, Unpacked};
pub use unpacking::{unpack_level, unpack_level_by, unpack_made};
