// The public entry (the Rust's crunch.rs): a file opened, in one call or by a look and a load, and a level unpacked, with the record whole
// or by its parts; all its levels in one call; and all of them as a DDS file. None asks anything of its caller.
#![tactic(auto)]

mod whole; // the record whole

pub use crn_decomp::{look, look_at};
pub use crn_level::{Refused, Unpacked, unpack_level, unpack_level_by};
pub use crn_levels::{Several, unpack_levels};
pub use crn_opening::{OpenedParts, load_into, open_into};
pub use dds::{dds_bytes, write_dds};
pub use picture::Written;
pub use whole::{load, open};
