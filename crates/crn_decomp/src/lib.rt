// The beginning of opening (the Rust's crn_decomp.rs): the header with its signature, limits and sizes; and whether a record is what the
// look finds. It takes any file.
#![tactic(auto)]

mod header_look; // the look
mod agreeing; // a record against a file

pub use agreeing::agrees;
pub use header_look::{look, look_at};
