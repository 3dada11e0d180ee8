// Opening a file, in one call or by a look's record: the tables segment, the four palettes, and what stands before them, in document 01's
// order.
#![tactic(auto)]

mod lent; // what an opening fills
mod tables_segment; // the code tables of the levels
mod palettes; // the four palettes
mod opening; // the whole opening

pub use opening::{OpenedParts, load_into, open_into};
