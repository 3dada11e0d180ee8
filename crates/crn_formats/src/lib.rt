// What checks of a header are made of: the limits, conditions put together, and which planes a format has. And what is lent beside a header.
#![tactic(auto)]

mod limits; // the limits of document 01
mod conditions; // conditions put together
mod formats; // which planes a format has
mod records; // what is lent beside a header

pub use conditions::{between, implies};
pub use formats::{block_bytes, has_alpha, has_color, is_known};
pub use limits::{MAX_ENTRIES, MAX_LEVELS, MAX_SIDE, MIN_SIZE, TOO_LONG};
pub use records::{CodeTables, Counts, Palettes, TableSlices};
