// What a level draws by: the tables of a handed record checked, decoder tables made of them, the planes of a format.
#![tactic(auto)]

mod table_checks; // the tables of a handed record
mod decoders; // the decoder tables
mod planning; // the planes of a format

pub use decoders::{Decoders, Sizes, make_tables, sizes_for};
pub use planning::planes_of;
pub use table_checks::tables_hold;
