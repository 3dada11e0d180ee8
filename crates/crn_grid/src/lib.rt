// A level's grid of blocks, of any handed header: its pitch and distance (refusal 11), and whether a destination holds it (12).
#![tactic(auto)]

mod grid;

pub use grid::{columns_of, grid_fits, reaches, rows_of};
