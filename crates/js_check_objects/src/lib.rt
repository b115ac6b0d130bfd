//! What is still to be shown at objects: rows of names, bounds of cells, and then plans.
//!
//! Rows are stated and judged line by line, and then bounds of their cells, by labels of rows. What literals say of
//! names is determined by the truths of their atoms at the rows, so nothing is explored. After the last bound comes the
//! plan over the cells, with the bounds that were stated.
#![tactic(auto)]

mod cell_tests;
mod grouping;
mod name_cells;
mod object_frame;
mod open_bounds;
mod open_object;
mod open_plan;
mod open_rows;
mod stage;
mod stated_bound;
mod stated_cells;
mod telling;

pub use open_object::OpenObject;
