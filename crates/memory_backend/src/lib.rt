//! The cells of a store of which each backend is in memory, and the steps of a call on them, while other threads take theirs.
#![tactic(auto)]

mod cell;
mod cell_number;
mod direct;
mod laws;
mod opening;

pub use cell::{CellContents, CellKind, CellOp, CellPart, StoreCell};
pub use cell_number::cell_of;
pub use direct::{Direct, StorePass, StoreTable};
pub use laws::{numbers_are_own, opening_is_empty, steps_are_the_stores};
pub use opening::opening_cells;
