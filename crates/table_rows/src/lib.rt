//! Tables of outside values: how a file's rows are compared with what the calls answer, the cells that are read, and what is said.
//! For the programs that test the other crates by such tables.
#![tactic(auto)]

mod cells;
mod rows;
mod said;

pub use cells::Cells;
pub use rows::{Rows, compared};
pub use said::Said;
