//! Tables of rows in versions, with their long values in chunks: the calls that make tables, change and read rows, and keep
//! cursors on them.
//!
//! A row is found by its table's number and its id. What stands in the row are cells; a cell outside has the length and the
//! number of a value, whose chunks lie beside. Contracts speak of edits of rows, and of the row that a view folds them to.
#![tactic(auto)]

mod catalog;
mod cells;
mod change;
mod cursor_calls;
mod cursors;
mod law;
mod outside;
mod reading;
mod rewrite;
mod row_key;
mod tables;

pub use change::Change;
pub use law::{tables_go, tables_read, tables_stand, versions_left};
pub use tables::{MOST_TABLES, Tables};

#[cfg(test)]
mod bench;
#[cfg(test)]
mod spelled;
#[cfg(test)]
mod tests;
