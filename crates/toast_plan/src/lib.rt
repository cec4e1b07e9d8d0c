//! The layout of a row: which of its values are moved out (PostgreSQL manual, section TOAST), the pointers that they leave,
//! and the bytes of a row in an image.
#![tactic(auto)]

mod choosing;
mod columns;
mod law;
mod layout;
mod lengths;
mod pointer;
mod reading;
mod writing;

pub use choosing::plan;
pub use columns::are_table_columns;
pub use law::{plan_laws, rows_are_told, rows_of_values};
pub use layout::{COLUMN_LIMIT, Plan, ROW_LIMIT, RowTooBig};
pub use lengths::lengths_of;
pub use pointer::{Pointer, VALUE_LIMIT, pointer_bytes, read_pointer};
pub use reading::{ReadRow, read_row};
pub use writing::{ROW_ROOM, row_bytes};

#[cfg(test)]
mod tests;
