//! A store made of plain data, and plain data made of a store.
#![tactic(auto)]

mod objects;
mod objects_saved;
mod tables_counted;
mod tables_law;
mod tables_restored;
mod tables_saved;
#[cfg(test)]
mod tests;

pub use objects::restore_objects;
pub use objects_saved::saved_objects;
pub use tables_counted::chunks_held;
pub use tables_law::{new_tables_are_empty, restored_tables_stand};
pub use tables_restored::restore_tables;
pub use tables_saved::saved_tables;
