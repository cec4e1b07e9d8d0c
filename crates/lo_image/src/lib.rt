//! Images: a database as bytes, written to a file, and read back with the place of the first field that
//! does not hold.
#![tactic(auto)]

mod buffer;
mod columns;
mod fault;
mod fields;
mod law;
mod objects;
mod outside;
mod place;
mod plans;
mod put_chunks;
mod put_columns;
mod put_objects;
mod put_tables;
mod putting;
mod reading;
mod rows;
mod tables;
#[cfg(test)]
mod tests;
mod values;
mod writing;

pub use fault::{BadImage, Defect, Fault, ImageError, Stop};
pub use law::one_image;
pub use place::{BlockPlace, ChunkPlace, ObjectPlace, RowPlace, TableCells, TableCellsList};
pub use reading::read_image;
pub use writing::write_image;
