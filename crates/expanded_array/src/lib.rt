//! One-dimensional arrays of int4, as a variable holds them: as flat bytes until the first change, and expanded from then on.
//!
//! The bounds, the text and the flat form are PostgreSQL's (manual, Arrays; source, utils/array.h).
#![tactic(auto)]

mod array_var;
mod elements;
mod expanded;
mod flat_array;
mod law;
mod layout;
mod reading;
#[cfg(test)]
mod tests;
mod text;

pub use array_var::ArrayVar;
pub use law::{
    flat_bytes_are_read, flat_bytes_tell, printed_text_spells, set_changes_one, text_spells_one,
    texts_are_read,
};
pub use layout::is_flat;
