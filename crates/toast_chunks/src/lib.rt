//! Long values in chunks of 1996 bytes, in versions: what each kept view reads of them, and the calls that store and erase them.
//!
//! A value gets a number that no other value had, and its bytes never change. Contracts speak of the bytes that a view reads
//! under a number, and of the edits of a place, as a row, that chunks stand for.
#![tactic(auto)]

mod change;
mod chunk_key;
mod chunks;
mod law;

pub use chunks::{CHUNK_BYTES, Chunks};
pub use law::{chunks_go, values_read, values_stand, versions_left};

#[cfg(test)]
mod tests;
