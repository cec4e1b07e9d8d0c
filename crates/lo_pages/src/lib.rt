//! Large objects as pages of 2048 bytes, in versions: what each kept view reads of them, and the calls that change them.
//!
//! Three stores of versions stand for the edits of objects: whether an object is there, its pages, and the marks of cuts.
//! Contracts speak of the edits that pages stand for, and of the objects that edits make.
#![tactic(auto)]

mod change;
mod law;
mod page_key;
mod pages;
mod span;

pub use law::{edits_closed, held_pages, pages_go, pages_read, pages_stand, versions_left};
pub use pages::{LARGEST_SIZE, PAGE_BYTES, Pages};

#[cfg(test)]
mod tests;
