//! What the store means: edits stamped with clocks and owners, views that filter them, the objects and rows that a
//! view folds to, and what sessions have beside: transaction blocks, descriptors, cursors. The definitions stand in `specs/`, a file each; the code here is the two types that definitions
//! and code share, and laws.
#![tactic(auto)]

mod law;
mod owner;
mod viewer;

pub use law::{conflicts, holdings, listings};
pub use owner::Owner;
pub use viewer::Viewer;
