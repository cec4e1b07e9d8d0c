//! Transactions of up to sixteen sessions: the clock, the levels that savepoints add, the stamps that edits are given,
//! the snapshots that tell which edits a view has, and the views that are kept for readers.
//!
//! A stamp never changes. Whose it is now is read through `Xacts`, so that the end of a level or of a transaction costs
//! what the session has open, and nothing for each edit.
#![tactic(auto)]

mod fate;
mod law;
mod session;
mod snapshot;
mod stamp;
mod xacts;

pub use law::{laws_of_kept_views, laws_of_views};
pub use snapshot::{Hold, Snapshot};
pub use stamp::Stamp;
pub use xacts::Xacts;
