//! The calls on large objects of a session: those that name an object, and those on its descriptors. Pages of objects are
//! those of lo_pages; here stand the rows of the calls, the descriptors, and the counter of picked numbers.
#![tactic(auto)]

mod descs;
mod object_calls;
mod reading;
mod session;
mod store;

pub use descs::Descs;
pub use session::LoSession;
pub use store::LoStore;

#[cfg(test)]
mod bench;
#[cfg(test)]
mod object_tests;
#[cfg(test)]
mod tests;
