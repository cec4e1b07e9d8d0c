//! The types that every layer of the store shares: numbers of sessions, lists of bytes, rows and names,
//! values and columns, requests, replies, and the causes of refusals with their SQLSTATE codes and texts.
#![tactic(auto)]

mod column;
mod list;
mod memory;
mod name;
mod refusal;
mod reply;
mod request;
mod session;
mod steps;
#[cfg(test)]
mod tests;
mod value;

pub use column::{ColType, Column, ColumnList, Storage};
pub use list::{Bytes, Ids, ListOf, Name, Oids};
pub use memory::NoMemory;
pub use name::{NAME_BYTES, is_name};
pub use refusal::{Cause, Code, Denied, Refusal};
pub use reply::{Reply, Word};
pub use request::{Assign, Assignments, Request, Requests};
pub use session::{SESSIONS, SessionNo};
pub use steps::Steps;
pub use value::{Cell, Cells, Literal, Literals, RowList, Value, Values};

/// The number of a large object, as PostgreSQL's oid.
pub type Oid = u32;

/// A point in time: the number of requests made before, plus 1.
pub type Clock = u64;
