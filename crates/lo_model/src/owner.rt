use lo_base::{Clock, SessionNo};

/// Whose an edit is: a session's open transaction, at one of its levels, or committed at a clock.
#[derive(Clone, Copy, Debug, PartialEq, Eq)]
pub enum Owner {
    /// The session, and the level from 1: 1 is the transaction's own, each savepoint adds one.
    Running(SessionNo, u64),
    Committed(Clock),
}
