use lo_base::SessionNo;

/// What a worker passes before its first try for the turn of each line, so that a test can hold workers back.
pub trait Gate {
    /// The session, and the line of its program, from 1.
    fn before(&self, session: SessionNo, line: u64);
}

/// The gate that holds nobody back.
#[derive(Clone, Copy, Debug, PartialEq, Eq)]
pub struct OpenGate;

impl Gate for OpenGate {
    fn before(&self, _session: SessionNo, _line: u64) {}
}
