//! The sweep of vacuumlo (PostgreSQL manual, vacuumlo): which act of a clean-up of unreferenced large objects comes next.
//! It does no act itself: its caller asks for the next act, does it, and tells what came of it.
#![tactic(auto)]

mod act;
mod law;
mod sweep;

pub use act::{Scan, Scans, SweepAct, Told};
pub use law::{sweeps_by_answers, sweeps_end};
pub use sweep::Sweep;

#[cfg(test)]
mod tests;
