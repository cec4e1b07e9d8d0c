//! Programs run by threads: one for each session, of which only the one with the turn advances the run.
#![tactic(auto)]

mod hand;
mod run;
#[cfg(test)]
mod tests;
mod worker;

pub use run::run_threads;
