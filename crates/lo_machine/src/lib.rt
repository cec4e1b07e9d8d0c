//! The machine that serves requests: the engine, which does one request after another, and the run of sixteen
//! sessions' programs under a schedule, which replays by its type.
#![tactic(auto)]

mod arrays;
mod calls;
mod cells;
mod cleanup;
mod committed;
mod dispatch;
mod engine;
mod law;
mod levels;
mod literals;
mod loading;
mod programs;
mod ranges;
mod rows;
mod running;
mod scanning;
mod server;
mod sweeping;
#[cfg(test)]
mod tests;
mod transactions;
mod variables;

pub use engine::Engine;
pub use law::{
    kept_views_are_the_states, orders_are_whole, plain_lines_take_one_advance,
    sweeps_remove_what_no_scan_found,
};
pub use programs::Programs;
pub use running::{Finished, Replies, Running, Schedule, is_before_report};
