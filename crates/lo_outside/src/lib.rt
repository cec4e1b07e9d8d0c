//! What the store touches of the outside: files, sinks of bytes, and the gate that workers pass. Each is a trait with
//! a double in memory, whose failures are chosen, and an adapter over the system.
#![tactic(auto)]

mod fault_plan;
mod files;
mod gate;
mod host_files;
mod host_sink;
mod mem_files;
mod mem_sink;
mod place;
mod sink;

pub use files::{Failed, Files};
pub use gate::{Gate, OpenGate};
pub use host_files::HostFiles;
pub use host_sink::{HostSink, Standard};
pub use mem_files::MemFiles;
pub use mem_sink::MemSink;
pub use sink::Sink;

#[cfg(test)]
mod tests;
