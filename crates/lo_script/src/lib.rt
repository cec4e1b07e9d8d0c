//! The text form of runs: scripts are read into programs and their order, and replies are
//! printed as lines.
#![tactic(auto)]

mod array_form;
mod error;
mod form;
mod large_object_form;
mod law;
mod reply;
mod script;
mod sweep_form;
mod table_form;
#[cfg(test)]
mod tests;
mod token;
mod value_token;

pub use error::{BadLine, ScriptError};
pub use law::{replies_are_lines, tokens_spell};
pub use reply::reply_text;
pub use script::{Marking, Script, read_program, read_script};
pub use token::decimal;
