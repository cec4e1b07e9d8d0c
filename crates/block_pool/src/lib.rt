//! A pool of blocks of 2048 bytes, which takes all its memory when it is made. Pages of large objects and chunks of
//! stored values lie in such blocks, one each.
#![tactic(auto)]

mod block;
mod pool;
mod room;
#[cfg(test)]
mod tests;

pub use block::Block;
pub use pool::{Pool, PoolFull};
