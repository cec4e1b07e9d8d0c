use std::marker::Model;

/// A block in use of one pool, as `Pool::take` gives it; contracts see its index there. It has no copy, so whoever holds
/// it decides when it is given back. A block that is dropped was not given back, and stays in use as long as its pool.
#[derive(Debug, Drop)]
pub struct Block {
    pub(crate) index: u32,
}

impl Model for Block {
    ghost use Rattle.std.specs.Prelude.{ℕ};

    ghost Value = { ℕ };

    ghost view = { λ b. b.index };
}
