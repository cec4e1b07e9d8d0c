// What all stores of a client share.
use xact_core::Xacts;

/// What all stores of versions stand on: the transactions, by which stamps are read. Each store goes with one `Core`.
#[derive(Drop)]
pub struct Core {
    pub xacts: Xacts,
}
