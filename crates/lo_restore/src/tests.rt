// Data that is restored and saved again.
ghost use Rattle.std.specs.Prelude.{◌≡◌, None, IfOk, replicate};
ghost use Rattle.xact_core.specs.Ends.{Opens};
ghost use Rattle.xact_core.specs.Transactions.{beginning};

use lo_base::{Bytes, NoMemory, SessionNo};
use row_versions::Core;
use std::alloc::Global;
use xact_core::Xacts;

mod objects;
mod tables;

/// Transactions, of which session `s` has begun its first one.
fn begun(alloc: Global, s: SessionNo) -> Result<Core, NoMemory>
    ensures { IfOk result (λ core. Opens s None beginning core.xacts) }
{
    let mut xacts = Xacts::new(alloc)?;
    xacts.begin(s)?;
    Ok(Core { xacts })
}

/// So many times one byte.
fn fill(alloc: Global, byte: u8, count: usize) -> Result<Bytes, NoMemory>
    ensures { IfOk result (λ bytes. bytes ≡ replicate count byte) }
{
    Ok(Bytes::from_vec(Vec::from_elem(alloc, byte, count)?))
}
