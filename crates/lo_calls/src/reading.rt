// Reading a part of an object into one buffer of exactly its bytes.
ghost use Rattle.std.specs.Prelude.{◌≡◌, length, IfOk, IfErr};
ghost use Rattle.row_versions.specs.Looks.{IsLook};
ghost use Rattle.lo_calls.specs.Reading.{ReadsPart, DeniesPart};

use crate::session::refused;
use crate::store::LoStore;
use lo_base::{Bytes, Cause, Denied, NoMemory, Oid};
use row_versions::Core;
use std::alloc::Global;
use xact_core::Snapshot;

/// The most bytes that one call reads.
const READ_LIMIT: u64 = 16777216;

/// No object has a byte from here on, since numbers of pages have 32 bits.
const OBJECT_END: u64 = 8796093022208;

/// The object's bytes in a view from an offset on, at most so many. It is refused with `TooMuch` where these are more than
/// `READ_LIMIT`.
pub(crate) fn read_bytes(
    alloc: Global,
    store: &LoStore,
    core: &Core,
    snap: &Snapshot,
    oid: Oid,
    at: u64,
    most: u64,
) -> Result<Bytes, Denied>
    requires kept { IsLook core.now.xacts snap.now }
    ensures ok { IfOk result (ReadsPart core.now.xacts snap.now store.now.pages oid at most) }
    ensures err { IfErr result (DeniesPart core.now.xacts snap.now store.now.pages oid at most) }
{
    let end = store.pages.size(core, snap, oid).min(OBJECT_END);
    let count = end.saturating_sub(at).min(most);
    if count > READ_LIMIT {
        return Err(refused(Cause::TooMuch, count as i64));
    }
    let mut bytes = zeros(alloc, count as usize)?;
    store.pages.read_into(core, snap, oid, at, &mut bytes);
    Ok(Bytes::from_vec(bytes))
}

/// So many zeros.
fn zeros(alloc: Global, count: usize) -> Result<Vec<u8>, NoMemory>
    ensures { IfOk result (λ bytes. length bytes.items ≡ count) }
{
    let mut bytes = Vec::new(alloc);
    bytes.resize(count, 0)?;
    Ok(bytes)
}
