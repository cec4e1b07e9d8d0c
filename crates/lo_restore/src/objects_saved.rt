//! Objects read out of a view of pages, as plain data.
ghost use Rattle.std.specs.Prelude.{◌≡◌, ◌<◌, ◌≤◌, ◌^◌, ◌+◌, List, length, IfOk};
ghost use Rattle.lo_model.specs.Descriptor.{bytes_or_none};
ghost use Rattle.lo_model.specs.Edit.{Deed, Edit};
ghost use Rattle.lo_model.specs.Object.{object_in};
ghost use Rattle.lo_opening.specs.Opening.{blocks_held};
ghost use Rattle.lo_opening.specs.Meaning.{page_with_number, stored_of};
ghost use Rattle.lo_pages.specs.Standing.{ReadsAs};
ghost use Rattle.lo_restore.specs.Objects.{AreSaved, Reads};
ghost use Rattle.row_versions.specs.Looks.{IsLook};

use lo_base::{Bytes, ListOf, NoMemory, Oid};
use lo_opening::{ObjectData, ObjectList, StoredBlocks};
use lo_pages::{PAGE_BYTES, Pages};
use row_versions::Core;
use std::alloc::Global;
use xact_core::Snapshot;

/// No more blocks of pools and files can be counted.
const BLOCKS_LIMIT: u64 = 0x1_0000_0000;

/// The objects of a view by ascending number, of each the pages that have a byte other than 0. `held` blocks are held by what
/// stands before them; where these and the objects' would be 4294967296 or more, it answers `NoMemory`, since no opening has
/// so many.
pub fn saved_objects(
    alloc: Global,
    pages: &Pages,
    core: &Core,
    snap: &Snapshot,
    held: u64,
) -> Result<ObjectList, NoMemory>
    requires kept { IsLook core.now.xacts snap.now }
    requires reads { Reads core.now.xacts snap.now pages.now }
    requires few { held < 2 ^ 32 }
    ensures { IfOk result (AreSaved core.now.xacts snap.now pages.now held) }
{
    let mut objects = ListOf::new(alloc);
    let mut from = 0;
    let mut sum = held;
    loop {
        let Some(oid) = pages.next_object(core, snap, from) else {
            return Ok(objects);
        };
        let object = saved_object(alloc, pages, core, snap, oid)?;
        sum = held_with(sum, &object)?;
        objects.push(object)?;
        let Some(next) = oid.checked_add(1) else {
            return Ok(objects);
        };
        from = next;
    }
}

/// How many blocks are held with those of an object.
fn held_with(held: u64, object: &ObjectData) -> Result<u64, NoMemory>
    requires few { held < 2 ^ 32 }
    requires stored { length object.now.stored ≤ 2 ^ 32 }
    ensures sum { IfOk result (λ sum. sum ≡ held + blocks_held object.now) }
    ensures few { IfOk result (λ sum. sum < 2 ^ 32) }
{
    let sum = held + object.blocks_held();
    if sum >= BLOCKS_LIMIT {
        return Err(NoMemory);
    }
    Ok(sum)
}

fn saved_object(
    alloc: Global,
    pages: &Pages,
    core: &Core,
    snap: &Snapshot,
    oid: Oid,
) -> Result<ObjectData, NoMemory>
    requires kept { IsLook core.now.xacts snap.now }
    requires reads { Reads core.now.xacts snap.now pages.now }
    ensures { IfOk result (λ o. (edits : List (Edit Deed)) →
        ReadsAs core.now.xacts snap.now pages.now edits → o ≡ record {
          oid = oid;
          size = length (bytes_or_none (object_in oid edits));
          stored = stored_of (bytes_or_none (object_in oid edits));
        }) }
{
    let stored = saved_blocks(alloc, pages, core, snap, oid)?;
    let size = pages.size(core, snap, oid);
    Ok(ObjectData { oid, size, stored })
}

fn saved_blocks(
    alloc: Global,
    pages: &Pages,
    core: &Core,
    snap: &Snapshot,
    oid: Oid,
) -> Result<StoredBlocks, NoMemory>
    requires kept { IsLook core.now.xacts snap.now }
    requires reads { Reads core.now.xacts snap.now pages.now }
    ensures { IfOk result (λ bs. (edits : List (Edit Deed)) →
        ReadsAs core.now.xacts snap.now pages.now edits →
        bs ≡ stored_of (bytes_or_none (object_in oid edits))) }
{
    let mut blocks = ListOf::new(alloc);
    let mut from = 0;
    loop {
        let Some(number) = pages.next_block(core, snap, oid, from) else {
            return Ok(blocks);
        };
        blocks.push(saved_block(alloc, pages, core, snap, oid, number)?)?;
        let Some(next) = number.checked_add(1) else {
            return Ok(blocks);
        };
        from = next;
    }
}

fn saved_block(
    alloc: Global,
    pages: &Pages,
    core: &Core,
    snap: &Snapshot,
    oid: Oid,
    number: u32,
) -> Result<(u32, Bytes), NoMemory>
    requires kept { IsLook core.now.xacts snap.now }
    requires reads { Reads core.now.xacts snap.now pages.now }
    ensures { IfOk result (λ b. (edits : List (Edit Deed)) →
        ReadsAs core.now.xacts snap.now pages.now edits →
        b ≡ page_with_number (bytes_or_none (object_in oid edits)) number) }
{
    let mut page = [0; 2048];
    let at = PAGE_BYTES * number as u64;
    let count = pages.read_into(core, snap, oid, at, &mut page);
    Ok((number, ListOf::from_slice(alloc, &page[..count])?))
}
