//! Objects of plain data, made in pages by the calls of a session.
ghost use Rattle.std.specs.Prelude.{◌≡◌, ◌<◌, ◌≤◌, ◌+◌, []};
ghost use Rattle.std.specs.Prelude.{◌∷◌, All, length, map, flat_map, OnOk};
ghost use Rattle.lo_model.specs.Edit.{Create};
ghost use Rattle.lo_model.specs.Opening.{object_deeds};
ghost use Rattle.lo_opening.specs.Meaning.{block_write, load_deeds, object_of, tail_cut};
ghost use Rattle.lo_pages.specs.Outcome.{IsNoMemory, LeavesOwn};
ghost use Rattle.lo_pages.specs.Standing.{GoWith};
ghost use Rattle.lo_restore.specs.Objects.{AreOpened, IsFresh, IsLast, IsWritable, Loads};
ghost use Rattle.xact_core.specs.Kept.{HoldsWholeViews};
ghost use Rattle.xact_core.specs.Transactions.{levels_of};

use lo_base::{Bytes, Denied, NoMemory, Oid, SessionNo};
use lo_opening::ObjectData;
use lo_pages::{LARGEST_SIZE, PAGE_BYTES, Pages};
use row_versions::Core;

/// Makes objects in a session's transaction: each by a creation, a write for each stored block, and a cut to its size where
/// zeros stand behind these. An error says that memory was wanting; some of the objects may then be made.
pub fn restore_objects(
    pages: &mut Pages,
    core: &mut Core,
    s: SessionNo,
    objects: &[ObjectData],
) -> Result<(), NoMemory>
    requires open { 0 < length (levels_of core.old.xacts s) }
    requires whole { HoldsWholeViews core.old.xacts }
    requires goes { GoWith core.old.xacts pages.old }
    requires fresh { IsFresh core.old.xacts s 0 pages.old }
    requires rules { AreOpened objects.now }
    // The pages stand for the deeds of an opening with these objects, behind what they stood for.
    ensures ok { OnOk result (Loads core.old.xacts s
        (flat_map object_deeds (map object_of objects.now)) pages.old pages.new) }
    ensures left { LeavesOwn core.old.xacts s pages.old pages.new }
    ensures goes { GoWith core.old.xacts pages.new }
    ensures core { core.new ≡ core.old }
{
    for object in objects {
        restore_object(pages, core, s, object)?;
    }
    Ok(())
}

fn restore_object(
    pages: &mut Pages,
    core: &mut Core,
    s: SessionNo,
    object: &ObjectData,
) -> Result<(), NoMemory>
    requires open { 0 < length (levels_of core.old.xacts s) }
    requires whole { HoldsWholeViews core.old.xacts }
    requires goes { GoWith core.old.xacts pages.old }
    requires fresh { IsFresh core.old.xacts s object.now.oid pages.old }
    requires blocks { All IsWritable object.now.stored }
    requires small { object.now.size ≤ LARGEST_SIZE }
    ensures ok { OnOk result (Loads core.old.xacts s (load_deeds object.now) pages.old pages.new) }
    ensures fresh { OnOk result (IsFresh core.old.xacts s (object.now.oid + 1) pages.new) }
    ensures left { LeavesOwn core.old.xacts s pages.old pages.new }
    ensures goes { GoWith core.old.xacts pages.new }
    ensures core { core.new ≡ core.old }
{
    create_object(pages, core, s, object.oid)?;
    write_blocks(pages, core, s, object.oid, object.stored.items())?;
    cut_tail(pages, core, s, object)
}

fn create_object(pages: &mut Pages, core: &mut Core, s: SessionNo, oid: Oid) -> Result<(), NoMemory>
    requires open { 0 < length (levels_of core.old.xacts s) }
    requires whole { HoldsWholeViews core.old.xacts }
    requires goes { GoWith core.old.xacts pages.old }
    requires fresh { IsFresh core.old.xacts s oid pages.old }
    ensures ok { OnOk result (Loads core.old.xacts s (Create oid ∷ []) pages.old pages.new) }
    ensures last { OnOk result (IsLast core.old.xacts s oid pages.new) }
    ensures left { LeavesOwn core.old.xacts s pages.old pages.new }
    ensures goes { GoWith core.old.xacts pages.new }
    ensures core { core.new ≡ core.old }
{
    match pages.create(core, s, oid) {
        Ok(()) => Ok(()),
        Err(denied) => Err(no_memory(denied)),
    }
}

fn write_blocks(
    pages: &mut Pages,
    core: &mut Core,
    s: SessionNo,
    oid: Oid,
    blocks: &[(u32, Bytes)],
) -> Result<(), NoMemory>
    requires open { 0 < length (levels_of core.old.xacts s) }
    requires whole { HoldsWholeViews core.old.xacts }
    requires goes { GoWith core.old.xacts pages.old }
    requires last { IsLast core.old.xacts s oid pages.old }
    requires blocks { All IsWritable blocks.now }
    ensures ok { OnOk result (Loads core.old.xacts s
        (map (block_write oid) blocks.now) pages.old pages.new) }
    ensures last { OnOk result (IsLast core.old.xacts s oid pages.new) }
    ensures left { LeavesOwn core.old.xacts s pages.old pages.new }
    ensures goes { GoWith core.old.xacts pages.new }
    ensures core { core.new ≡ core.old }
{
    for block in blocks {
        write_block(pages, core, s, oid, block)?;
    }
    Ok(())
}

fn write_block(
    pages: &mut Pages,
    core: &mut Core,
    s: SessionNo,
    oid: Oid,
    block: &(u32, Bytes),
) -> Result<(), NoMemory>
    requires open { 0 < length (levels_of core.old.xacts s) }
    requires whole { HoldsWholeViews core.old.xacts }
    requires goes { GoWith core.old.xacts pages.old }
    requires last { IsLast core.old.xacts s oid pages.old }
    requires block { IsWritable block.now }
    ensures ok { OnOk result (Loads core.old.xacts s
        (block_write oid block.now ∷ []) pages.old pages.new) }
    ensures last { OnOk result (IsLast core.old.xacts s oid pages.new) }
    ensures left { LeavesOwn core.old.xacts s pages.old pages.new }
    ensures goes { GoWith core.old.xacts pages.new }
    ensures core { core.new ≡ core.old }
{
    let at = PAGE_BYTES * block.0 as u64;
    match pages.write(core, s, oid, at, block.1.items()) {
        Ok(()) => Ok(()),
        Err(denied) => Err(no_memory(denied)),
    }
}

/// Cuts an object to its size, where zeros stand behind its last stored block.
fn cut_tail(
    pages: &mut Pages,
    core: &mut Core,
    s: SessionNo,
    object: &ObjectData,
) -> Result<(), NoMemory>
    requires open { 0 < length (levels_of core.old.xacts s) }
    requires whole { HoldsWholeViews core.old.xacts }
    requires goes { GoWith core.old.xacts pages.old }
    requires last { IsLast core.old.xacts s object.now.oid pages.old }
    requires small { object.now.size ≤ LARGEST_SIZE }
    ensures ok { OnOk result (Loads core.old.xacts s (tail_cut object.now) pages.old pages.new) }
    ensures fresh { OnOk result (IsFresh core.old.xacts s (object.now.oid + 1) pages.new) }
    ensures left { LeavesOwn core.old.xacts s pages.old pages.new }
    ensures goes { GoWith core.old.xacts pages.new }
    ensures core { core.new ≡ core.old }
{
    if !object.has_tail() {
        return Ok(());
    }
    match pages.cut(core, s, object.oid, object.size) {
        Ok(()) => Ok(()),
        Err(denied) => Err(no_memory(denied)),
    }
}

/// What a call lacked that nothing refuses.
fn no_memory(denied: Denied) -> NoMemory
    requires { IsNoMemory denied }
{
    match denied {
        Denied::NoMemory => NoMemory,
        Denied::By(_refusal) => unreachable!(),
    }
}
