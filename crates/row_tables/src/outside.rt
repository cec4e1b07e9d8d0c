// Values outside: fetched into their rows, moved out of them, and erased. Each call goes over the cells of one row.
ghost use Rattle.std.specs.Prelude.{◌≡◌, ◌<◌, ℕ, false, List, length, IfOk, OnOk};
ghost use Rattle.xact_core.specs.Transactions.{levels_of};
ghost use Rattle.row_versions.specs.Count.{Different};
ghost use Rattle.row_versions.specs.Looks.{IsLook};
ghost use Rattle.row_versions.specs.Stack.{Each};
ghost use Rattle.toast_chunks.specs.Calls.{IsFree, LeavesOwn};
ghost use Rattle.toast_chunks.specs.Values.{GoWith, HasValue, next_number};
ghost use Rattle.row_tables.specs.Cells.{Told, all_brought, all_moved, all_settled, brought, moved_out_of, settled, whole_row};
ghost use Rattle.row_tables.specs.Outside.{ErasesAll, FitsLength, HasItsValue, HasOutside, MovesAll, cell_or};

use crate::cells::copy_of;
use lo_base::{Bytes, Cell, NoMemory, SessionNo};
use row_versions::Core;
use std::alloc::Global;
use toast_chunks::Chunks;
use xact_core::Snapshot;

/// The bytes of a value that a view has.
fn fetched(
    alloc: Global,
    chunks: &Chunks,
    core: &Core,
    snap: &Snapshot,
    count: u32,
    value: u64,
) -> Result<Bytes, NoMemory>
    requires kept { IsLook core.now.xacts snap.now }
    ensures { (bytes : List ℕ) → count ≡ length bytes →
        HasValue core.now.xacts snap.now chunks.now value bytes → IfOk result (λ b. b ≡ bytes) }
{
    let mut bytes = Vec::from_elem(alloc, 0, count as usize)?;
    chunks.fetch_into(core, snap, value, &mut bytes);
    Ok(Bytes::from_vec(bytes))
}

/// A cell with its value, where that is outside. Any other cell stays as it is.
fn brought(
    alloc: Global,
    chunks: &Chunks,
    core: &Core,
    snap: &Snapshot,
    cell: &Cell,
) -> Result<Option<Cell>, NoMemory>
    requires kept { IsLook core.now.xacts snap.now }
    ensures { (told : ℕ → Told) → HasItsValue told core.now.xacts snap.now chunks.now cell.now →
        IfOk result (λ found. cell_or found cell.now ≡ brought told false cell.now) }
{
    match cell {
        Cell::Outside { length, value } => {
            let bytes = fetched(alloc, chunks, core, snap, *length, *value)?;
            Ok(Some(Cell::Inline(bytes)))
        }
        Cell::Null | Cell::Int(_) | Cell::Oid(_) | Cell::Inline(_) | Cell::Text(_) => Ok(None),
    }
}

fn whole_cell(
    alloc: Global,
    chunks: &Chunks,
    core: &Core,
    snap: &Snapshot,
    cell: &Cell,
) -> Result<Cell, NoMemory>
    requires kept { IsLook core.now.xacts snap.now }
    ensures { (told : ℕ → Told) → HasItsValue told core.now.xacts snap.now chunks.now cell.now →
        IfOk result (λ whole. whole ≡ brought told false cell.now) }
{
    match brought(alloc, chunks, core, snap, cell)? {
        Some(whole) => Ok(whole),
        None => copy_of(alloc, cell),
    }
}

/// A copy of a row with all of its values.
pub(crate) fn whole_row(
    alloc: Global,
    chunks: &Chunks,
    core: &Core,
    snap: &Snapshot,
    row: &[Cell],
) -> Result<Vec<Cell>, NoMemory>
    requires kept { IsLook core.now.xacts snap.now }
    ensures { (told : ℕ → Told) → HasOutside told core.now.xacts snap.now chunks.now row.now →
        IfOk result (λ whole. whole.items ≡ whole_row told row.now) }
{
    let mut whole = Vec::with_capacity(alloc, row.len())?;
    for cell in row {
        whole.push(whole_cell(alloc, chunks, core, snap, cell)?)?;
    }
    Ok(whole)
}

/// Brings the values into a row that are not to be outside.
pub(crate) fn bring_in(
    alloc: Global,
    chunks: &Chunks,
    core: &Core,
    snap: &Snapshot,
    row: &mut Vec<Cell>,
    outside: &[bool],
) -> Result<(), NoMemory>
    requires kept { IsLook core.now.xacts snap.now }
    requires lengths { length outside.now ≡ length row.old.items }
    ensures { (told : ℕ → Told) → HasOutside told core.now.xacts snap.now chunks.now row.old.items →
        OnOk result (row.new.items ≡ all_brought told outside.now row.old.items) }
{
    for place in 0..row.len() {
        if !outside[place] {
            if let Some(cell) = brought(alloc, chunks, core, snap, &row[place])? {
                row[place] = cell;
            }
        }
    }
    Ok(())
}

/// Moves the value of a cell out, where it is to be outside and is not.
fn moved_out(
    chunks: &mut Chunks,
    core: &mut Core,
    s: SessionNo,
    cell: &Cell,
    outside: bool,
) -> Result<Option<Cell>, NoMemory>
    requires open { 0 < length (levels_of core.old.xacts s) }
    requires goes { GoWith core.old.xacts chunks.old }
    requires short { FitsLength cell.now }
    ensures cell { IfOk result (λ found. cell_or found cell.now
        ≡ settled outside cell.now (next_number chunks.old)) }
    ensures ok { OnOk result (MovesAll core.old.xacts s
        (moved_out_of outside cell.now (next_number chunks.old)) chunks.old chunks.new) }
    ensures left { LeavesOwn core.old.xacts s chunks.old chunks.new }
    ensures goes { GoWith core.old.xacts chunks.new }
    ensures core { core.new ≡ core.old }
{
    match cell {
        Cell::Inline(bytes) if outside => {
            let value = chunks.store(core, s, bytes.items())?;
            Ok(Some(Cell::Outside {
                length: bytes.items().len() as u32,
                value,
            }))
        }
        _ => Ok(None),
    }
}

/// Moves the values out of a row that are to be outside.
pub(crate) fn move_out(
    chunks: &mut Chunks,
    core: &mut Core,
    s: SessionNo,
    row: &mut Vec<Cell>,
    outside: &[bool],
) -> Result<(), NoMemory>
    requires open { 0 < length (levels_of core.old.xacts s) }
    requires goes { GoWith core.old.xacts chunks.old }
    requires lengths { length outside.now ≡ length row.old.items }
    requires short { Each FitsLength row.old.items }
    ensures row { OnOk result (row.new.items
        ≡ all_settled outside.now row.old.items (next_number chunks.old)) }
    ensures ok { OnOk result (MovesAll core.old.xacts s
        (all_moved outside.now row.old.items (next_number chunks.old)) chunks.old chunks.new) }
    ensures left { LeavesOwn core.old.xacts s chunks.old chunks.new }
    ensures goes { GoWith core.old.xacts chunks.new }
    ensures core { core.new ≡ core.old }
{
    for place in 0..row.len() {
        if let Some(cell) = moved_out(chunks, core, s, &row[place], outside[place])? {
            row[place] = cell;
        }
    }
    Ok(())
}

/// Erases the values of some numbers, each of which no other session holds.
pub(crate) fn erase_all(
    chunks: &mut Chunks,
    core: &Core,
    s: SessionNo,
    numbers: &[u64],
) -> Result<(), NoMemory>
    requires open { 0 < length (levels_of core.now.xacts s) }
    requires goes { GoWith core.now.xacts chunks.old }
    requires free { Each (IsFree core.now.xacts s chunks.old) numbers.now }
    requires once { Different numbers.now }
    ensures ok { OnOk result (ErasesAll core.now.xacts s numbers.now chunks.old chunks.new) }
    ensures left { LeavesOwn core.now.xacts s chunks.old chunks.new }
    ensures goes { GoWith core.now.xacts chunks.new }
{
    for number in numbers {
        let Ok(()) = chunks.erase(core, s, *number) else {
            return Err(NoMemory);
        };
    }
    Ok(())
}
