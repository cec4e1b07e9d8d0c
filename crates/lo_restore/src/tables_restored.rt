// Tables made of plain data: each table of a list is made, and each of its rows put, in one transaction. The store refuses none of
// them, since the list keeps the rules of an opening.
ghost use Rattle.std.specs.Prelude.{◌≡◌, ◌≤◌, [], ◌∷◌, None, IfOk, OnOk, length, map};
ghost use Rattle.lo_model.specs.Opening.{table_deeds};
ghost use Rattle.lo_opening.specs.Opening.{AreTables, marks_of};
ghost use Rattle.lo_restore.specs.Tables.{deeds_in, named_of, rows_of};
ghost use Rattle.lo_restore.specs.TablesRestored.{CanTakeRows, CanTakeTable, DoMore, HaveDone, IsAlone};

use lo_base::{Column, ColumnList, Denied, Name, NoMemory, SessionNo};
use lo_opening::TableData;
use row_tables::Tables;
use row_versions::Core;
use std::alloc::Global;

/// Makes the tables of a list with their rows, at clock 0 and at the top level of a session's transaction: no other session has
/// one. There are no tables before, and no cursors. It costs the list. After want of memory the tables may stand for no edits:
/// let them go.
pub fn restore_tables(
    alloc: Global,
    tables: &mut Tables,
    core: &mut Core,
    s: SessionNo,
    list: &[TableData],
) -> Result<(), NoMemory>
    requires alone { IsAlone core.old.xacts s }
    requires none { HaveDone core.old.xacts s tables.old [] [] }
    requires rules { AreTables None 1 1 list.now }
    requires few { length list.now ≤ 1000 }
    ensures ok { OnOk result (HaveDone core.old.xacts s tables.new (map named_of list.now)
        (deeds_in list.now)) }
    ensures core { core.new ≡ core.old }
{
    for table in list {
        restore_table(alloc, tables, core, s, table)?;
    }
    Ok(())
}

/// Makes a table with its rows.
fn restore_table(
    alloc: Global,
    tables: &mut Tables,
    core: &mut Core,
    s: SessionNo,
    table: &TableData,
) -> Result<(), NoMemory>
    requires alone { IsAlone core.old.xacts s }
    requires can { CanTakeTable core.old.xacts s tables.old table.now }
    ensures ok { OnOk result (DoMore core.old.xacts s (named_of table.now ∷ [])
        (table_deeds marks_of (rows_of table.now)) tables.old tables.new) }
    ensures core { core.new ≡ core.old }
{
    let name = Name::from_slice(alloc, table.name.items())?;
    let columns = copy_of(alloc, table.columns.items())?;
    match tables.create_table(core, s, name, columns) {
        Ok(()) => restore_rows(tables, core, s, table),
        Err(Denied::NoMemory) => Err(NoMemory),
        Err(Denied::By(_)) => unreachable!(),
    }
}

/// Puts the rows of a table that is there.
fn restore_rows(
    tables: &mut Tables,
    core: &mut Core,
    s: SessionNo,
    table: &TableData,
) -> Result<(), NoMemory>
    requires alone { IsAlone core.old.xacts s }
    requires can { CanTakeRows core.old.xacts s tables.old table.now table.now.rows }
    ensures ok { OnOk result (DoMore core.old.xacts s []
        (table_deeds marks_of (rows_of table.now)) tables.old tables.new) }
    ensures core { core.new ≡ core.old }
{
    for row in table.rows.items() {
        match tables.insert(core, s, &table.name, row.items()) {
            Ok(()) => {}
            Err(Denied::NoMemory) => return Err(NoMemory),
            Err(Denied::By(_)) => unreachable!(),
        }
    }
    Ok(())
}

/// The same columns once more.
pub(crate) fn copy_of(alloc: Global, columns: &[Column]) -> Result<ColumnList, NoMemory>
    ensures { IfOk result (λ copy. copy ≡ columns.now) }
{
    let mut copy = ColumnList::new(alloc);
    for column in columns {
        let name = Name::from_slice(alloc, column.name.items())?;
        copy.push(Column {
            name,
            kind: column.kind,
            storage: column.storage,
        })?;
    }
    Ok(copy)
}
