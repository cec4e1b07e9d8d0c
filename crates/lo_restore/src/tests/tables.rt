// Tables that are restored in a transaction, and saved again as they were.
ghost use Rattle.std.specs.Prelude.{◌≡◌, ◌<◌, ◌^◌, [], ◌∷◌, None, IfOk};
ghost use Rattle.lo_opening.specs.Opening.{AreTables, tables_chunks};
ghost use Rattle.lo_restore.specs.Tries.{body_column, first_table, id_column, long_row, pair_column, pair_row, pair_rows, sample, sample_rows, second_table};

use super::{begun, fill};
use crate::{chunks_held, restore_tables, saved_tables};
use lo_base::{
    Bytes, ColType, Column, ColumnList, Name, NoMemory, RowList, SessionNo, Storage, Value, Values,
};
use lo_opening::{TableData, TableList};
use row_tables::Tables;
use std::alloc::Global;
use std::process::Abort;

/// The flat bytes of the array {7,-1}: a dimension, no offset, the type int4, two elements from 1 on.
const PAIR: [u8; 28] = [
    1, 0, 0, 0, 0, 0, 0, 0, 23, 0, 0, 0, 2, 0, 0, 0, 1, 0, 0, 0, 7, 0, 0, 0, 255, 255, 255, 255,
];

fn id_column(alloc: Global) -> Result<Column, NoMemory>
    ensures { IfOk result (λ column. column ≡ id_column) }
{
    Ok(Column {
        name: Name::from_slice(alloc, b"id")?,
        kind: ColType::Int8,
        storage: Storage::Plain,
    })
}

fn body_column(alloc: Global) -> Result<Column, NoMemory>
    ensures { IfOk result (λ column. column ≡ body_column) }
{
    Ok(Column {
        name: Name::from_slice(alloc, b"body")?,
        kind: ColType::Bytea,
        storage: Storage::External,
    })
}

/// A row of an id and a value.
fn row(alloc: Global, id: i64, body: Value) -> Result<Values, NoMemory>
    ensures { IfOk result (λ row. row ≡ Value.Int id ∷ body ∷ []) }
{
    let mut row = Values::new(alloc);
    row.push(Value::Int(id))?;
    row.push(body)?;
    Ok(row)
}

fn sample_rows(alloc: Global) -> Result<RowList, NoMemory>
    ensures { IfOk result (λ rows. rows ≡ sample_rows) }
{
    let mut rows = RowList::new(alloc);
    rows.push(row(alloc, 0, Value::Null)?)?;
    rows.push(row(alloc, 1, Value::Bytes(fill(alloc, 65, 10)?))?)?;
    Ok(rows)
}

fn first_table(alloc: Global) -> Result<TableData, NoMemory>
    ensures { IfOk result (λ table. table ≡ first_table) }
{
    let mut columns = ColumnList::new(alloc);
    columns.push(id_column(alloc)?)?;
    columns.push(body_column(alloc)?)?;
    Ok(TableData {
        name: Name::from_slice(alloc, b"a")?,
        columns,
        rows: sample_rows(alloc)?,
    })
}

fn pair_column(alloc: Global) -> Result<Column, NoMemory>
    ensures { IfOk result (λ column. column ≡ pair_column) }
{
    Ok(Column {
        name: Name::from_slice(alloc, b"pair")?,
        kind: ColType::Int4Array,
        storage: Storage::Extended,
    })
}

/// A row of an id, a value outside and no array.
fn long_row(alloc: Global) -> Result<Values, NoMemory>
    ensures { IfOk result (λ row. row ≡ long_row) }
{
    let mut row = row(alloc, 0, Value::Bytes(fill(alloc, 66, 5000)?))?;
    row.push(Value::Null)?;
    Ok(row)
}

/// A row of an id, no value and the array.
fn pair_row(alloc: Global, id: u32) -> Result<Values, NoMemory>
    ensures { IfOk result (λ row. row ≡ pair_row id) }
{
    let mut row = row(alloc, id as i64, Value::Null)?;
    row.push(Value::Bytes(Bytes::from_slice(alloc, &PAIR)?))?;
    Ok(row)
}

fn long_rows(alloc: Global) -> Result<RowList, NoMemory>
    ensures { IfOk result (λ rows. rows ≡ long_row ∷ pair_rows 1 300) }
{
    let mut rows = RowList::new(alloc);
    rows.push(long_row(alloc)?)?;
    for id in 1..301 {
        rows.push(pair_row(alloc, id)?)?;
    }
    Ok(rows)
}

fn second_table(alloc: Global) -> Result<TableData, NoMemory>
    ensures { IfOk result (λ table. table ≡ second_table) }
{
    let mut columns = ColumnList::new(alloc);
    columns.push(id_column(alloc)?)?;
    columns.push(body_column(alloc)?)?;
    columns.push(pair_column(alloc)?)?;
    Ok(TableData {
        name: Name::from_slice(alloc, b"ba")?,
        columns,
        rows: long_rows(alloc)?,
    })
}

fn sample(alloc: Global) -> Result<TableList, NoMemory>
    ensures { IfOk result (λ list. list ≡ sample) }
{
    let mut list = TableList::new(alloc);
    list.push(first_table(alloc)?)?;
    list.push(second_table(alloc)?)?;
    Ok(list)
}

/// The list as it is saved, once it was restored.
fn saved_again(alloc: Global, s: SessionNo, list: &TableList) -> Result<TableList, NoMemory>
    requires { list.now ≡ sample }
    ensures rules { IfOk result (AreTables None 1 1) }
    ensures chunks { IfOk result (λ saved. tables_chunks saved < 2 ^ 32) }
{
    let mut core = begun(alloc, s)?;
    let mut tables = Tables::new(alloc)?;
    restore_tables(alloc, &mut tables, &mut core, s, list.items())?;
    let snap = core.xacts.snapshot(s);
    saved_tables(alloc, &tables, &core, &snap)
}

#[test]
fn tables_are_saved_as_they_were_restored(rt: HostRuntime) {
    let alloc = rt.alloc();
    let s = SessionNo::new(1).expect(&rt, "a session");
    let list = sample(alloc).expect(&rt, "memory");
    let saved = saved_again(alloc, s, &list).expect(&rt, "memory");
    let before = format!(in alloc; "{:?}", list.items()).expect(&rt, "memory");
    let after = format!(in alloc; "{:?}", saved.items()).expect(&rt, "memory");
    assert_eq!(&rt; before.len() > 50000, true);
    assert_eq!(&rt; before == after, true);
    // 5000 bytes are two chunks of 1996 and a rest.
    assert_eq!(&rt; chunks_held(saved.items()), 3);
}
