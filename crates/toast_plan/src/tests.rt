//! Worked rows and their edges, typed from the rules, and each public call once.
ghost use Rattle.std.specs.Prelude.{◌↔◌, IsTrue};
ghost use Rattle.toast_plan.specs.Row.{FitsType, FitColumns, StartsWithId};
ghost use Rattle.toast_plan.specs.Columns.{AreLengths, HasLengthIfThere};

use super::*;
use lo_base::{ColType, Column, ListOf, NoMemory, Storage, Value};
use std::alloc::Global;
use std::process::Abort;
use std::test::Fail;

const ID: (ColType, Storage) = (ColType::Int8, Storage::Plain);

const INT8: (ColType, Storage) = (ColType::Int8, Storage::Plain);

const OID: (ColType, Storage) = (ColType::Oid, Storage::Plain);

const PLAIN: (ColType, Storage) = (ColType::Bytea, Storage::Plain);

const EXTERNAL: (ColType, Storage) = (ColType::Bytea, Storage::External);

const EXTENDED: (ColType, Storage) = (ColType::Int4Array, Storage::Extended);

const MAIN: (ColType, Storage) = (ColType::Bytea, Storage::Main);

/// Columns of these types and storages, the first under the name `id`.
fn columns_of(alloc: Global, kinds: &[(ColType, Storage)]) -> Result<Vec<Column>, NoMemory> {
    let mut columns = Vec::new(alloc);
    for (place, (kind, storage)) in kinds.iter().enumerate() {
        let digits = [
            b'c',
            b'0' + (place / 10 % 10) as u8,
            b'0' + (place % 10) as u8,
        ];
        let name = if place == 0 {
            b"id".as_slice()
        } else {
            digits.as_slice()
        };
        columns.push(Column {
            name: ListOf::from_slice(alloc, name)?,
            kind: *kind,
            storage: *storage,
        })?;
    }
    Ok(columns)
}

fn has_length(kind: ColType, length: Option<u32>) -> bool
    ensures { IsTrue result ↔ HasLengthIfThere kind length }
{
    match (kind, length) {
        (_, None) => true,
        (ColType::Int8, Some(n)) => n == 8,
        (ColType::Oid | ColType::Lo, Some(n)) => n == 4,
        (ColType::Bytea | ColType::Int4Array, Some(n)) => n <= 16_777_216,
    }
}

fn are_lengths(columns: &[Column], lengths: &[Option<u32>]) -> bool
    ensures { IsTrue result → AreLengths columns.now lengths.now }
{
    if columns.len() != lengths.len() {
        return false;
    }
    for (place, column) in columns.iter().enumerate() {
        if !has_length(column.kind, lengths[place]) {
            return false;
        }
    }
    true
}

/// What `plan` answers: the row's length and the places of the values outside, or the length of a row that is too big.
fn check_plan(
    rt: &impl Abort,
    alloc: Global,
    kinds: &[(ColType, Storage)],
    lengths: &[Option<u32>],
    want: Result<(u32, &[usize]), u64>,
) -> Result<(), Fail> {
    let columns = columns_of(alloc, kinds)?;
    assert!(rt; are_table_columns(&columns));
    assert!(rt; are_lengths(&columns, lengths));
    match (plan(&columns, lengths), want) {
        (Ok(found), Ok((size, places))) => {
            assert_eq!(rt; found.size, size, "at {lengths:?}");
            for (place, outside) in found.outside.iter().enumerate() {
                assert_eq!(rt;
                    *outside,
                    places.contains(&place),
                    "value {place} of {lengths:?}"
                );
            }
        }
        (Err(found), Err(size)) => assert_eq!(rt; found.size, size, "at {lengths:?}"),
        (_, _) => assert!(rt; false, "at {lengths:?}"),
    }
    Ok(())
}

fn fits_type(kind: ColType, value: &Value) -> bool
    ensures { IsTrue result → FitsType kind value.now }
{
    match (kind, value) {
        (_, Value::Null) => true,
        (ColType::Int8, Value::Int(_)) => true,
        (ColType::Oid | ColType::Lo, Value::Oid(_)) => true,
        (ColType::Bytea | ColType::Int4Array, Value::Bytes(bytes)) => bytes.items().len()
            <= 16_777_216,
        (_, _) => false,
    }
}

fn fit_columns(columns: &[Column], values: &[Value]) -> bool
    ensures { IsTrue result → FitColumns columns.now values.now }
{
    if columns.len() != values.len() {
        return false;
    }
    for (place, column) in columns.iter().enumerate() {
        if !fits_type(column.kind, &values[place]) {
            return false;
        }
    }
    true
}

fn starts_with_id(values: &[Value]) -> bool
    ensures { IsTrue result → StartsWithId values.now }
{
    match values {
        [] | [Value::Null, ..] => false,
        [_, ..] => true,
    }
}

/// What `row_bytes` writes for the values, and that `read_row` takes it all and nothing behind it.
fn check_row(
    rt: &impl Abort,
    alloc: Global,
    kinds: &[(ColType, Storage)],
    values: &[Value],
    want: &[u8],
) -> Result<(), Fail> {
    let table = columns_of(alloc, kinds)?;
    let columns = table.as_slice();
    assert!(rt; are_table_columns(columns));
    assert!(rt; columns.len() <= COLUMN_LIMIT);
    assert!(rt; fit_columns(columns, values));
    assert!(rt; starts_with_id(values));
    let lengths = lengths_of(columns, values);
    let mut out = [7; ROW_ROOM];
    match plan(columns, &lengths[..columns.len()]) {
        Ok(plan) => {
            let taken = row_bytes(columns, values, &plan, 1, 1, &mut out);
            assert_eq!(rt; out.get(..taken), Some(want));
            let row = read_row(alloc, columns, &out)?;
            assert_eq!(rt; row.map(|row| row.taken), Some(want.len() as u64));
        }
        Err(_) => assert!(rt; false),
    }
    Ok(())
}

#[test]
fn rows_written_and_read(rt: HostRuntime) -> Result<(), Fail> {
    let alloc = rt.alloc();
    let body = vec![in alloc; 0x62; 1997]?;
    let values = [Value::Int(2), Value::Bytes(ListOf::from_vec(body))];
    let want = [
        1, 2, 0, 0, 0, 0, 0, 0, 0, 2, 1, 18, 0xd1, 7, 0, 0, 0xcd, 7, 0, 0, 1, 0, 0, 0, 1, 0, 0, 0,
    ];
    check_row(&rt, alloc, &[ID, EXTERNAL], &values, &want)?;
    let text = Value::Bytes(ListOf::from_slice(alloc, b"ab")?);
    let values = [Value::Int(-2), Value::Null, Value::Oid(17000), text];
    let want = [
        1, 0xfe, 0xff, 0xff, 0xff, 0xff, 0xff, 0xff, 0xff, 0, 1, 0x68, 0x42, 0, 0, 1, 2, 0, 0, 0,
        0x61, 0x62,
    ];
    check_row(&rt, alloc, &[ID, MAIN, OID, EXTENDED], &values, &want)
}

#[test]
fn no_rows(rt: HostRuntime) -> Result<(), Fail> {
    let alloc = rt.alloc();
    let columns = columns_of(alloc, &[ID, EXTERNAL])?;
    assert!(rt; are_table_columns(&columns));
    let short = [1, 2, 0, 0, 0, 0, 0, 0, 0, 1, 2, 0, 0, 0, 0x61];
    assert!(rt;
        read_row(alloc, &columns, &short)?.is_none(),
        "a byte is missing"
    );
    let unknown = [1, 2, 0, 0, 0, 0, 0, 0, 0, 3];
    assert!(rt;
        read_row(alloc, &columns, &unknown)?.is_none(),
        "no such tag"
    );
    assert!(rt;
        read_row(alloc, &columns, &[0, 0])?.is_none(),
        "the id is null"
    );
    let moved = [
        1, 2, 0, 0, 0, 0, 0, 0, 0, 2, 1, 18, 0xd0, 7, 0, 0, 0xcc, 7, 0, 0, 1, 0, 0, 0, 1, 0, 0, 0,
    ];
    assert!(rt;
        read_row(alloc, &columns, &moved)?.is_none(),
        "1996 bytes stay"
    );
    Ok(())
}

#[test]
fn pointers(rt: HostRuntime) {
    let p = Pointer {
        length: 1997,
        value: 1,
        table: 1,
    };
    let bytes = [1, 18, 0xd1, 7, 0, 0, 0xcd, 7, 0, 0, 1, 0, 0, 0, 1, 0, 0, 0];
    assert_eq!(rt; pointer_bytes(p), bytes);
    assert_eq!(rt; read_pointer(&bytes), Some(p));
    assert_eq!(rt; read_pointer(&bytes[..17]), None);
    let mut other = bytes;
    other[2] = 0xcd;
    assert_eq!(rt; read_pointer(&other), None, "both lengths are the same");
    let long = [1, 18, 5, 0, 0, 1, 1, 0, 0, 1, 1, 0, 0, 0, 1, 0, 0, 0];
    assert_eq!(rt; read_pointer(&long), None, "a value of 16777217 bytes");
}

#[test]
fn worked_rows(rt: HostRuntime) -> Result<(), Fail> {
    let alloc = rt.alloc();
    let id = Some(8);
    check_plan(
        &rt,
        alloc,
        &[ID, EXTERNAL],
        &[id, Some(1996)],
        Ok((2032, &[])),
    )?;
    check_plan(
        &rt,
        alloc,
        &[ID, EXTERNAL],
        &[id, Some(1997)],
        Ok((50, &[1])),
    )?;
    check_plan(
        &rt,
        alloc,
        &[ID, EXTERNAL, EXTERNAL],
        &[id, Some(1500), Some(1500)],
        Ok((1556, &[1])),
    )?;
    check_plan(&rt, alloc, &[ID, MAIN], &[id, Some(8124)], Ok((8160, &[])))?;
    check_plan(&rt, alloc, &[ID, MAIN], &[id, Some(8125)], Ok((50, &[1])))?;
    check_plan(&rt, alloc, &[ID, PLAIN], &[id, Some(8124)], Ok((8160, &[])))?;
    check_plan(&rt, alloc, &[ID, PLAIN], &[id, Some(8125)], Err(8168))
}

#[test]
fn sizes_at_the_edges(rt: HostRuntime) -> Result<(), Fail> {
    let alloc = rt.alloc();
    let id = Some(8);
    // Of 23 and 24 bytes the latter alone may move.
    let small = [id, Some(2000), Some(23), Some(24)];
    check_plan(
        &rt,
        alloc,
        &[ID, PLAIN, EXTERNAL, EXTERNAL],
        &small,
        Ok((2078, &[3])),
    )?;
    // Up to 126 bytes there is a short header and no alignment, but not at PLAIN.
    check_plan(
        &rt,
        alloc,
        &[ID, EXTERNAL, EXTERNAL],
        &[id, Some(4), Some(126)],
        Ok((164, &[])),
    )?;
    check_plan(
        &rt,
        alloc,
        &[ID, EXTERNAL, EXTERNAL],
        &[id, Some(4), Some(127)],
        Ok((171, &[])),
    )?;
    check_plan(&rt, alloc, &[ID, PLAIN], &[id, Some(126)], Ok((162, &[])))?;
    // A long header begins at a multiple of 4: behind 17 bytes at 20, and not at 24.
    check_plan(
        &rt,
        alloc,
        &[ID, EXTERNAL, EXTERNAL],
        &[id, Some(8), Some(127)],
        Ok((175, &[])),
    )?;
    check_plan(
        &rt,
        alloc,
        &[ID, EXTERNAL, PLAIN],
        &[id, Some(8), Some(1)],
        Ok((49, &[])),
    )?;
    check_plan(
        &rt,
        alloc,
        &[ID, EXTERNAL, OID],
        &[id, Some(8), Some(4)],
        Ok((48, &[])),
    )?;
    check_plan(
        &rt,
        alloc,
        &[ID, EXTERNAL, INT8],
        &[id, Some(8), id],
        Ok((56, &[])),
    )?;
    // Numbers are aligned, behind an odd value and behind a pointer.
    check_plan(
        &rt,
        alloc,
        &[ID, EXTERNAL, INT8],
        &[id, Some(4), id],
        Ok((48, &[])),
    )?;
    check_plan(
        &rt,
        alloc,
        &[ID, EXTERNAL, OID],
        &[id, Some(4), Some(4)],
        Ok((44, &[])),
    )?;
    check_plan(
        &rt,
        alloc,
        &[ID, EXTERNAL, INT8],
        &[id, Some(2000), id],
        Ok((64, &[1])),
    )
}

#[test]
fn nulls(rt: HostRuntime) -> Result<(), Fail> {
    let alloc = rt.alloc();
    let id = Some(8);
    check_plan(
        &rt,
        alloc,
        &[ID, EXTERNAL, EXTERNAL],
        &[id, None, Some(2000)],
        Ok((50, &[2])),
    )?;
    check_plan(
        &rt,
        alloc,
        &[ID; 8],
        &[id, id, id, id, id, id, id, None],
        Ok((80, &[])),
    )?;
    check_plan(
        &rt,
        alloc,
        &[ID; 9],
        &[id, id, id, id, id, id, id, id, None],
        Ok((96, &[])),
    )?;
    check_plan(&rt, alloc, &[ID; 9], &[id; 9], Ok((96, &[])))?;
    let mut lengths = [id; 17];
    lengths[3] = None;
    check_plan(&rt, alloc, &[ID; 16], &lengths[..16], Ok((152, &[])))?;
    check_plan(&rt, alloc, &[ID; 17], &lengths, Ok((160, &[])))?;
    // With a null among nine columns the header has 32 bytes.
    let mut kinds = [EXTERNAL; 9];
    kinds[0] = ID;
    let mut lengths = [None; 9];
    lengths[0] = id;
    lengths[8] = Some(1988);
    check_plan(&rt, alloc, &kinds, &lengths, Ok((2032, &[])))?;
    lengths[8] = Some(1989);
    check_plan(&rt, alloc, &kinds, &lengths, Ok((58, &[8])))
}

#[test]
fn rounds(rt: HostRuntime) -> Result<(), Fail> {
    let alloc = rt.alloc();
    let id = Some(8);
    // The longest goes first, and a longer one of MAIN stays.
    let three = [ID, EXTENDED, EXTERNAL, EXTENDED];
    check_plan(
        &rt,
        alloc,
        &three,
        &[id, Some(900), Some(1000), Some(950)],
        Ok((1910, &[2])),
    )?;
    check_plan(
        &rt,
        alloc,
        &[ID, MAIN, EXTERNAL],
        &[id, Some(1900), Some(200)],
        Ok((1954, &[2])),
    )?;
    // Both rounds.
    let both = [id, Some(5000), Some(30), Some(4000)];
    check_plan(
        &rt,
        alloc,
        &[ID, MAIN, EXTERNAL, MAIN],
        &both,
        Ok((4072, &[1, 2])),
    )?;
    check_plan(
        &rt,
        alloc,
        &[ID, PLAIN, EXTERNAL],
        &[id, Some(9000), Some(9000)],
        Err(9056),
    )?;
    // Of 31 equal ones the first fourteen go.
    let mut kinds = [EXTENDED; 32];
    kinds[0] = ID;
    let mut lengths = [Some(100); 32];
    lengths[0] = id;
    let places = [1, 2, 3, 4, 5, 6, 7, 8, 9, 10, 11, 12, 13, 14];
    check_plan(&rt, alloc, &kinds, &lengths, Ok((2001, &places)))
}

#[test]
fn lengths_of_values(rt: HostRuntime) -> Result<(), Fail> {
    let alloc = rt.alloc();
    let columns = columns_of(alloc, &[ID, MAIN, OID, EXTENDED])?;
    let text = Value::Bytes(ListOf::from_slice(alloc, b"ab")?);
    let values = [Value::Int(-2), Value::Null, Value::Oid(17000), text];
    assert!(rt; columns.len() <= COLUMN_LIMIT);
    assert!(rt; fit_columns(&columns, &values));
    let lengths = lengths_of(&columns, &values);
    let mut want = [None; COLUMN_LIMIT];
    want[0] = Some(8);
    want[2] = Some(4);
    want[3] = Some(2);
    assert_eq!(rt; lengths, want);
    Ok(())
}

#[test]
fn laws_are_called() {
    plan_laws();
    rows_of_values();
    rows_are_told();
}

#[test]
fn columns_of_tables(rt: HostRuntime) -> Result<(), Fail> {
    let alloc = rt.alloc();
    for (kinds, want) in [
        ([ID, EXTERNAL], true),
        ([EXTERNAL, ID], false),
        ([ID, (ColType::Int8, Storage::Main)], false),
    ] {
        assert_eq!(rt;
            are_table_columns(&columns_of(alloc, &kinds)?),
            want,
            "at {kinds:?}"
        );
    }
    assert!(rt; are_table_columns(&columns_of(alloc, &[ID; 32])?));
    assert!(rt; !are_table_columns(&columns_of(alloc, &[ID; 33])?));
    assert!(rt; !are_table_columns(&columns_of(alloc, &[])?));
    let mut twice = columns_of(alloc, &[ID, EXTERNAL])?;
    twice.push(Column {
        name: ListOf::from_slice(alloc, b"c01")?,
        kind: ColType::Bytea,
        storage: Storage::Main,
    })?;
    assert!(rt; !are_table_columns(&twice));
    Ok(())
}
