//! The columns of a table.
ghost use Rattle.std.specs.Prelude.{◌≡◌, ◌≤◌, [], length, IfOk};
ghost use Rattle.toast_plan.specs.Columns.{IsTableColumns};
ghost use Rattle.lo_image.specs.Readers.{Gives, tested, many};
ghost use Rattle.lo_image.specs.Tables.{last_name};
ghost use Rattle.lo_image.specs.Reading.{is_name, name_follows, table_name_defect, has_name, new_name_defect, column_name_defect, most_kind, kind_defect, kind_of, is_fixed, storage_defect, storage_of, kind_at, storage_at, byte_at, counted_at, column_at, after_column, columns_defect, columns_at};

use crate::fault::{Defect, Stop};
use crate::fields::{byte_at, counted_at, fails};
use crate::place::TableCells;
use lo_base::{ColType, Column, ColumnList, ListOf, Storage};
use std::alloc::Global;
use std::cmp::Ordering;

fn is_name(bytes: &[u8]) -> bool
    ensures { result ≡ is_name bytes.now }
{
    lo_base::is_name(bytes)
}

fn name_follows(before: &[TableCells], name: &[u8]) -> bool
    ensures { result ≡ name_follows (last_name before.now) name.now }
{
    match before {
        [] => true,
        [.., last] => last.name.items().cmp(name) == Ordering::Less,
    }
}

fn table_name_defect(before: &[TableCells], name: &[u8]) -> Option<Defect>
    ensures { result ≡ table_name_defect (last_name before.now) name.now }
{
    if !is_name(name) {
        Some(Defect::Range)
    } else if !name_follows(before, name) {
        Some(Defect::Order)
    } else {
        None
    }
}

/// The name of a table behind those before it.
pub fn table_name_at<'a>(
    before: &[TableCells],
    bytes: &'a [u8],
) -> Result<(&'a [u8], &'a [u8]), Stop>
    ensures { Gives (λ x. (x.0.now, x.1.now)) result
        (tested (table_name_defect (last_name before.now)) counted_at bytes.now) }
{
    let (name, rest) = counted_at(bytes)?;
    if let Some(kind) = table_name_defect(before, name) {
        return Err(fails(kind, bytes));
    }
    Ok((name, rest))
}

fn has_name(columns: &[Column], name: &[u8]) -> bool
    ensures { result ≡ has_name columns.now name.now }
{
    for column in columns {
        if column.name.items() == name {
            return true;
        }
    }
    false
}

fn new_name_defect(before: &[Column], name: &[u8]) -> Option<Defect>
    ensures { result ≡ new_name_defect before.now name.now }
{
    if before.is_empty() {
        if name == b"id".as_slice() {
            None
        } else {
            Some(Defect::Range)
        }
    } else if has_name(before, name) {
        Some(Defect::Order)
    } else {
        None
    }
}

fn column_name_defect(before: &[Column], name: &[u8]) -> Option<Defect>
    ensures { result ≡ column_name_defect before.now name.now }
{
    if is_name(name) {
        new_name_defect(before, name)
    } else {
        Some(Defect::Range)
    }
}

fn column_name_at<'a>(before: &[Column], bytes: &'a [u8]) -> Result<(&'a [u8], &'a [u8]), Stop>
    ensures { Gives (λ x. (x.0.now, x.1.now)) result
        (tested (column_name_defect before.now) counted_at bytes.now) }
{
    let (name, rest) = counted_at(bytes)?;
    if let Some(kind) = column_name_defect(before, name) {
        return Err(fails(kind, bytes));
    }
    Ok((name, rest))
}

fn most_kind(before: &[Column]) -> u8
    ensures { result ≡ most_kind before.now }
{
    if before.is_empty() { 1 } else { 5 }
}

fn kind_of(code: u8) -> ColType
    ensures { result ≡ kind_of code }
{
    match code {
        1 => ColType::Int8,
        2 => ColType::Oid,
        3 => ColType::Lo,
        4 => ColType::Bytea,
        _ => ColType::Int4Array,
    }
}

fn kind_at<'a>(before: &[Column], bytes: &'a [u8]) -> Result<(ColType, &'a [u8]), Stop>
    ensures { Gives (λ x. (x.0, x.1.now)) result (kind_at before.now bytes.now) }
{
    let (code, rest) = byte_at(bytes)?;
    if code < 1 || code > most_kind(before) {
        return Err(fails(Defect::Range, bytes));
    }
    Ok((kind_of(code), rest))
}

fn is_fixed(kind: ColType) -> bool
    ensures { result ≡ is_fixed kind }
{
    match kind {
        ColType::Int8 | ColType::Oid | ColType::Lo => true,
        ColType::Bytea | ColType::Int4Array => false,
    }
}

fn storage_of(code: u8) -> Storage
    ensures { result ≡ storage_of code }
{
    match code {
        b'p' => Storage::Plain,
        b'e' => Storage::External,
        b'x' => Storage::Extended,
        _ => Storage::Main,
    }
}

fn storage_at(kind: ColType, bytes: &[u8]) -> Result<(Storage, &[u8]), Stop>
    ensures { Gives (λ x. (x.0, x.1.now)) result (storage_at kind bytes.now) }
{
    let (code, rest) = byte_at(bytes)?;
    let movable = !is_fixed(kind) && (code == b'e' || code == b'x' || code == b'm');
    if code != b'p' && !movable {
        return Err(fails(Defect::Range, bytes));
    }
    Ok((storage_of(code), rest))
}

fn column_at<'a>(
    alloc: Global,
    before: &[Column],
    bytes: &'a [u8],
) -> Result<(Column, &'a [u8]), Stop>
    ensures { Gives (λ x. (x.0, x.1.now)) result (column_at before.now bytes.now) }
{
    let (name, rest) = column_name_at(before, bytes)?;
    let (kind, rest) = kind_at(before, rest)?;
    let (storage, rest) = storage_at(kind, rest)?;
    let name = ListOf::from_slice(alloc, name)?;
    Ok((
        Column {
            name,
            kind,
            storage,
        },
        rest,
    ))
}

fn count_at(bytes: &[u8]) -> Result<(u8, &[u8]), Stop>
    ensures read { Gives (λ x. (x.0, x.1.now)) result (tested columns_defect byte_at bytes.now) }
    ensures within { IfOk result (λ x. (1 ≤ x.0) × (x.0 ≤ 32)) }
{
    let (count, rest) = byte_at(bytes)?;
    if !(1..=32).contains(&count) {
        return Err(fails(Defect::Range, bytes));
    }
    Ok((count, rest))
}

fn counted_columns_at<'a>(
    alloc: Global,
    count: u8,
    bytes: &'a [u8],
) -> Result<(ColumnList, &'a [u8]), Stop>
    requires some { 1 ≤ count }
    requires few { count ≤ 32 }
    ensures read { Gives (λ x. (x.0, x.1.now)) result (many column_at after_column [] count bytes.now) }
    ensures count { IfOk result (λ x. length x.0 ≡ count) }
    ensures columns { IfOk result (λ x. IsTableColumns x.0) }
{
    let mut columns = ListOf::new(alloc);
    let mut rest = bytes;
    for _ in 0..count {
        let (column, after) = column_at(alloc, columns.items(), rest)?;
        columns.push(column)?;
        rest = after;
    }
    Ok((columns, rest))
}

/// The columns of a table, behind their number.
pub fn columns_at(alloc: Global, bytes: &[u8]) -> Result<(ColumnList, &[u8]), Stop>
    ensures read { Gives (λ x. ((length x.0, x.0), x.1.now)) result (columns_at bytes.now) }
    ensures columns { IfOk result (λ x. IsTableColumns x.0) }
{
    let (count, rest) = count_at(bytes)?;
    counted_columns_at(alloc, count, rest)
}
