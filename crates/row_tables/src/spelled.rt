// How the tests spell columns, values, rows and answers, and what these are compared with.
ghost use Rattle.std.specs.Prelude.{◌≡◌, true};
ghost use Rattle.row_tables.specs.Tries.{HadMemory, IsRefusal};

use crate::change::Change;
use lo_base::{
    Bytes, Cause, Cell, Cells, ColType, Column, ColumnList, Denied, Ids, Name, Storage, Value,
};
use std::alloc::Global;
use std::process::Abort;

/// A column: its name, its type and its storage.
pub(crate) type Spec = (&'static str, ColType, Storage);

pub(crate) const ID: Spec = ("id", ColType::Int8, Storage::Plain);

/// A value.
#[derive(Clone, Copy)]
pub(crate) enum Spelled {
    Null,
    Int(i64),
    Oid(u32),
    Bytes(&'static [u8]),
    /// So many times one byte.
    Fill(usize, u8),
    /// So many bytes that go up from a number on, each divided by 251, of which they are the rests.
    Run(usize, usize),
}

/// What a call answers.
#[derive(Clone, Copy)]
pub(crate) enum Answer {
    Done,
    Row(&'static [Spelled]),
    Part(Spelled),
    Ids(&'static [i64]),
    /// Ids from the first one on, each so many above the one before it, so many of them.
    IdsFrom(i64, i64, usize),
    /// How many rows were stored anew.
    Counted(u64),
    Refused(Cause, i64),
}

pub(crate) fn name(rt: &impl Abort, alloc: Global, text: &str) -> Name {
    Name::from_slice(alloc, text.as_bytes()).expect(rt, "memory")
}

pub(crate) fn columns(rt: &impl Abort, alloc: Global, specs: &[Spec]) -> ColumnList {
    let mut columns = Vec::new(alloc);
    for (text, kind, storage) in specs {
        columns
            .push(Column {
                name: name(rt, alloc, text),
                kind: *kind,
                storage: *storage,
            })
            .expect(rt, "memory");
    }
    ColumnList::from_vec(columns)
}

/// The byte of a run at a place, counted from the run of 0.
fn byte_at(place: usize) -> u8 {
    (place % 251) as u8
}

fn run_of(rt: &impl Abort, alloc: Global, count: usize, first: usize) -> Vec<u8> {
    let mut round = Vec::new(alloc);
    for i in 0..251 {
        round.push(byte_at(first % 251 + i)).expect(rt, "memory");
    }
    let mut bytes = Vec::new(alloc);
    for _turn in 0..count / 251 + 1 {
        bytes
            .extend_from_slice(round.as_slice())
            .expect(rt, "memory");
    }
    bytes.truncate(count);
    bytes
}

pub(crate) fn value(rt: &impl Abort, alloc: Global, spelled: Spelled) -> Value {
    match spelled {
        Spelled::Null => Value::Null,
        Spelled::Int(number) => Value::Int(number),
        Spelled::Oid(oid) => Value::Oid(oid),
        Spelled::Bytes(bytes) => {
            Value::Bytes(Bytes::from_slice(alloc, bytes).expect(rt, "memory"))
        }
        Spelled::Fill(count, byte) => Value::Bytes(Bytes::from_vec(Vec::from_elem(
            alloc, byte, count,
        ).expect(rt, "memory"))),
        Spelled::Run(count, first) => {
            Value::Bytes(Bytes::from_vec(run_of(rt, alloc, count, first)))
        }
    }
}

pub(crate) fn values(rt: &impl Abort, alloc: Global, spelled: &[Spelled]) -> Vec<Value> {
    let mut values = Vec::new(alloc);
    for one in spelled {
        values.push(value(rt, alloc, *one)).expect(rt, "memory");
    }
    values
}

pub(crate) fn changes(
    rt: &impl Abort,
    alloc: Global,
    spelled: &[(&'static str, Spelled)],
) -> Vec<Change> {
    let mut changes = Vec::new(alloc);
    for (column, one) in spelled {
        changes
            .push(Change {
                column: name(rt, alloc, column),
                value: value(rt, alloc, *one),
            })
            .expect(rt, "memory");
    }
    changes
}

fn is_run(bytes: &[u8], count: usize, first: usize) -> bool {
    if bytes.len() != count {
        return false;
    }
    for (place, byte) in bytes.iter().enumerate() {
        if *byte != byte_at(first % 251 + place) {
            return false;
        }
    }
    true
}

fn are_bytes(bytes: &[u8], spelled: Spelled) -> bool {
    match spelled {
        Spelled::Bytes(expected) => bytes == expected,
        Spelled::Fill(count, byte) => bytes.len() == count && bytes.iter().all(|b| *b == byte),
        Spelled::Run(count, first) => is_run(bytes, count, first),
        Spelled::Null | Spelled::Int(_) | Spelled::Oid(_) => false,
    }
}

fn is_value(value: &Value, spelled: Spelled) -> bool {
    match (value, spelled) {
        (Value::Null, Spelled::Null) => true,
        (Value::Int(number), Spelled::Int(expected)) => *number == expected,
        (Value::Oid(oid), Spelled::Oid(expected)) => *oid == expected,
        (Value::Bytes(bytes), _) => are_bytes(bytes.items(), spelled),
        (_, _) => false,
    }
}

/// Whether a cell has the value itself, in the row.
fn is_cell(cell: &Cell, spelled: Spelled) -> bool {
    match (cell, spelled) {
        (Cell::Null, Spelled::Null) => true,
        (Cell::Int(number), Spelled::Int(expected)) => *number == expected,
        (Cell::Oid(oid), Spelled::Oid(expected)) => *oid == expected,
        (Cell::Inline(bytes), _) => are_bytes(bytes.items(), spelled),
        (_, _) => false,
    }
}

fn are_cells(cells: &[Cell], spelled: &[Spelled]) -> bool {
    if cells.len() != spelled.len() {
        return false;
    }
    for (place, cell) in cells.iter().enumerate() {
        if !is_cell(cell, spelled[place]) {
            return false;
        }
    }
    true
}

fn is_denied(denied: &Denied, answer: Answer) -> bool
    ensures { result ≡ true → IsRefusal denied.now }
{
    match (denied, answer) {
        (Denied::By(r), Answer::Refused(cause, subject)) => r.cause == cause
            && r.subject == subject,
        _ => false,
    }
}

pub(crate) fn is_done(answered: &Result<(), Denied>, answer: Answer) -> bool
    ensures { result ≡ true → HadMemory answered.now }
{
    match (answered, answer) {
        (Ok(()), Answer::Done) => true,
        (Err(denied), _) => is_denied(denied, answer),
        _ => false,
    }
}

pub(crate) fn is_count(answered: &Result<u64, Denied>, answer: Answer) -> bool
    ensures { result ≡ true → HadMemory answered.now }
{
    match (answered, answer) {
        (Ok(count), Answer::Counted(expected)) => *count == expected,
        (Err(denied), _) => is_denied(denied, answer),
        _ => false,
    }
}

pub(crate) fn is_row(answered: &Result<Cells, Denied>, answer: Answer) -> bool {
    match (answered, answer) {
        (Ok(row), Answer::Row(expected)) => are_cells(row.items(), expected),
        (Err(denied), _) => is_denied(denied, answer),
        _ => false,
    }
}

pub(crate) fn is_part(answered: &Result<Value, Denied>, answer: Answer) -> bool {
    match (answered, answer) {
        (Ok(value), Answer::Part(expected)) => is_value(value, expected),
        (Err(denied), _) => is_denied(denied, answer),
        _ => false,
    }
}

fn are_from(ids: &[i64], first: i64, step: i64, count: usize) -> bool {
    if ids.len() != count {
        return false;
    }
    let mut expected = first;
    for id in ids {
        if *id != expected {
            return false;
        }
        expected = expected.saturating_add(step);
    }
    true
}

pub(crate) fn are_ids(answered: &Result<Ids, Denied>, answer: Answer) -> bool {
    match (answered, answer) {
        (Ok(ids), Answer::Ids(expected)) => ids.items() == expected,
        (Ok(ids), Answer::IdsFrom(first, step, count)) => are_from(ids.items(), first, step, count),
        (Err(denied), _) => is_denied(denied, answer),
        _ => false,
    }
}
