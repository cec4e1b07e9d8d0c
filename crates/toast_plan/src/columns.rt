//! Which columns a table can have: the test that callers make before all other calls of this crate.
ghost use Rattle.std.specs.Prelude.{◌≡◌, ◌≢◌, ◌↔◌, ◌≤◌, All, IsTrue, length, map, codes};
ghost use Rattle.lo_base.specs.Name.{IsName};
ghost use Rattle.toast_plan.specs.Columns.{StartsWithId, IsPlainIfFixed, AreDistinct, IsTableColumns};

use crate::layout::COLUMN_LIMIT;
use lo_base::{ColType, Column, Storage, is_name};

fn starts_with_id(columns: &[Column]) -> bool
    ensures { IsTrue result ↔ StartsWithId columns.now }
{
    match columns {
        [] => false,
        [first, ..] => first.name.items() == b"id".as_slice() && first.kind == ColType::Int8,
    }
}

fn is_plain_if_fixed(kind: ColType, storage: Storage) -> bool
    ensures { IsTrue result ↔ IsPlainIfFixed kind storage }
{
    match kind {
        ColType::Int8 | ColType::Oid | ColType::Lo => storage == Storage::Plain,
        ColType::Bytea | ColType::Int4Array => true,
    }
}

fn are_named(columns: &[Column]) -> bool
    ensures { IsTrue result ↔ All (λ c. IsName c.name) columns.now }
{
    columns.iter().all(|column| is_name(column.name.items()))
}

fn are_plain_if_fixed(columns: &[Column]) -> bool
    ensures { IsTrue result ↔ All (λ c. IsPlainIfFixed c.kind c.storage) columns.now }
{
    columns
        .iter()
        .all(|column| is_plain_if_fixed(column.kind, column.storage))
}

fn has_no_column(columns: &[Column], name: &[u8]) -> bool
    ensures { IsTrue result ↔ All (λ c. c.name ≢ name.now) columns.now }
{
    columns.iter().all(|column| column.name.items() != name)
}

fn are_distinct(columns: &[Column]) -> bool
    ensures { IsTrue result ↔ AreDistinct (map (λ c. c.name) columns.now) }
{
    for (place, column) in columns.iter().enumerate() {
        let (_, others) = columns.split_at(place + 1);
        if !has_no_column(others, column.name.items()) {
            return false;
        }
    }
    true
}

/// Whether a table can have these columns: the test for what the other calls need of a table's columns.
pub fn are_table_columns(columns: &[Column]) -> bool
    ensures { IsTrue result ↔ IsTableColumns columns.now }
{
    starts_with_id(columns)
        && columns.len() <= COLUMN_LIMIT
        && are_named(columns)
        && are_distinct(columns)
        && are_plain_if_fixed(columns)
}
