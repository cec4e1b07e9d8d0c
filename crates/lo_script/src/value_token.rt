// Tokens of values, of a new table's columns, of changes and of storages: what each spells is said in specs/ValueToken.antt.
ghost use Rattle.std.specs.Prelude.{◌≡◌, Some, None, IfOk, IfErr};
ghost use Rattle.std.specs.List.{list_any};
ghost use Rattle.lo_script.specs.Answer.{Reads};
ghost use Rattle.lo_script.specs.Reading.{read_at};
ghost use Rattle.lo_script.specs.declared.error.LineError.TheVariants.{Bad};
ghost use Rattle.lo_script.specs.ValueToken.{array_text_of, element_of, literal_of, ends_token};
ghost use Rattle.lo_script.specs.Token.{cut_at};
ghost use Rattle.lo_script.specs.ValueToken.{is_array_text, is_among, word_among};
ghost use Rattle.lo_script.specs.ValueToken.{kind_words, storage_words, column_of, id_column_of};
ghost use Rattle.lo_script.specs.ValueToken.{next_column, storage_column_of, next_storage};
ghost use Rattle.lo_script.specs.ValueToken.{change_of, next_change, column_name, changed_name};

use crate::error::LineError;
use crate::large_object_form::BYTES_LIMIT;
use crate::token::{Token, cut};
use lo_base::{Assign, Bytes, ColType, Column, Literal, Name, Storage};
use std::alloc::Global;

/// The most columns of a table.
const COLUMNS_LIMIT: usize = 32;

impl<'a> Token<'a> {
    /// An array's text: any token that is not empty.
    pub fn array_text(&self, alloc: Global) -> Result<Bytes, LineError>
        ensures { Reads (read_at self.now.column (array_text_of self.now.text.now)) result }
    {
        if is_array_text(self.text) {
            Ok(Bytes::from_slice(alloc, self.text)?)
        } else {
            Err(self.refused())
        }
    }

    /// An element of an array: `null` or a decimal in the range of `i32`.
    pub fn element(&self) -> Result<Option<i32>, LineError>
        ensures { Reads (read_at self.now.column (element_of self.now.text.now)) result }
    {
        if self.is(b"null") {
            return Ok(None);
        }
        Ok(Some(self.int4()?))
    }

    /// A value of a row.
    pub fn literal(&self, alloc: Global) -> Result<Literal, LineError>
        ensures { Reads (read_at self.now.column (literal_of self.now.text.now)) result }
    {
        if self.begins(b"\\") {
            Ok(Literal::Bytes(self.bytes(alloc, BYTES_LIMIT)?))
        } else if self.begins(b"@") {
            Ok(Literal::Variable(self.part(&self.text[1..]).name(alloc)?))
        } else if self.begins(b"{") || self.begins(b"[") {
            Ok(Literal::ArrayText(self.array_text(alloc)?))
        } else if self.is(b"null") {
            Ok(Literal::Null)
        } else {
            Ok(Literal::Number(self.int8()?))
        }
    }

    /// The first column of a new table.
    pub fn id_column(&self, alloc: Global) -> Result<Column, LineError>
        ensures { Reads (read_at self.now.column (id_column_of self.now.text.now)) result }
    {
        if self.is(b"id:int8") {
            Ok(Column {
                name: Name::from_slice(alloc, b"id")?,
                kind: ColType::Int8,
                storage: Storage::Plain,
            })
        } else {
            Err(self.refused())
        }
    }

    /// A column of a new table, after those.
    pub fn next_column(&self, alloc: Global, so_far: &[Column]) -> Result<Column, LineError>
        ensures { Reads (read_at self.now.column
            (next_column so_far.now self.now.text.now)) result }
    {
        if so_far.len() >= COLUMNS_LIMIT {
            return Err(self.refused());
        }
        let column = self.new_column(alloc)?;
        if has_column(so_far, column.name.items()) {
            return Err(self.refused());
        }
        Ok(column)
    }

    /// `NAME:TYPE` or `NAME:TYPE:STORAGE`.
    fn new_column(&self, alloc: Global) -> Result<Column, LineError>
        ensures { Reads (read_at self.now.column (column_of self.now.text.now)) result }
    {
        let (name, kind) = self.cut_at(b':')?;
        let name = name.name(alloc)?;
        let (kind, storage) = kind.kind()?;
        Ok(Column {
            name,
            kind,
            storage,
        })
    }

    /// `NAME:STORAGE`, a new storage of a column, after those.
    pub fn next_storage(&self, alloc: Global, so_far: &[Column]) -> Result<Column, LineError>
        ensures { Reads (read_at self.now.column
            (next_storage so_far.now self.now.text.now)) result }
    {
        let column = self.storage_column(alloc)?;
        if has_column(so_far, column.name.items()) {
            return Err(self.refused());
        }
        Ok(column)
    }

    /// `NAME:STORAGE`, a new storage of a column.
    pub fn storage_column(&self, alloc: Global) -> Result<Column, LineError>
        ensures { Reads (read_at self.now.column (storage_column_of self.now.text.now)) result }
    {
        let (name, storage) = self.cut_at(b':')?;
        Ok(Column {
            name: name.name(alloc)?,
            kind: ColType::Bytea,
            storage: storage.storage()?,
        })
    }

    /// `NAME=VALUE`, a change of a column's value, after those.
    pub fn next_change(&self, alloc: Global, so_far: &[Assign]) -> Result<Assign, LineError>
        ensures { Reads (read_at self.now.column
            (next_change so_far.now self.now.text.now)) result }
    {
        let change = self.change(alloc)?;
        if has_change(so_far, change.column.items()) {
            return Err(self.refused());
        }
        Ok(change)
    }

    /// `NAME=VALUE`, a change of a column's value.
    pub fn change(&self, alloc: Global) -> Result<Assign, LineError>
        ensures { Reads (read_at self.now.column (change_of self.now.text.now)) result }
    {
        let (column, value) = self.cut_at(b'=')?;
        Ok(Assign {
            column: column.name(alloc)?,
            value: value.literal(alloc)?,
        })
    }

    /// What stands before the first `at` and what stands after it. Each is at the column of this token.
    fn cut_at(&self, at: u8) -> Result<(Token<'a>, Token<'a>), LineError>
        ensures ok { IfOk result (λ parts.
            cut_at at self.now.text.now ≡ Some (parts.0.text.now, parts.1.text.now)) }
        ensures first { IfOk result (λ parts. parts.0.column ≡ self.now.column) }
        ensures second { IfOk result (λ parts. parts.1.column ≡ self.now.column) }
        ensures bad { IfErr result (λ e. cut_at at self.now.text.now ≡ None) }
        ensures start { IfErr result (λ e. e ≡ Bad self.now.column) }
    {
        let (before, after) = cut(self.text, at);
        match after {
            Some(after) => Ok((self.part(before), self.part(after))),
            None => Err(self.refused()),
        }
    }

    /// A part of this token, which is refused where this one begins.
    fn part<'b>(&self, text: &'b [u8]) -> Token<'b>
        ensures text { result.text.now ≡ text.now }
        ensures column { result.column ≡ self.now.column }
    {
        Token {
            text,
            column: self.column,
        }
    }

    /// A type and the storage of its long values. Only `bytea` and `int4[]` name one, which is extended where it is left out.
    fn kind(&self) -> Result<(ColType, Storage), LineError>
        ensures { Reads (read_at self.now.column (word_among kind_words self.now.text.now)) result }
    {
        if self.is(b"int8") {
            Ok((ColType::Int8, Storage::Plain))
        } else if self.is(b"oid") {
            Ok((ColType::Oid, Storage::Plain))
        } else if self.is(b"lo") {
            Ok((ColType::Lo, Storage::Plain))
        } else if self.is(b"bytea") {
            Ok((ColType::Bytea, Storage::Extended))
        } else if self.is(b"bytea:plain") {
            Ok((ColType::Bytea, Storage::Plain))
        } else if self.is(b"bytea:external") {
            Ok((ColType::Bytea, Storage::External))
        } else if self.is(b"bytea:extended") {
            Ok((ColType::Bytea, Storage::Extended))
        } else if self.is(b"bytea:main") {
            Ok((ColType::Bytea, Storage::Main))
        } else if self.is(b"int4[]") {
            Ok((ColType::Int4Array, Storage::Extended))
        } else if self.is(b"int4[]:plain") {
            Ok((ColType::Int4Array, Storage::Plain))
        } else if self.is(b"int4[]:external") {
            Ok((ColType::Int4Array, Storage::External))
        } else if self.is(b"int4[]:extended") {
            Ok((ColType::Int4Array, Storage::Extended))
        } else if self.is(b"int4[]:main") {
            Ok((ColType::Int4Array, Storage::Main))
        } else {
            Err(self.refused())
        }
    }

    /// A storage of long values.
    fn storage(&self) -> Result<Storage, LineError>
        ensures { Reads (read_at self.now.column
            (word_among storage_words self.now.text.now)) result }
    {
        if self.is(b"plain") {
            Ok(Storage::Plain)
        } else if self.is(b"external") {
            Ok(Storage::External)
        } else if self.is(b"extended") {
            Ok(Storage::Extended)
        } else if self.is(b"main") {
            Ok(Storage::Main)
        } else {
            Err(self.refused())
        }
    }
}

/// Whether the bytes are an array's text.
fn is_array_text(text: &[u8]) -> bool
    ensures { result ≡ is_array_text text.now }
{
    !text.is_empty() && !has_end(text)
}

/// Whether one of the bytes is a space or a line feed.
fn has_end(text: &[u8]) -> bool
    ensures { result ≡ list_any ends_token text.now }
{
    text.iter().any(|b| ends_token(*b))
}

fn ends_token(b: u8) -> bool
    ensures { result ≡ ends_token b }
{
    b == b' ' || b == b'\n'
}

/// Whether one of the columns has that name.
fn has_column(columns: &[Column], name: &[u8]) -> bool
    ensures { result ≡ is_among column_name columns.now name.now }
{
    columns.iter().any(|column| column.name.items() == name)
}

/// Whether one of the changes is of the column of that name.
fn has_change(changes: &[Assign], name: &[u8]) -> bool
    ensures { result ≡ is_among changed_name changes.now name.now }
{
    changes.iter().any(|change| change.column.items() == name)
}
