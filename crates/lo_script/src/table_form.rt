// The forms of requests on tables, rows and cursors: the reader of each takes its arguments token by token.
ghost use Rattle.lo_base.specs.declared.request.Request.TheVariants.{Delete, Get, Ids, Declare};
ghost use Rattle.lo_base.specs.declared.request.Request.TheVariants.{Fetch, Close};
ghost use Rattle.lo_script.specs.Answer.{Reads};
ghost use Rattle.lo_script.specs.Form.{form_in};
ghost use Rattle.lo_script.specs.Reader.{one_token, two_tokens, three_tokens, four_tokens};
ghost use Rattle.lo_script.specs.TableForm.{table_forms, create_of, insert_of, update_of};
ghost use Rattle.lo_script.specs.TableForm.{rewrite_of, slice_of};
ghost use Rattle.lo_script.specs.Token.{int8_of, name_of};

use crate::array_form::read_array_form;
use crate::error::LineError;
use crate::form::complete;
use crate::token::{Token, Tokens};
use lo_base::{Assignments, ColumnList, Literals, Request};
use std::alloc::Global;

/// A request on tables, rows or cursors, or a later form, from the token after its word on.
pub fn read_table_form(
    alloc: Global,
    word: &Token,
    tokens: &mut Tokens,
) -> Result<Request, LineError>
    ensures { Reads (form_in table_forms word.now.text.now word.now.column
        tokens.old.column tokens.old.tokens) result }
{
    if word.is(b"create") {
        read_create(alloc, tokens)
    } else if word.is(b"insert") {
        read_insert(alloc, tokens)
    } else if word.is(b"update") {
        read_update(alloc, tokens)
    } else if word.is(b"delete") {
        read_delete(alloc, tokens)
    } else if word.is(b"get") {
        read_get(alloc, tokens)
    } else if word.is(b"ids") {
        read_ids(alloc, tokens)
    } else if word.is(b"slice") {
        read_slice(alloc, tokens)
    } else if word.is(b"declare") {
        read_declare(alloc, tokens)
    } else if word.is(b"fetch") {
        read_fetch(alloc, tokens)
    } else if word.is(b"close") {
        read_close(alloc, tokens)
    } else if word.is(b"rewrite") {
        read_rewrite(alloc, tokens)
    } else {
        read_array_form(alloc, word, tokens)
    }
}

/// `create table NAME COLDEF..`, from the second token on.
fn read_create(alloc: Global, tokens: &mut Tokens) -> Result<Request, LineError>
    ensures { Reads (create_of tokens.old.column tokens.old.tokens) result }
{
    tokens.next()?.keyword(b"table")?;
    let table = tokens.next()?.name(alloc)?;
    let mut columns = ColumnList::new(alloc);
    columns.push(tokens.next()?.id_column(alloc)?)?;
    while !tokens.is_at_end() {
        let column = tokens.next()?.next_column(alloc, columns.items())?;
        columns.push(column)?;
    }
    Ok(Request::CreateTable(table, columns))
}

/// `insert NAME VALUE..`, from the table on.
fn read_insert(alloc: Global, tokens: &mut Tokens) -> Result<Request, LineError>
    ensures { Reads (insert_of tokens.old.column tokens.old.tokens) result }
{
    let table = tokens.next()?.name(alloc)?;
    let mut values = Literals::new(alloc);
    values.push(tokens.next()?.literal(alloc)?)?;
    while !tokens.is_at_end() {
        let value = tokens.next()?.literal(alloc)?;
        values.push(value)?;
    }
    Ok(Request::Insert(table, values))
}

/// `update NAME ID CHANGE..`, from the table on.
fn read_update(alloc: Global, tokens: &mut Tokens) -> Result<Request, LineError>
    ensures { Reads (update_of tokens.old.column tokens.old.tokens) result }
{
    let table = tokens.next()?.name(alloc)?;
    let id = tokens.next()?.int8()?;
    let mut changes = Assignments::new(alloc);
    changes.push(tokens.next()?.change(alloc)?)?;
    while !tokens.is_at_end() {
        let change = tokens.next()?.next_change(alloc, changes.items())?;
        changes.push(change)?;
    }
    Ok(Request::Update(table, id, changes))
}

/// `delete NAME ID`, from the table on.
fn read_delete(alloc: Global, tokens: &mut Tokens) -> Result<Request, LineError>
    ensures { Reads (two_tokens name_of int8_of Delete
        tokens.old.column tokens.old.tokens) result }
{
    let table = tokens.next()?.name(alloc)?;
    let id = tokens.next()?.int8()?;
    complete(tokens, Request::Delete(table, id))
}

/// `get NAME ID`, from the table on.
fn read_get(alloc: Global, tokens: &mut Tokens) -> Result<Request, LineError>
    ensures { Reads (two_tokens name_of int8_of Get tokens.old.column tokens.old.tokens) result }
{
    let table = tokens.next()?.name(alloc)?;
    let id = tokens.next()?.int8()?;
    complete(tokens, Request::Get(table, id))
}

/// `ids NAME`, from the table on.
fn read_ids(alloc: Global, tokens: &mut Tokens) -> Result<Request, LineError>
    ensures { Reads (one_token name_of Ids tokens.old.column tokens.old.tokens) result }
{
    let table = tokens.next()?.name(alloc)?;
    complete(tokens, Request::Ids(table))
}

/// `slice NAME ID NAME INT8 INT8`, from the table on.
fn read_slice(alloc: Global, tokens: &mut Tokens) -> Result<Request, LineError>
    ensures { Reads (slice_of tokens.old.column tokens.old.tokens) result }
{
    let table = tokens.next()?.name(alloc)?;
    let id = tokens.next()?.int8()?;
    let column = tokens.next()?.name(alloc)?;
    let offset = tokens.next()?.int8()?;
    let length = tokens.next()?.int8()?;
    complete(tokens, Request::Slice(table, id, column, offset, length))
}

/// `declare NAME NAME ID`, from the cursor on.
fn read_declare(alloc: Global, tokens: &mut Tokens) -> Result<Request, LineError>
    ensures { Reads (three_tokens name_of name_of int8_of Declare
        tokens.old.column tokens.old.tokens) result }
{
    let cursor = tokens.next()?.name(alloc)?;
    let table = tokens.next()?.name(alloc)?;
    let id = tokens.next()?.int8()?;
    complete(tokens, Request::Declare(cursor, table, id))
}

/// `fetch NAME NAME INT8 INT8`, from the cursor on.
fn read_fetch(alloc: Global, tokens: &mut Tokens) -> Result<Request, LineError>
    ensures { Reads (four_tokens name_of name_of int8_of int8_of Fetch
        tokens.old.column tokens.old.tokens) result }
{
    let cursor = tokens.next()?.name(alloc)?;
    let column = tokens.next()?.name(alloc)?;
    let offset = tokens.next()?.int8()?;
    let length = tokens.next()?.int8()?;
    complete(tokens, Request::Fetch(cursor, column, offset, length))
}

/// `close NAME`, from the cursor on.
fn read_close(alloc: Global, tokens: &mut Tokens) -> Result<Request, LineError>
    ensures { Reads (one_token name_of Close tokens.old.column tokens.old.tokens) result }
{
    let cursor = tokens.next()?.name(alloc)?;
    complete(tokens, Request::Close(cursor))
}

/// `rewrite NAME STORAGEDEF..`, from the table on.
fn read_rewrite(alloc: Global, tokens: &mut Tokens) -> Result<Request, LineError>
    ensures { Reads (rewrite_of tokens.old.column tokens.old.tokens) result }
{
    let table = tokens.next()?.name(alloc)?;
    let mut storages = ColumnList::new(alloc);
    storages.push(tokens.next()?.storage_column(alloc)?)?;
    while !tokens.is_at_end() {
        let column = tokens.next()?.next_storage(alloc, storages.items())?;
        storages.push(column)?;
    }
    Ok(Request::Rewrite(table, storages))
}
