// Each request on tables, rows and cursors as a call of the tables, with its reply. What a call does stands in row_tables.
ghost use Rattle.std.specs.Prelude.{◌≡◌, pos, IfOk};
ghost use Rattle.std.specs.List.{AllByRecursion};
ghost use Rattle.lo_base.specs.declared.refusal.Cause.TheVariants.{NoTable, WrongType};
ghost use Rattle.lo_base.specs.declared.refusal.Denied.TheVariants.{By};
ghost use Rattle.row_tables.specs.CursorRules.{close_row, fetch_row};
ghost use Rattle.row_tables.specs.RewriteRules.{rewrite_row};
ghost use Rattle.row_tables.specs.RowRules.{create_table_row, delete_row, ids_row, slice_reply, slice_row};
ghost use Rattle.row_tables.specs.Terms.{refusal};
ghost use Rattle.toast_plan.specs.Columns.{IsTableColumns};
ghost use Rattle.lo_machine.specs.ArrayRows.{load_line};
ghost use Rattle.lo_machine.specs.Dispatch.{CanCall, AnswersCall, ReadsCall};
ghost use Rattle.lo_machine.specs.Row.{on_tables};
ghost use Rattle.lo_machine.specs.Spelled.{AreChanges, IsLiteral};
ghost use Rattle.lo_machine.specs.TableRows.{declare_line, get_line, insert_line, update_line};

use crate::cells::{are_flat, array_of, reply_cells};
use crate::literals::{changes_of, values_of};
use crate::server::Server;
use lo_base::{
    Assign, Cause, Column, ColumnList, Denied, Literal, Name, NoMemory, Refusal, Reply, SessionNo,
    Value, Word,
};
use std::alloc::Global;

impl Server {
    /// `create table`, outside transaction blocks.
    pub(crate) fn create_table(
        &mut self,
        s: SessionNo,
        name: &Name,
        columns: &ColumnList,
    ) -> Result<Reply, Denied>
        requires can { CanCall s self.old }
        requires columns { IsTableColumns columns.now }
        ensures { AnswersCall s (on_tables (create_table_row name.now columns.now))
            self.old self.new result }
    {
        let Ok(name) = Name::from_slice(self.alloc, name.items()) else {
            return Err(Denied::NoMemory);
        };
        let Ok(columns) = copy_of(self.alloc, columns.items()) else {
            return Err(Denied::NoMemory);
        };
        match self.tables.create_table(&self.core, s, name, columns) {
            Ok(()) => Ok(Reply::Word(Word::CreateTable)),
            Err(denied) => Err(denied),
        }
    }

    pub(crate) fn insert(
        &mut self,
        s: SessionNo,
        table: &Name,
        literals: &[Literal],
    ) -> Result<Reply, Denied>
        requires can { CanCall s self.old }
        requires spelled { AllByRecursion IsLiteral literals.now }
        ensures { AnswersCall s (insert_line table.now literals.now) self.old self.new result }
    {
        let Some(columns) = self.tables.columns(table) else {
            return Err(no_table());
        };
        let own = &self.variables[s.place()];
        let values = match values_of(self.alloc, own, columns, literals) {
            Ok(values) => values,
            Err(denied) => return Err(denied),
        };
        match self.tables.insert(&mut self.core, s, table, values.items()) {
            Ok(()) => Ok(Reply::Word(Word::Insert)),
            Err(denied) => Err(denied),
        }
    }

    pub(crate) fn update(
        &mut self,
        s: SessionNo,
        table: &Name,
        id: i64,
        changes: &[Assign],
    ) -> Result<Reply, Denied>
        requires can { CanCall s self.old }
        requires spelled { AreChanges changes.now }
        ensures { AnswersCall s (update_line table.now id changes.now) self.old self.new result }
    {
        let Some(columns) = self.tables.columns(table) else {
            return Err(no_table());
        };
        let own = &self.variables[s.place()];
        match changes_of(self.alloc, own, columns, changes) {
            Ok(changes) => match self
                .tables
                .update(&mut self.core, s, table, id, changes.items())
            {
                Ok(()) => Ok(Reply::Word(Word::Update)),
                Err(denied) => Err(denied),
            },
            Err(denied) => {
                // A row that is not there is refused before its changes are.
                let snap = self.core.xacts.snapshot(s);
                match self.tables.get(&self.core, &snap, table, id) {
                    Ok(_row) => Err(denied),
                    Err(first) => Err(first),
                }
            }
        }
    }

    pub(crate) fn delete(&mut self, s: SessionNo, table: &Name, id: i64) -> Result<Reply, Denied>
        requires can { CanCall s self.old }
        ensures { AnswersCall s (on_tables (delete_row table.now id)) self.old self.new result }
    {
        match self.tables.delete(&mut self.core, s, table, id) {
            Ok(()) => Ok(Reply::Word(Word::Delete)),
            Err(denied) => Err(denied),
        }
    }

    /// `get`: an array is answered by its text.
    pub(crate) fn get_row(&mut self, s: SessionNo, table: &Name, id: i64) -> Result<Reply, Denied>
        requires can { CanCall s self.old }
        ensures { ReadsCall s (get_line table.now id) self.old self.new result }
    {
        let snap = self.core.xacts.snapshot(s);
        let row = match self.tables.get(&self.core, &snap, table, id) {
            Ok(row) => row,
            Err(denied) => return Err(denied),
        };
        let Some(columns) = self.tables.columns(table) else {
            return Err(no_table());
        };
        if !are_flat(columns, row.items()) {
            return Err(no_array());
        }
        let Ok(cells) = reply_cells(self.alloc, columns, row) else {
            return Err(Denied::NoMemory);
        };
        Ok(Reply::Row(cells))
    }

    pub(crate) fn ids(&mut self, s: SessionNo, table: &Name) -> Result<Reply, Denied>
        requires can { CanCall s self.old }
        ensures { ReadsCall s (on_tables (ids_row table.now)) self.old self.new result }
    {
        let snap = self.core.xacts.snapshot(s);
        match self.tables.ids(&self.core, &snap, table) {
            Ok(ids) => Ok(Reply::Ids(ids)),
            Err(denied) => Err(denied),
        }
    }

    pub(crate) fn slice(
        &mut self,
        s: SessionNo,
        table: &Name,
        id: i64,
        column: &Name,
        from: i64,
        length: i64,
    ) -> Result<Reply, Denied>
        requires can { CanCall s self.old }
        ensures { ReadsCall s (on_tables (slice_row table.now id column.now from length))
            self.old self.new result }
    {
        let snap = self.core.xacts.snapshot(s);
        match self
            .tables
            .slice(&self.core, &snap, table, id, column, from, length)
        {
            Ok(part) => Ok(part_reply(part)),
            Err(denied) => Err(denied),
        }
    }

    /// `declare`, in a transaction block.
    pub(crate) fn declare(
        &mut self,
        s: SessionNo,
        cursor: &Name,
        table: &Name,
        id: i64,
    ) -> Result<Reply, Denied>
        requires can { CanCall s self.old }
        ensures { AnswersCall s (declare_line cursor.now table.now id) self.old self.new result }
    {
        let Ok(cursor) = Name::from_slice(self.alloc, cursor.items()) else {
            return Err(Denied::NoMemory);
        };
        match self.tables.declare(&mut self.core, s, cursor, table, id) {
            Ok(()) => Ok(Reply::Word(Word::Declare)),
            Err(denied) => Err(denied),
        }
    }

    pub(crate) fn fetch(
        &mut self,
        s: SessionNo,
        cursor: &Name,
        column: &Name,
        from: i64,
        length: i64,
    ) -> Result<Reply, Denied>
        requires can { CanCall s self.old }
        ensures { ReadsCall s (on_tables (fetch_row cursor.now column.now from length))
            self.old self.new result }
    {
        match self
            .tables
            .fetch_slice(&self.core, s, cursor, column, from, length)
        {
            Ok(part) => Ok(part_reply(part)),
            Err(denied) => Err(denied),
        }
    }

    pub(crate) fn close_cursor(&mut self, s: SessionNo, cursor: &Name) -> Result<Reply, Denied>
        requires can { CanCall s self.old }
        ensures { ReadsCall s (on_tables (close_row cursor.now)) self.old self.new result }
    {
        match self.tables.close_cursor(&mut self.core, s, cursor) {
            Ok(()) => Ok(Reply::Word(Word::Close)),
            Err(refusal) => Err(Denied::By(refusal)),
        }
    }

    /// `rewrite`, outside transaction blocks.
    pub(crate) fn rewrite(
        &mut self,
        s: SessionNo,
        table: &Name,
        storages: &[Column],
    ) -> Result<Reply, Denied>
        requires can { CanCall s self.old }
        ensures { AnswersCall s (on_tables (rewrite_row table.now storages.now))
            self.old self.new result }
    {
        match self.tables.rewrite(&mut self.core, s, table, storages) {
            Ok(count) => Ok(Reply::Counted {
                what: Word::Rewrite,
                count,
            }),
            Err(denied) => Err(denied),
        }
    }

    /// `load`: the variable becomes the array of a row's column. The bytes of the row are kept as they are.
    pub(crate) fn load(
        &mut self,
        s: SessionNo,
        name: &Name,
        table: &Name,
        id: i64,
        column: &Name,
    ) -> Result<Reply, Denied>
        requires can { CanCall s self.old }
        ensures { ReadsCall s (load_line name.now table.now id column.now)
            self.old self.new result }
    {
        let snap = self.core.xacts.snapshot(s);
        let row = match self.tables.get(&self.core, &snap, table, id) {
            Ok(row) => row,
            Err(denied) => return Err(denied),
        };
        let Some(columns) = self.tables.columns(table) else {
            return Err(no_table());
        };
        if !are_flat(columns, row.items()) {
            return Err(no_array());
        }
        let array = match array_of(columns, column, row) {
            Ok(array) => array,
            Err(refusal) => return Err(Denied::By(refusal)),
        };
        match self.variables[s.place()].set(name, array) {
            Ok(()) => Ok(Reply::Word(Word::Ok)),
            Err(_) => Err(Denied::NoMemory),
        }
    }
}

/// A part of a value as a reply.
fn part_reply(part: Value) -> Reply
    ensures { result ≡ slice_reply part }
{
    match part {
        Value::Bytes(bytes) => Reply::Content(bytes),
        Value::Null | Value::Int(_) | Value::Oid(_) => Reply::Nothing,
    }
}

fn no_table() -> Denied
    ensures { result ≡ By (refusal NoTable (pos 0)) }
{
    Denied::By(Refusal {
        cause: Cause::NoTable,
        subject: 0,
    })
}

/// What refuses a row whose array column has bytes that are no array. No row that was put has them, so no state comes to it.
fn no_array() -> Denied
    ensures { result ≡ By (refusal WrongType (pos 0)) }
{
    Denied::By(Refusal {
        cause: Cause::WrongType,
        subject: 0,
    })
}

/// The same columns once more.
fn copy_of(alloc: Global, columns: &[Column]) -> Result<ColumnList, NoMemory>
    ensures { IfOk result (λ copy. copy ≡ columns.now) }
{
    let mut copy = ColumnList::new(alloc);
    for column in columns {
        let name = Name::from_slice(alloc, column.name.items())?;
        copy.push(Column {
            name,
            kind: column.kind,
            storage: column.storage,
        })?;
    }
    Ok(copy)
}
