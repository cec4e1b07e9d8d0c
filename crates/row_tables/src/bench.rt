// A bench for the tests: tables over real transactions, and the session that acts. A test is a list of acts, each with what is
// expected. Each act but a change of the session is a request, before which the clock moves on; outside a transaction it is
// one of its own.
ghost use Rattle.std.specs.Prelude.{◌≡◌, ◌↔◌, IsTrue, true, None, length, codes};
ghost use Rattle.std.specs.Option.{option_copied};
ghost use Rattle.toast_plan.specs.Row.{FitsType, FitColumns, StartsWithId};
ghost use Rattle.row_tables.specs.Calls.{FitsIfChanged, ChangesFit, ChangesFitTable, FitTable};
ghost use Rattle.row_tables.specs.Values.{change_of};
ghost use Rattle.row_tables.specs.World.{IsReady, world};

use crate::spelled::{
    Answer, Spec, Spelled, are_ids, changes, columns, is_count, is_done, is_part, is_row, name,
    values,
};
use crate::{Change, Tables};
use lo_base::{ColType, Column, Denied, Name, SessionNo, Value};
use row_versions::Core;
use std::alloc::Global;
use std::process::Abort;
use toast_plan::are_table_columns;
use xact_core::Xacts;

/// What a test does, step by step. The last of most is what is expected.
#[derive(Clone, Copy)]
pub(crate) enum Act {
    /// The session of a number acts from here on.
    As(u8),
    Begin,
    Commit,
    Rollback,
    Savepoint,
    /// Rolls back to the savepoint of a level, or releases it. The first one is of level 2.
    UndoTo(u64),
    Release(u64),
    Vacuum,
    Create(&'static str, &'static [Spec], Answer),
    Insert(&'static str, &'static [Spelled], Answer),
    Update(&'static str, i64, &'static [(&'static str, Spelled)], Answer),
    Delete(&'static str, i64, Answer),
    Get(&'static str, i64, Answer),
    /// Bytes of a row's column, from an offset on and so many at most.
    Slice(&'static str, i64, &'static str, i64, i64, Answer),
    Ids(&'static str, Answer),
    /// Opens a cursor of a name on a row of a table.
    Declare(&'static str, &'static str, i64, Answer),
    Fetch(&'static str, &'static str, i64, i64, Answer),
    Close(&'static str, Answer),
    /// Stores a table's rows anew, with other storages of some columns.
    Rewrite(&'static str, &'static [Spec], Answer),
}

/// The transactions, the tables, the session that acts, and how many undoings there were.
#[derive(Drop)]
pub(crate) struct Bench {
    alloc: Global,
    pub(crate) core: Core,
    pub(crate) tables: Tables,
    pub(crate) s: SessionNo,
    undos: u64,
    ghost counted: { core.xacts.undos ≡ undos },
}

fn session(rt: &impl Abort, number: u8) -> SessionNo {
    SessionNo::new(number).expect(rt, "a session")
}

fn fits_type(kind: ColType, value: &Value) -> bool
    ensures { IsTrue result → FitsType kind value.now }
{
    match (kind, value) {
        (_, Value::Null) => true,
        (ColType::Int8, Value::Int(_)) => true,
        (ColType::Oid | ColType::Lo, Value::Oid(_)) => true,
        (ColType::Bytea | ColType::Int4Array, Value::Bytes(bytes)) => bytes.items().len()
            <= 16_777_216,
        (_, _) => false,
    }
}

fn fit_columns(columns: &[Column], values: &[Value]) -> bool
    ensures { IsTrue result → FitColumns columns.now values.now }
{
    if columns.len() != values.len() {
        return false;
    }
    for (place, column) in columns.iter().enumerate() {
        if !fits_type(column.kind, &values[place]) {
            return false;
        }
    }
    true
}

fn has_id(values: &[Value]) -> bool
    ensures { IsTrue result → StartsWithId values.now }
{
    match values {
        [Value::Int(_), ..] => true,
        _ => false,
    }
}

/// Whether values make a row of a table, where it is there.
fn fit_table(tables: &Tables, table: &Name, row: &[Value]) -> bool
    ensures { IsTrue result → FitTable tables.now table.now row.now }
{
    match tables.columns(table) {
        Some(columns) => has_id(row) && fit_columns(columns, row),
        None => true,
    }
}

fn change_of<'a>(changes: &'a [Change], name: &[u8]) -> Option<&'a Change>
    ensures { option_copied result ≡ change_of name.now changes.now }
{
    changes.iter().find(|change| change.column.items() == name)
}

/// Whether a change of a column fits it, where there is one.
fn change_fits(column: &Column, changes: &[Change]) -> bool
    ensures { IsTrue result → FitsIfChanged column.now (change_of column.now.name changes.now) }
{
    match change_of(changes, column.name.items()) {
        Some(change) => fits_type(column.kind, &change.value),
        None => true,
    }
}

fn changes_fit(columns: &[Column], changes: &[Change]) -> bool
    ensures { IsTrue result → ChangesFit changes.now columns.now }
{
    for column in columns {
        if !change_fits(column, changes) {
            return false;
        }
    }
    true
}

/// Whether rows of a table can have the changes, where it is there.
fn changes_fit_table(tables: &Tables, table: &Name, changes: &[Change]) -> bool
    ensures { IsTrue result → ChangesFitTable tables.now table.now changes.now }
{
    match tables.columns(table) {
        Some(columns) => change_of(changes, b"id").is_none() && changes_fit(columns, changes),
        None => true,
    }
}

impl Bench {
    /// No tables, no transactions, and session 1 acts.
    pub(crate) fn new(rt: &impl Abort, alloc: Global) -> Self
        ensures ready { IsReady (world result.core.xacts result.tables result.s) }
    {
        Bench {
            alloc,
            core: Core {
                xacts: Xacts::new(alloc).expect(rt, "memory"),
            },
            tables: Tables::new(alloc).expect(rt, "memory"),
            s: session(rt, 1),
            undos: 0,
        }
    }

    /// Does an act, or compares what it expects.
    pub(crate) fn play(&mut self, rt: &impl Abort, act: &Act)
        requires ready { IsReady (world self.old.core.xacts self.old.tables self.old.s) }
        ensures ready { IsReady (world self.new.core.xacts self.new.tables self.new.s) }
    {
        match act {
            Act::As(number) => self.s = session(rt, *number),
            _ => {
                self.tick(rt);
                self.step(rt, act);
            }
        }
    }

    fn step(&mut self, rt: &impl Abort, act: &Act)
        requires ready { IsReady (world self.old.core.xacts self.old.tables self.old.s) }
        ensures ready { IsReady (world self.new.core.xacts self.new.tables self.new.s) }
    {
        match act {
            Act::Begin => self.begin(rt),
            Act::Commit => self.commit(rt),
            Act::Rollback => self.rollback(rt),
            Act::Savepoint => self.savepoint(rt),
            Act::UndoTo(level) => self.undo(rt, *level),
            Act::Release(level) => self.release(rt, *level),
            Act::Vacuum => self.vacuum(),
            _ => self.request(rt, act),
        }
    }

    fn request(&mut self, rt: &impl Abort, act: &Act)
        requires ready { IsReady (world self.old.core.xacts self.old.tables self.old.s) }
        ensures ready { IsReady (world self.new.core.xacts self.new.tables self.new.s) }
    {
        let alone = self.core.xacts.levels(self.s) == 0;
        if alone {
            self.begin(rt);
        }
        self.change(rt, act);
        if alone {
            self.commit(rt);
        }
    }

    fn change(&mut self, rt: &impl Abort, act: &Act)
        requires ready { IsReady (world self.old.core.xacts self.old.tables self.old.s) }
        ensures ready { IsReady (world self.new.core.xacts self.new.tables self.new.s) }
    {
        match act {
            Act::Create(table, specs, answer) => {
                let table = name(rt, self.alloc, table);
                self.create(rt, table, specs, *answer)
            },
            Act::Insert(table, row, answer) => self.insert(rt, table, row, *answer),
            Act::Update(table, id, changed, answer) => {
                self.update(rt, table, *id, changed, *answer)
            }
            Act::Delete(table, id, answer) => self.delete(rt, table, *id, *answer),
            Act::Declare(cursor, table, id, answer) => {
                self.declare(rt, cursor, table, *id, *answer)
            }
            Act::Close(cursor, answer) => self.close(rt, cursor, *answer),
            Act::Rewrite(table, specs, answer) => self.rewrite(rt, table, specs, *answer),
            _ => self.compare(rt, act),
        }
    }

    /// Moves the clock one up.
    fn tick(&mut self, rt: &impl Abort)
        requires ready { IsReady (world self.old.core.xacts self.old.tables self.old.s) }
        ensures ready { IsReady (world self.new.core.xacts self.new.tables self.new.s) }
    {
        assert!(rt; self.core.xacts.now() < 1 << 63);
        self.core.xacts.tick();
    }

    fn begin(&mut self, rt: &impl Abort)
        requires ready { IsReady (world self.old.core.xacts self.old.tables self.old.s) }
        ensures ready { IsReady (world self.new.core.xacts self.new.tables self.new.s) }
    {
        assert_eq!(rt; self.core.xacts.levels(self.s), 0);
        assert!(rt; self.core.xacts.views() < 1000);
        self.core.xacts.begin(self.s).expect(rt, "memory");
    }

    fn commit(&mut self, rt: &impl Abort)
        requires ready { IsReady (world self.old.core.xacts self.old.tables self.old.s) }
        ensures ready { IsReady (world self.new.core.xacts self.new.tables self.new.s) }
    {
        assert!(rt; self.core.xacts.levels(self.s) > 0);
        self.tables.undo_level(&mut self.core, self.s, 1);
        self.core.xacts.commit(self.s);
    }

    fn rollback(&mut self, rt: &impl Abort)
        requires ready { IsReady (world self.old.core.xacts self.old.tables self.old.s) }
        ensures ready { IsReady (world self.new.core.xacts self.new.tables self.new.s) }
    {
        assert!(rt; self.core.xacts.levels(self.s) > 0);
        self.tables.undo_level(&mut self.core, self.s, 1);
        self.core.xacts.abort(self.s);
    }

    fn savepoint(&mut self, rt: &impl Abort)
        requires ready { IsReady (world self.old.core.xacts self.old.tables self.old.s) }
        ensures ready { IsReady (world self.new.core.xacts self.new.tables self.new.s) }
    {
        assert!(rt; self.core.xacts.levels(self.s) > 0);
        assert!(rt; self.core.xacts.views() < 1000);
        self.core
            .xacts
            .push_level(self.s, name(rt, self.alloc, "s"))
            .expect(rt, "memory");
    }

    fn undo(&mut self, rt: &impl Abort, level: u64)
        requires ready { IsReady (world self.old.core.xacts self.old.tables self.old.s) }
        ensures ready { IsReady (world self.new.core.xacts self.new.tables self.new.s) }
    {
        assert!(rt; 1 <= level);
        assert!(rt; level <= self.core.xacts.levels(self.s));
        assert!(rt; self.undos < 1000);
        self.tables.undo_level(&mut self.core, self.s, level);
        self.core.xacts.undo_level(self.s, level);
        self.undos += 1;
    }

    fn release(&mut self, rt: &impl Abort, level: u64)
        requires ready { IsReady (world self.old.core.xacts self.old.tables self.old.s) }
        ensures ready { IsReady (world self.new.core.xacts self.new.tables self.new.s) }
    {
        assert!(rt; 2 <= level);
        assert!(rt; level <= self.core.xacts.levels(self.s));
        self.tables.release_level(&mut self.core, self.s, level);
        self.core.xacts.release_level(self.s, level);
    }

    fn vacuum(&mut self)
        requires ready { IsReady (world self.old.core.xacts self.old.tables self.old.s) }
        ensures ready { IsReady (world self.new.core.xacts self.new.tables self.new.s) }
    {
        self.tables.vacuum(&mut self.core);
    }

    pub(crate) fn create(&mut self, rt: &impl Abort, table: Name, specs: &[Spec], answer: Answer)
        requires ready { IsReady (world self.old.core.xacts self.old.tables self.old.s) }
        ensures ready { IsReady (world self.new.core.xacts self.new.tables self.new.s) }
    {
        let columns = columns(rt, self.alloc, specs);
        assert!(rt; are_table_columns(columns.items()));
        let answered = self.tables.create_table(&self.core, self.s, table, columns);
        assert!(rt; is_done(&answered, answer));
    }

    pub(crate) fn insert(&mut self, rt: &impl Abort, table: &str, row: &[Spelled], answer: Answer)
        requires ready { IsReady (world self.old.core.xacts self.old.tables self.old.s) }
        ensures ready { IsReady (world self.new.core.xacts self.new.tables self.new.s) }
    {
        assert!(rt; self.core.xacts.levels(self.s) > 0);
        let table = name(rt, self.alloc, table);
        let made = values(rt, self.alloc, row);
        let row = made.as_slice();
        assert!(rt; fit_table(&self.tables, &table, row));
        let answered = self.tables.insert(&mut self.core, self.s, &table, row);
        assert!(rt; is_done(&answered, answer));
    }

    pub(crate) fn update(
        &mut self,
        rt: &impl Abort,
        table: &str,
        id: i64,
        changed: &[(&'static str, Spelled)],
        answer: Answer,
    )
        requires ready { IsReady (world self.old.core.xacts self.old.tables self.old.s) }
        ensures ready { IsReady (world self.new.core.xacts self.new.tables self.new.s) }
    {
        assert!(rt; self.core.xacts.levels(self.s) > 0);
        let table = name(rt, self.alloc, table);
        let made = changes(rt, self.alloc, changed);
        let changed = made.as_slice();
        assert!(rt; changes_fit_table(&self.tables, &table, changed));
        let answered = self
            .tables
            .update(&mut self.core, self.s, &table, id, changed);
        assert!(rt; is_done(&answered, answer));
    }

    pub(crate) fn delete(&mut self, rt: &impl Abort, table: &str, id: i64, answer: Answer)
        requires ready { IsReady (world self.old.core.xacts self.old.tables self.old.s) }
        ensures ready { IsReady (world self.new.core.xacts self.new.tables self.new.s) }
    {
        assert!(rt; self.core.xacts.levels(self.s) > 0);
        let table = name(rt, self.alloc, table);
        let answered = self.tables.delete(&mut self.core, self.s, &table, id);
        assert!(rt; is_done(&answered, answer));
    }

    fn declare(&mut self, rt: &impl Abort, cursor: &str, table: &str, id: i64, answer: Answer)
        requires ready { IsReady (world self.old.core.xacts self.old.tables self.old.s) }
        ensures ready { IsReady (world self.new.core.xacts self.new.tables self.new.s) }
    {
        assert!(rt; self.core.xacts.levels(self.s) > 0);
        assert!(rt; self.core.xacts.views() < 1000);
        let cursor = name(rt, self.alloc, cursor);
        let table = name(rt, self.alloc, table);
        let answered = self
            .tables
            .declare(&mut self.core, self.s, cursor, &table, id);
        assert!(rt; is_done(&answered, answer));
    }

    fn close(&mut self, rt: &impl Abort, cursor: &str, answer: Answer)
        requires ready { IsReady (world self.old.core.xacts self.old.tables self.old.s) }
        ensures ready { IsReady (world self.new.core.xacts self.new.tables self.new.s) }
    {
        let cursor = name(rt, self.alloc, cursor);
        let answered = self.tables.close_cursor(&mut self.core, self.s, &cursor);
        assert!(rt; is_done(&answered.map_err(Denied::By), answer));
    }

    fn rewrite(&mut self, rt: &impl Abort, table: &str, specs: &[Spec], answer: Answer)
        requires ready { IsReady (world self.old.core.xacts self.old.tables self.old.s) }
        ensures ready { IsReady (world self.new.core.xacts self.new.tables self.new.s) }
    {
        assert!(rt; self.core.xacts.levels(self.s) > 0);
        let table = name(rt, self.alloc, table);
        let storages = columns(rt, self.alloc, specs);
        let answered = self
            .tables
            .rewrite(&mut self.core, self.s, &table, storages.items());
        assert!(rt; is_count(&answered, answer));
    }

    /// Compares what a call reads.
    fn compare(&self, rt: &impl Abort, act: &Act)
        requires ready { IsReady (world self.now.core.xacts self.now.tables self.now.s) }
    {
        match act {
            Act::Get(table, id, answer) => self.get(rt, table, *id, *answer),
            Act::Slice(table, id, column, from, length, answer) => {
                self.slice(rt, table, *id, column, (*from, *length), *answer)
            }
            Act::Ids(table, answer) => self.ids(rt, table, *answer),
            Act::Fetch(cursor, column, from, length, answer) => {
                self.fetch(rt, cursor, column, (*from, *length), *answer)
            }
            _ => assert!(rt; false, "no such act"),
        }
    }

    fn get(&self, rt: &impl Abort, table: &str, id: i64, answer: Answer)
        requires ready { IsReady (world self.now.core.xacts self.now.tables self.now.s) }
    {
        assert!(rt; self.core.xacts.levels(self.s) > 0);
        let snap = self.core.xacts.snapshot(self.s);
        let table = name(rt, self.alloc, table);
        let answered = self.tables.get(&self.core, &snap, &table, id);
        assert!(rt; is_row(&answered, answer));
    }

    /// A part is told by its offset and by how many bytes it has at most.
    fn slice(
        &self,
        rt: &impl Abort,
        table: &str,
        id: i64,
        column: &str,
        part: (i64, i64),
        answer: Answer,
    )
        requires ready { IsReady (world self.now.core.xacts self.now.tables self.now.s) }
    {
        assert!(rt; self.core.xacts.levels(self.s) > 0);
        let snap = self.core.xacts.snapshot(self.s);
        let table = name(rt, self.alloc, table);
        let column = name(rt, self.alloc, column);
        let answered = self
            .tables
            .slice(&self.core, &snap, &table, id, &column, part.0, part.1);
        assert!(rt; is_part(&answered, answer));
    }

    pub(crate) fn ids(&self, rt: &impl Abort, table: &str, answer: Answer)
        requires ready { IsReady (world self.now.core.xacts self.now.tables self.now.s) }
    {
        assert!(rt; self.core.xacts.levels(self.s) > 0);
        let snap = self.core.xacts.snapshot(self.s);
        let table = name(rt, self.alloc, table);
        let answered = self.tables.ids(&self.core, &snap, &table);
        assert!(rt; are_ids(&answered, answer));
    }

    fn fetch(&self, rt: &impl Abort, cursor: &str, column: &str, part: (i64, i64), answer: Answer)
        requires ready { IsReady (world self.now.core.xacts self.now.tables self.now.s) }
    {
        let cursor = name(rt, self.alloc, cursor);
        let column = name(rt, self.alloc, column);
        let answered = self
            .tables
            .fetch_slice(&self.core, self.s, &cursor, &column, part.0, part.1);
        assert!(rt; is_part(&answered, answer));
    }
}

pub(crate) fn run(rt: &impl Abort, alloc: Global, acts: &[Act]) {
    let mut bench = Bench::new(rt, alloc);
    for act in acts {
        bench.play(rt, act);
    }
}
