// What a clean-up of orphans reads: the objects of a session's current view, the columns that may name them, and the numbers in
// a column. (Manual, vacuumlo.)
ghost use Rattle.std.specs.Prelude.{◌≡◌, ℕ, ◌++◌, ◌∷◌, [], List, IfOk, OnOk, MatchOption, map};
ghost use Rattle.std.specs.List.{AllByRecursion, flat_map};
ghost use Rattle.lo_base.specs.declared.value.Value.{Value};
ghost use Rattle.lo_model.specs.Edit.{Deed, Edit};
ghost use Rattle.lo_model.specs.Listing.{oids_in};
ghost use Rattle.lo_model.specs.View.{view};
ghost use Rattle.lo_pages.specs.Standing.{ReadsAs};
ghost use Rattle.lo_restore.specs.Objects.{AreFit, Reads};
ghost use Rattle.lo_restore.specs.TablesSaved.{HasRowThere, row_values};
ghost use Rattle.row_tables.specs.RowRules.{value_under};
ghost use Rattle.row_tables.specs.Standing.{GoWith, StandFor};
ghost use Rattle.row_tables.specs.Values.{cell_of, cells_of};
ghost use Rattle.row_versions.specs.Looks.{IsLook};
ghost use Rattle.lo_machine.specs.Server.{HasRows, HasState, IsServer, StandsFor, xacts_of};
ghost use Rattle.lo_machine.specs.State.{State, edits, view_of};
ghost use Rattle.lo_machine.specs.SweepRows.{found_in, names_objects, number_in, scans_of, scans_of_table};

use crate::server::Server;
use lo_base::{Cell, Cells, ColType, Column, Denied, Name, NoMemory, Oid, Oids, SessionNo};
use lo_pages::Pages;
use orphan_sweep::{Scan, Scans};
use row_tables::{MOST_TABLES, Tables};
use row_versions::Core;
use std::alloc::Global;
use xact_core::Snapshot;

impl Server {
    /// The numbers of all objects of the session's current view, ascending. One walk over them.
    pub(crate) fn listed(&self, s: SessionNo) -> Result<Oids, NoMemory>
        requires sound { IsServer self.now }
        requires stands { HasState self.now }
        ensures { IfOk result (λ list. (st : State) → StandsFor self.now st →
            list ≡ oids_in (view_of st s)) }
    {
        let snap = self.current_look(s);
        numbers_of_objects(self.alloc, &self.store.pages, &self.core, &snap)
    }

    /// The columns of all tables that may name objects, by the table's name and then the column's place.
    pub(crate) fn scans(&self) -> Result<Scans, NoMemory>
        requires sound { IsServer self.now }
        ensures { IfOk result (λ scans. (st : State) → StandsFor self.now st →
            scans ≡ scans_of st.database.tables) }
    {
        let mut scans = Scans::new(self.alloc);
        for k in 0..MOST_TABLES as u32 {
            let Some(name) = self.tables.table(k) else {
                return Ok(scans);
            };
            let Some(columns) = self.tables.columns(name) else {
                unreachable!()
            };
            add_scans(self.alloc, &mut scans, name, columns)?;
        }
        Ok(scans)
    }

    /// The numbers that a column has in the session's current view, row by row by ascending id: none where the table or the
    /// column is not there.
    pub(crate) fn found(&self, s: SessionNo, table: &Name, column: &Name) -> Result<Oids, NoMemory>
        requires sound { IsServer self.now }
        requires rows { HasRows self.now }
        requires stands { HasState self.now }
        ensures { IfOk result (λ found. (st : State) → StandsFor self.now st →
            found ≡ found_in st s table.now column.now) }
    {
        let Some(columns) = self.tables.columns(table) else {
            return Ok(Oids::new(self.alloc));
        };
        let snap = self.current_look(s);
        let ids = match self.tables.ids(&self.core, &snap, table) {
            Ok(ids) => ids,
            Err(Denied::NoMemory) => return Err(NoMemory),
            Err(Denied::By(_)) => unreachable!(),
        };
        numbers_in_rows(
            self.alloc,
            &self.tables,
            &self.core,
            &snap,
            table,
            columns,
            column,
            ids.items(),
        )
    }

    /// A view that is kept and has what the session sees now: its own in a transaction, and what is committed outside of one.
    fn current_look(&self, s: SessionNo) -> Snapshot
        ensures look { IsLook (xacts_of self.now) result }
        ensures view { (st : State) → StandsFor self.now st →
            view result.clock result.viewer (edits st) ≡ view_of st s }
    {
        // Numbers of sessions are from 1 to 16.
        let _ = s.number();
        if self.core.xacts.levels(s) > 0 {
            self.core.xacts.snapshot(s)
        } else {
            self.core.xacts.committed()
        }
    }
}

/// The numbers of all objects of a view, ascending.
fn numbers_of_objects(
    alloc: Global,
    pages: &Pages,
    core: &Core,
    snap: &Snapshot,
) -> Result<Oids, NoMemory>
    requires kept { IsLook core.now.xacts snap.now }
    requires reads { Reads core.now.xacts snap.now pages.now }
    ensures { IfOk result (λ list. (edits : List (Edit Deed)) →
        ReadsAs core.now.xacts snap.now pages.now edits → AreFit edits → list ≡ oids_in edits) }
{
    let mut list = Oids::new(alloc);
    let mut from = 0;
    loop {
        let Some(oid) = pages.next_object(core, snap, from) else {
            return Ok(list);
        };
        list.push(oid)?;
        let Some(next) = oid.checked_add(1) else {
            return Ok(list);
        };
        from = next;
    }
}

/// Adds the columns of a table that may name objects.
fn add_scans(
    alloc: Global,
    scans: &mut Scans,
    table: &Name,
    columns: &[Column],
) -> Result<(), NoMemory>
    ensures { OnOk result (scans.new ≡ scans.old ++ scans_of_table
        (record { name = table.now; columns = columns.now })) }
{
    for column in columns {
        if names_objects(column.kind) {
            let table = Name::from_slice(alloc, table.items())?;
            let column = Name::from_slice(alloc, column.name.items())?;
            scans.push(Scan { table, column })?;
        }
    }
    Ok(())
}

/// Whether values of a column's type may be numbers of objects.
fn names_objects(kind: ColType) -> bool
    ensures { result ≡ names_objects kind }
{
    match kind {
        ColType::Oid | ColType::Lo => true,
        ColType::Int8 | ColType::Bytea | ColType::Int4Array => false,
    }
}

/// The numbers that rows which the view has have in a column, row by row.
fn numbers_in_rows(
    alloc: Global,
    tables: &Tables,
    core: &Core,
    snap: &Snapshot,
    table: &Name,
    columns: &[Column],
    column: &Name,
    ids: &[i64],
) -> Result<Oids, NoMemory>
    requires kept { IsLook core.now.xacts snap.now }
    requires goes { GoWith core.now.xacts tables.now }
    requires there { AllByRecursion (HasRowThere core.now.xacts tables.now snap.now table.now)
        ids.now }
    ensures { IfOk result (λ found. (ys : List (Edit Deed)) →
        StandFor core.now.xacts tables.now ys → found ≡ flat_map (λ row. number_in
        (value_under column.now columns.now row)) (map (row_values
        (view snap.now.clock snap.now.viewer ys) table.now) ids.now)) }
{
    let mut found = Oids::new(alloc);
    for id in ids {
        let row = row_there(tables, core, snap, table, *id)?;
        let Some(oid) = number_under(columns, column, row.items()) else {
            continue;
        };
        found.push(oid)?;
    }
    Ok(found)
}

/// A row that the view has.
fn row_there(
    tables: &Tables,
    core: &Core,
    snap: &Snapshot,
    table: &Name,
    id: i64,
) -> Result<Cells, NoMemory>
    requires kept { IsLook core.now.xacts snap.now }
    requires goes { GoWith core.now.xacts tables.now }
    requires there { HasRowThere core.now.xacts tables.now snap.now table.now id }
    ensures { IfOk result (λ row. (ys : List (Edit Deed)) → StandFor core.now.xacts tables.now ys →
        row ≡ cells_of (row_values (view snap.now.clock snap.now.viewer ys) table.now id)) }
{
    match tables.get(core, snap, table, id) {
        Ok(row) => Ok(row),
        Err(Denied::NoMemory) => Err(NoMemory),
        Err(Denied::By(_)) => unreachable!(),
    }
}

/// The number that a row has in a column, where there is one.
fn number_under(columns: &[Column], name: &Name, row: &[Cell]) -> Option<Oid>
    ensures { (values : List Value) → row.now ≡ cells_of values →
        MatchOption result (number_in (value_under name.now columns.now values) ≡ [])
        (λ oid. number_in (value_under name.now columns.now values) ≡ oid ∷ []) }
{
    for (place, column) in columns.iter().enumerate() {
        if column.name.items() == name.items() {
            return match row.get(place) {
                Some(cell) => oid_in(cell),
                None => None,
            };
        }
    }
    None
}

/// The number of a cell that has one.
fn oid_in(cell: &Cell) -> Option<Oid>
    ensures { (value : Value) → cell.now ≡ cell_of value →
        MatchOption result (number_in value ≡ []) (λ oid. number_in value ≡ oid ∷ []) }
{
    match cell {
        Cell::Oid(oid) => Some(*oid),
        Cell::Null => None,
        Cell::Int(_) => None,
        Cell::Inline(_) => None,
        Cell::Text(_) => None,
        Cell::Outside { .. } => None,
    }
}
