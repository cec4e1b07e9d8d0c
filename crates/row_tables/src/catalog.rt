// The catalog: the tables by number, and their numbers by name. Nothing is ever taken out of it.
use lo_base::{Column, ColumnList, Name, NoMemory};
use std::alloc::Global;
use std::collections::BTreeMap;
use std::marker::Model;

/// A table's name and its columns.
#[derive(Drop)]
pub(crate) struct Entry {
    pub(crate) name: Name,
    pub(crate) columns: ColumnList,
}

/// All tables in the order made. A table's number is its index, and `numbers` has it by the table's name.
#[derive(Drop)]
pub(crate) struct Catalog {
    alloc: Global,
    entries: Vec<Entry>,
    numbers: BTreeMap<Vec<u8>, u32>,
}

impl Model for Catalog {
    ghost use Rattle.std.specs.Prelude.{List};
    ghost use Rattle.lo_model.specs.Database.{Table};
    ghost use Rattle.row_tables.specs.Catalog.{tables_of, IsIndex};

    ghost Value = { List Table };

    ghost view = { λ catalog. tables_of catalog.entries.items };

    ghost invariant = { λ catalog. IsIndex catalog.entries.items catalog.numbers };
}

impl Catalog {
    ghost use Rattle.std.specs.Prelude.{◌≡◌, ◌<◌, ◌++◌, [], ◌∷◌, length, map, None, Some, IfOk, OnOk, OnErr, slice_get};
    ghost use Rattle.std.specs.Option.{option_copied};
    ghost use Rattle.lo_model.specs.Listing.{tables_in_order};
    ghost use Rattle.toast_plan.specs.Columns.{IsTableColumns};
    ghost use Rattle.row_tables.specs.Catalog.{AreTables, columns_in, most_tables, name_of, number_in, with_columns};

    /// No tables.
    pub(crate) fn new(alloc: Global) -> Result<Catalog, NoMemory>
        ensures { IfOk result (λ catalog. catalog ≡ []) }
    {
        Ok(Catalog {
            alloc,
            entries: Vec::new(alloc),
            numbers: BTreeMap::new(alloc),
        })
    }

    /// How many tables there are.
    pub(crate) fn len(&self) -> usize
        ensures count { result ≡ length self.now }
        ensures tables { AreTables self.now }
    {
        self.entries.len()
    }

    /// The number of the table of a name.
    pub(crate) fn number(&self, name: &[u8]) -> Option<u32>
        ensures number { result ≡ number_in name.now self.now }
        ensures tables { AreTables self.now }
    {
        self.numbers.get(name).copied()
    }

    /// The columns of the table of a number.
    pub(crate) fn columns(&self, number: u32) -> &[Column]
        requires { number < length self.now }
        ensures columns { result.now ≡ columns_in (slice_get self.now number) }
        ensures can { IsTableColumns result.now }
    {
        self.entries[number as usize].columns.items()
    }

    /// The name at a place, from 0, where names ascend byte by byte.
    pub(crate) fn name_at(&self, k: u32) -> Option<&Name>
        ensures { option_copied result ≡ slice_get (map name_of (tables_in_order self.now)) k }
    {
        let (_name, number) = self.numbers.iter().nth(k as usize)?;
        Some(&self.entries[*number as usize].name)
    }

    /// Adds a table.
    pub(crate) fn add(&mut self, name: Name, columns: ColumnList) -> Result<(), NoMemory>
        requires few { length self.old < most_tables }
        requires fresh { number_in name self.old ≡ None }
        requires can { IsTableColumns columns }
        ensures ok { OnOk result (self.new ≡ self.old ++ record { name = name; columns = columns } ∷ []) }
        ensures err { OnErr result (self.new ≡ self.old) }
    {
        let key = Vec::from_slice(self.alloc, name.items())?;
        self.entries.reserve(1)?;
        self.numbers.insert(key, self.entries.len() as u32)?;
        self.entries.push_reserved(Entry { name, columns });
        Ok(())
    }

    /// Gives a table other columns.
    pub(crate) fn set_columns(&mut self, number: u32, columns: ColumnList)
        requires there { number < length self.old }
        requires can { IsTableColumns columns }
        ensures { self.new ≡ with_columns number columns self.old }
    {
        self.entries[number as usize].columns = columns;
    }
}
