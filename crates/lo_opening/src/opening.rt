//! A database as plain data: what an image holds, and what a run begins with.
ghost use Rattle.std.specs.Prelude.{◌≡◌, ◌≤◌, ◌^◌, [], length};
ghost use Rattle.lo_opening.specs.Opening.{has_tail, blocks_held};

use lo_base::{Bytes, ColumnList, ListOf, Name, RowList};
use std::alloc::Global;
use std::marker::Model;

/// The bytes of a block. A block begins at its number times this.
const BLOCK_BYTES: u64 = 2048;

/// No pool has more blocks.
pub const MOST_BLOCKS: u32 = 262_144;

/// The number from which on new objects are numbered, where a line names none.
const FIRST_NUMBER: u64 = 16384;

/// The blocks of an object that are not all zero: number and bytes.
pub type StoredBlocks = ListOf<(u32, Bytes)>;

/// A large object: the blocks that are not stored are zeros.
#[derive(Debug, Drop)]
pub struct ObjectData {
    pub oid: u32,
    pub size: u64,
    pub stored: StoredBlocks,
}

impl ObjectData {
    /// Whether zeros stand behind the last stored block.
    pub fn has_tail(&self) -> bool
        ensures { result ≡ has_tail self.now.size 0 self.now.stored }
    {
        let mut end = 0;
        for block in self.stored.items() {
            end = BLOCK_BYTES * block.0 as u64 + BLOCK_BYTES;
        }
        end < self.size
    }

    /// How many blocks of a pool it holds: its stored ones, and one for zeros behind them.
    pub fn blocks_held(&self) -> u64
        requires few { length self.now.stored ≤ 2 ^ 32 }
        ensures { result ≡ blocks_held self.now }
    {
        let tail: u64 = if self.has_tail() { 1 } else { 0 };
        self.stored.items().len() as u64 + tail
    }
}

/// Large objects.
pub type ObjectList = ListOf<ObjectData>;

/// A table with its rows.
#[derive(Debug, Drop)]
pub struct TableData {
    pub name: Name,
    pub columns: ColumnList,
    pub rows: RowList,
}

/// Tables.
pub type TableList = ListOf<TableData>;

/// A database. The type keeps every rule that an image has of its fields, so each opening has an image.
#[derive(Debug, Drop)]
pub struct Opening {
    /// The number of blocks of the pool.
    pub blocks: u32,
    /// The number from which the next object's is looked for.
    pub counter: u64,
    pub tables: TableList,
    pub objects: ObjectList,
}

impl Opening {
    /// The empty database, on a pool of so many blocks. (Manual, Object Identifier Types: numbers below 16384 are the system's.)
    pub fn empty(alloc: Global, blocks: u32) -> Opening
        requires some { 1 ≤ blocks }
        requires few { blocks ≤ MOST_BLOCKS }
        ensures { result ≡ record {
          blocks = blocks;
          counter = FIRST_NUMBER;
          tables = [];
          objects = [];
        } }
    {
        Opening {
            blocks,
            counter: FIRST_NUMBER,
            tables: ListOf::new(alloc),
            objects: ListOf::new(alloc),
        }
    }
}

impl Model for Opening {
    ghost use Rattle.lo_opening.specs.Opening.{OpeningData, IsOpening};

    ghost Value = { OpeningData };

    ghost view = { λ o. record {
      blocks = o.blocks;
      counter = o.counter;
      tables = o.tables;
      objects = o.objects;
    } };

    ghost invariant = { λ o. IsOpening (record {
      blocks = o.blocks;
      counter = o.counter;
      tables = o.tables;
      objects = o.objects;
    }) };
}
