// The pool and its calls. Fields are touched here alone; `specs/Rooms.antt` says what they keep. After `new` no call may
// grow a list.
ghost use Rattle.std.specs.Prelude.{◌≡◌, ◌≢◌, ◌+◌, ◌-◌, ◌≤◌, ◌++◌, ◌↔◌, ℕ, List, Some, None, length, take, drop, min, replicate, slice_set, IsErr, OnOk, OnErr, IfOk};
ghost use Rattle.block_pool.specs.Blocks.{bytes_in, Holds, IsInUse, IsFree, used_count, free_count, OnlyTouches};

use crate::block::Block;
use crate::room::Room;
use lo_base::{NoMemory, Steps};
use std::alloc::Global;
use std::marker::Model;
use std::sync::ledger::Ledger;

/// Every block of the pool is in use.
#[derive(Clone, Copy, Debug, PartialEq, Eq)]
pub struct PoolFull;

/// A fixed number of blocks, each free or in use with 0 to 2048 bytes. Contracts see a list with an entry for each block,
/// by its index: nothing for a free one, and else its bytes.
#[derive(Drop)]
pub struct Pool {
    // One for each block that was ever taken. Those after them were never written to.
    rooms: Vec<Room>,
    // The indices of the blocks that were given back.
    returned: Vec<u32>,
    size: u32,
}

impl Model for Pool {
    ghost use Rattle.std.specs.Prelude.{ℕ, List, Option};
    ghost use Rattle.block_pool.specs.Rooms.{all_blocks, IsKept};

    ghost Value = { List (Option (List ℕ)) };

    ghost view = { λ p. all_blocks p.size p.rooms.items };

    ghost invariant = { λ p. IsKept p.size p.rooms p.returned };
}

impl Pool {
    /// A pool of that many blocks, all of them free. It takes 2056 bytes a block, all that its calls will ever need, and
    /// writes to none of them: where the system gives pages when they are first written to, a block costs a page only
    /// from its first `take` on.
    pub fn new(alloc: Global, blocks: u32) -> Result<Pool, NoMemory>
        ensures { IfOk result (λ pool. pool ≡ replicate blocks None) }
    {
        Ok(Pool {
            rooms: Vec::with_capacity(alloc, blocks as usize)?,
            returned: Vec::with_capacity(alloc, blocks as usize)?,
            size: blocks,
        })
    }

    /// Puts the bytes, at most 2048, into a free block, which is in use until it is given back.
    pub fn take(&mut self, bytes: &[u8]) -> Result<Block, PoolFull>
        requires { length bytes.now ≤ 2048 }
        ensures full { IsErr result ↔ (free_count self.old ≡ 0) }
        ensures unchanged { OnErr result (self.new ≡ self.old) }
        ensures free { IfOk result (λ block. IsFree self.old block) }
        ensures taken { IfOk result (λ block.
            self.new ≡ slice_set self.old block (Some bytes.now)) }
        ensures holds { IfOk result (λ block. Holds self.new block bytes.now) }
        ensures others { IfOk result (λ block. OnlyTouches block self.old self.new) }
        // whatever the answer, a block in use keeps its bytes
        ensures kept { (block : ℕ) (held : List ℕ) →
            Holds self.old block held → Holds self.new block held }
        ensures used { OnOk result (used_count self.new ≡ used_count self.old + 1) }
        ensures left { OnOk result (free_count self.new + 1 ≡ free_count self.old) }
    {
        if let Some(index) = self.returned.pop() {
            self.rooms[index as usize].fill(bytes);
            return Ok(Block { index });
        }
        let index = self.rooms.len() as u32;
        if index == self.size {
            return Err(PoolFull);
        }
        self.rooms.push_reserved(Room::free());
        self.rooms[index as usize].fill(bytes);
        Ok(Block { index })
    }

    /// Copies the block's bytes from `at` on to the front of `out`, as many as there are and as fit, and answers how many
    /// these are: none where `at` is at or past their end.
    pub fn read<L: Ledger>(
        &self,
        block: &Block,
        at: u32,
        out: &mut [u8],
        steps: &mut Steps<L>,
    ) -> usize
        requires { IsInUse self.now block.now }
        ensures count { result ≡ min (length out.old) (length (bytes_in self.now block.now) - at) }
        ensures copied { out.new ≡
            take result (drop at (bytes_in self.now block.now)) ++ drop result out.old }
        ensures step { steps.new ≡ steps.old + 1 }
    {
        steps.tick();
        let held = self.rooms[block.index as usize].bytes();
        let rest = &held[held.len().min(at as usize)..];
        let count = out.len().min(rest.len());
        out[..count].copy_from_slice(&rest[..count]);
        count
    }

    /// Gives the block back, which is free then.
    pub fn give(&mut self, block: Block)
        requires { IsInUse self.old block }
        ensures given { self.new ≡ slice_set self.old block None }
        ensures free { IsFree self.new block }
        ensures others { OnlyTouches block self.old self.new }
        ensures kept { (other : ℕ) (held : List ℕ) →
            other ≢ block → Holds self.old other held → Holds self.new other held }
        ensures used { used_count self.new + 1 ≡ used_count self.old }
        ensures left { free_count self.new ≡ free_count self.old + 1 }
    {
        self.rooms[block.index as usize].clear();
        self.returned.push_reserved(block.index);
    }

    /// How many bytes the block holds.
    pub fn len(&self, block: &Block) -> u32
        requires { IsInUse self.now block.now }
        ensures len { result ≡ length (bytes_in self.now block.now) }
        ensures within { result ≤ 2048 }
    {
        self.rooms[block.index as usize].bytes().len() as u32
    }

    /// How many blocks are in use. Those that were dropped and not given back are among them.
    pub fn used(&self) -> u32
        ensures used { result ≡ used_count self.now }
        ensures size { result + free_count self.now ≡ length self.now }
    {
        self.size - self.free()
    }

    /// How many blocks are free.
    pub fn free(&self) -> u32
        ensures free { result ≡ free_count self.now }
        ensures size { used_count self.now + result ≡ length self.now }
    {
        let untouched = self.size as usize - self.rooms.len();
        (untouched + self.returned.len()) as u32
    }
}
