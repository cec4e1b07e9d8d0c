// The calls that store and erase values. Each puts versions chunk by chunk, and stops where there is no memory.
ghost use Rattle.std.specs.Prelude.{◌≡◌, ◌<◌, ◌≤◌, ◌*◌, ℕ, List, [], length, true, None, Some, OnOk, IfOk};
ghost use Rattle.xact_core.specs.Kept.{current};
ghost use Rattle.xact_core.specs.Transactions.{levels_of};
ghost use Rattle.row_versions.specs.Looks.{IsLook};
ghost use Rattle.row_versions.specs.Stands.{standing, lowest_other};
ghost use Rattle.toast_chunks.specs.Calls.{ChangesChunk, ChangesOnly, Erases, IsFree, LeavesOwn, Stores, StoresAll};
ghost use Rattle.toast_chunks.specs.Values.{GoWith, HasValue, has_chunk, last_place, next_number, slice_of, versions_of};

use crate::chunk_key::ChunkKey;
use crate::chunks::{CHUNK_BYTES, Chunks};
use lo_base::{Bytes, NoMemory, SessionNo};
use row_versions::Core;
use xact_core::Snapshot;

impl Chunks {
    /// Stores a value under a number that no value had, in the session's top level. It costs the value's bytes. After the last
    /// number of 64 bits there is no other, which is told as want of memory.
    pub fn store(&mut self, core: &mut Core, s: SessionNo, bytes: &[u8]) -> Result<u64, NoMemory>
        requires open { 0 < length (levels_of core.old.xacts s) }
        requires goes { GoWith core.old.xacts self.old }
        ensures ok { IfOk result (Stores core.old.xacts s bytes.now self.old self.new) }
        ensures own { IfOk result (λ value.
            HasValue core.old.xacts (current core.old.xacts s) self.new value bytes.now) }
        ensures left { LeavesOwn core.old.xacts s self.old self.new }
        ensures goes { GoWith core.old.xacts self.new }
        ensures core { core.new ≡ core.old }
    {
        let value = self.next;
        let Some(next) = value.checked_add(1) else {
            return Err(NoMemory);
        };
        self.next = next;
        let Ok(()) = self.put_chunks(core, s, value, bytes) else {
            return Err(NoMemory);
        };
        Ok(value)
    }

    /// Erases a value that the session's current view has, in its top level. No other session may have an open erasure of it. It
    /// costs a search and an erasure for each chunk.
    pub fn erase(&mut self, core: &Core, s: SessionNo, value: u64) -> Result<(), NoMemory>
        requires open { 0 < length (levels_of core.now.xacts s) }
        requires free { IsFree core.now.xacts s self.old value }
        requires goes { GoWith core.now.xacts self.old }
        ensures ok { (bytes : List ℕ) →
            HasValue core.now.xacts (current core.now.xacts s) self.old value bytes →
            OnOk result (Erases core.now.xacts s value bytes self.old self.new) }
        // Whatever chunks the number has, no other value changes.
        ensures only { OnOk result (ChangesOnly value self.old self.new) }
        ensures left { LeavesOwn core.now.xacts s self.old self.new }
        ensures goes { GoWith core.now.xacts self.new }
    {
        let snap = core.xacts.snapshot(s);
        let mut number = 0;
        while self.has_chunk(core, &snap, value, number) {
            let Ok(()) = self.erase_chunk(core, s, value, number) else {
                return Err(NoMemory);
            };
            number += 1;
        }
        Ok(())
    }

    /// Puts each chunk of a value.
    fn put_chunks(
        &mut self,
        core: &mut Core,
        s: SessionNo,
        value: u64,
        bytes: &[u8],
    ) -> Result<(), NoMemory>
        requires open { 0 < length (levels_of core.old.xacts s) }
        requires goes { GoWith core.old.xacts self.old }
        requires used { value < next_number self.old }
        requires fresh { (k : ℕ) → versions_of self.old value k ≡ [] }
        ensures ok { OnOk result (StoresAll core.old.xacts s value bytes.now self.old self.new) }
        ensures left { LeavesOwn core.old.xacts s self.old self.new }
        ensures goes { GoWith core.old.xacts self.new }
        ensures core { core.new ≡ core.old }
    {
        for number in 0..bytes.len().div_ceil(CHUNK_BYTES) {
            let Ok(chunk) = Bytes::from_slice(self.alloc, chunk_of(bytes, number)) else {
                return Err(NoMemory);
            };
            let Ok(()) = self.put_chunk(core, s, value, number as u64, chunk) else {
                return Err(NoMemory);
            };
        }
        Ok(())
    }

    /// Whether a view finds a chunk. No chunk has a number above the last one that memory has place for.
    fn has_chunk(&self, core: &Core, snap: &Snapshot, value: u64, number: u64) -> bool
        requires kept { IsLook core.now.xacts snap.now }
        requires goes { GoWith core.now.xacts self.now }
        ensures found { result ≡ has_chunk core.now.xacts snap.now self.now value number }
        ensures used { result ≡ true → value < next_number self.now }
        ensures small { result ≡ true → number < last_place }
    {
        self.versions
            .find(core, &ChunkKey { value, number }, snap)
            .is_some()
    }

    fn put_chunk(
        &mut self,
        core: &mut Core,
        s: SessionNo,
        value: u64,
        number: u64,
        chunk: Bytes,
    ) -> Result<(), NoMemory>
        requires open { 0 < length (levels_of core.old.xacts s) }
        requires goes { GoWith core.old.xacts self.old }
        requires used { value < next_number self.old }
        requires small { number < last_place }
        requires free { lowest_other s (standing core.old.xacts (versions_of self.old value number))
            ≡ None }
        ensures ok { OnOk result (ChangesChunk core.old.xacts s value number (Some chunk)
            self.old self.new) }
        ensures left { LeavesOwn core.old.xacts s self.old self.new }
        ensures goes { GoWith core.old.xacts self.new }
        ensures core { core.new ≡ core.old }
    {
        self.versions
            .put(core, s, ChunkKey { value, number }, chunk)
    }

    fn erase_chunk(
        &mut self,
        core: &Core,
        s: SessionNo,
        value: u64,
        number: u64,
    ) -> Result<(), NoMemory>
        requires open { 0 < length (levels_of core.now.xacts s) }
        requires goes { GoWith core.now.xacts self.old }
        requires used { value < next_number self.old }
        requires small { number < last_place }
        requires free { lowest_other s (standing core.now.xacts (versions_of self.old value number))
            ≡ None }
        ensures ok { OnOk result (ChangesChunk core.now.xacts s value number None
            self.old self.new) }
        ensures left { LeavesOwn core.now.xacts s self.old self.new }
        ensures goes { GoWith core.now.xacts self.new }
    {
        self.versions.erase(core, s, ChunkKey { value, number })
    }
}

/// A chunk of a value, by its number.
fn chunk_of(bytes: &[u8], number: usize) -> &[u8]
    requires { 1996 * number < length bytes.now }
    ensures { result.now ≡ slice_of (1996 * number) 1996 bytes.now }
{
    let rest = &bytes[CHUNK_BYTES * number..];
    &rest[..CHUNK_BYTES.min(rest.len())]
}
