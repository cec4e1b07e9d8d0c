// Values in a store of chunks: what a view reads of them, and the vacuum. `change` has the calls that store and erase values.
ghost use Rattle.std.specs.Prelude.{◌≡◌, ◌≤◌, ◌<◌, ℕ, ◌++◌, drop, length, take, List, IfOk};
ghost use Rattle.xact_core.specs.declared.snapshot.Snapshot.{Snapshot};
ghost use Rattle.xact_core.specs.Transactions.{Transactions};
ghost use Rattle.row_versions.specs.Looks.{IsLook};
ghost use Rattle.toast_chunks.specs.Calls.{LeavesFound, Vacuums};
ghost use Rattle.toast_chunks.specs.Values.{GoWith, HasNone, HasValue, bytes_or_none, found_at, slice_of};

use crate::chunk_key::ChunkKey;
use lo_base::NoMemory;
use row_versions::{Core, Heads};
use std::alloc::Global;
use xact_core::Snapshot;

/// The bytes of a full chunk. A value's chunks are full but the last one, and are numbered from 0 (PostgreSQL manual, TOAST).
pub const CHUNK_BYTES: usize = 1996;

/// Values in chunks. `versions` has a version for each chunk that was stored or erased; `next` is the number of the next value,
/// and all values so far have lower ones.
#[derive(Drop)]
pub struct Chunks {
    pub(crate) alloc: Global,
    pub(crate) versions: Heads<ChunkKey>,
    pub(crate) next: u64,
}

impl Chunks {
    /// No values.
    pub fn new(alloc: Global) -> Result<Chunks, NoMemory>
        ensures none { IfOk result HasNone }
        ensures goes { IfOk result (λ chunks. (x : Transactions) → GoWith x chunks) }
    {
        Ok(Chunks {
            alloc,
            versions: Heads::new(alloc)?,
            next: 1,
        })
    }

    /// Fills `out` with a value that a view has, where it has the value's length.
    pub fn fetch_into(&self, core: &Core, snap: &Snapshot, value: u64, out: &mut [u8])
        requires kept { IsLook core.now.xacts snap.now }
        ensures { (bytes : List ℕ) → HasValue core.now.xacts snap.now self.now value bytes →
            length out.old ≡ length bytes → out.new ≡ bytes }
    {
        self.slice_into(core, snap, value, 0, out);
    }

    /// Fills the front of `out` with the bytes of a value that a view has, from an offset on, as many as there are and as fit,
    /// and answers how many these are. It looks at the chunks that they lie in, and where they end with a full last chunk and
    /// there is room for more, once for a chunk behind it.
    pub fn slice_into(
        &self,
        core: &Core,
        snap: &Snapshot,
        value: u64,
        from: u32,
        out: &mut [u8],
    ) -> usize
        requires kept { IsLook core.now.xacts snap.now }
        ensures count { (bytes : List ℕ) →
            HasValue core.now.xacts snap.now self.now value bytes →
            result ≡ length (slice_of from (length out.old) bytes) }
        ensures bytes { (bytes : List ℕ) →
            HasValue core.now.xacts snap.now self.now value bytes →
            out.new ≡ slice_of from (length out.old) bytes ++ drop result out.old }
    {
        let mut done = 0;
        while done < out.len() {
            let at = from as usize + done;
            let chunk = self.chunk(core, snap, value, (at / CHUNK_BYTES) as u64);
            let (_before, rest) = out.split_at_mut(done);
            done += fill(chunk, at % CHUNK_BYTES, rest);
            if chunk.len() < CHUNK_BYTES {
                return done;
            }
        }
        done
    }

    /// The bytes of a chunk that a view finds, and none where it finds no such chunk.
    fn chunk(&self, core: &Core, snap: &Snapshot, value: u64, number: u64) -> &[u8]
        requires kept { IsLook core.now.xacts snap.now }
        ensures { result.now ≡ bytes_or_none (found_at core.now.xacts snap.now self.now value number) }
    {
        match self.versions.find(core, &ChunkKey { value, number }, snap) {
            None => &[],
            Some(bytes) => bytes.items(),
        }
    }

    /// Takes away what no kept view needs. It takes no memory.
    pub fn vacuum(&mut self, core: &mut Core)
        requires goes { GoWith core.old.xacts self.old }
        ensures goes { GoWith core.old.xacts self.new }
        ensures core { core.new ≡ core.old }
        // Each kept view has the values that it had.
        ensures reads { (v : Snapshot) (value : ℕ) (bytes : List ℕ) → IsLook core.old.xacts v →
            HasValue core.old.xacts v self.old value bytes →
            HasValue core.old.xacts v self.new value bytes }
        // Of each chunk, what no kept view needs is gone, and what is left some kept view finds.
        ensures all { Vacuums core.old.xacts self.old self.new }
        ensures left { LeavesFound core.old.xacts self.old self.new }
    {
        self.versions.vacuum(core);
    }
}

/// Fills the front of `out` with the bytes of a chunk from an offset on, as many as there are and as fit.
fn fill(chunk: &[u8], offset: usize, out: &mut [u8]) -> usize
    ensures count { result ≡ length (slice_of offset (length out.old) chunk.now) }
    ensures bytes { out.new ≡ slice_of offset (length out.old) chunk.now ++ drop result out.old }
{
    let rest = chunk.get(offset..).unwrap_or(&[]);
    let count = rest.len().min(out.len());
    let (front, _behind) = out.split_at_mut(count);
    front.copy_from_slice(&rest[..count]);
    count
}
