//! A folder in memory, for tests and for proofs that speak of files. Only `new` takes memory: every other call uses a place that
//! was made there.
ghost use Rattle.std.specs.Prelude.{◌≡◌, ◌-◌, ◌≤◌, ◌++◌, ◌↔◌, [], length, take, drop, min, true, false, IsTrue, IsErr, IsSome, IsNone, IfOk, OnOk, OnErr, All, vec_capacity};
ghost use Rattle.lo_outside.specs.Files.{size_of, bytes_of};
ghost use Rattle.lo_outside.specs.Faults.{HasCause};
ghost use Rattle.lo_outside.specs.Place.{HasRoom};
ghost use Rattle.lo_outside.specs.FaultPlan.{is_due};
ghost use Rattle.lo_outside.specs.MemFiles.{file_named, empty_folder, can_put, Sets, Puts, Moves, after_look, after_fault, with_plan};
ghost use Rattle.lo_outside.specs.MemFiles.{create_fails, append_fails, appended, sync_fails, rename_fails};

use crate::fault_plan::FaultPlan;
use crate::files::{Failed, Files};
use crate::place::{NAME_ROOM, Place, position_of};
use lo_base::NoMemory;
use std::alloc::Global;
use std::marker::Model;
use std::mem;

/// A folder in memory, whose calls fail as they are told to. It takes all its memory when it is made.
#[derive(Drop)]
pub struct MemFiles {
    files: Vec<Place>,
    free: Vec<Place>,
    room: usize,
    plan: FaultPlan,
}

impl Model for MemFiles {
    ghost use Rattle.std.specs.Prelude.{◌+◌, map, length};
    ghost use Rattle.lo_outside.specs.MemFiles.{MemFolder};
    ghost use Rattle.lo_outside.specs.Place.{named_of, IsRoomy};

    ghost Value = { MemFolder };

    ghost view = { λ m. record {
      files = map named_of m.files.items;
      places = length m.files.items + length m.free.items;
      room = m.room;
      plan = m.plan;
    } };

    ghost invariant = { λ m. IsRoomy m.room m.files m.free };
}

/// So many places of that room, none of which has a file.
fn free_places(alloc: Global, count: usize, room: usize) -> Result<Vec<Place>, NoMemory>
    ensures count { IfOk result (λ free. length free.items ≡ count) }
    ensures room { IfOk result (λ free. All (HasRoom room) free.items) }
    ensures capacity { IfOk result (λ free. count ≤ vec_capacity free) }
{
    let mut free = Vec::with_capacity(alloc, count)?;
    while free.len() < count {
        free.push_reserved(Place::new(alloc, room)?);
    }
    Ok(free)
}

impl MemFiles {
    /// An empty folder with places for `files` files, each with room for a name of 255 bytes and for `room` bytes.
    pub fn new(alloc: Global, files: u32, room: u64) -> Result<MemFiles, NoMemory>
        ensures { IfOk result (λ folder. folder ≡ empty_folder files room) }
    {
        let places = files as usize;
        let room = room as usize;
        Ok(MemFiles {
            files: Vec::with_capacity(alloc, places)?,
            free: free_places(alloc, places, room)?,
            room,
            plan: FaultPlan::new(alloc),
        })
    }

    /// Sets the bytes of the file of that name, which need not be there before. The file is not synced then.
    pub fn put(&mut self, name: &str, bytes: &[u8]) -> bool
        ensures fits { result ≡ can_put self.old name.now bytes.now }
        ensures put { IsTrue result → Puts self.old self.new name.now bytes.now }
        ensures kept { result ≡ false → self.new ≡ self.old }
    {
        if name.len() > NAME_ROOM || bytes.len() > self.room {
            return false;
        }
        if let Some(i) = position_of(&self.files, name.as_bytes()) {
            self.files[i].set_bytes(bytes);
            return true;
        }
        let Some(mut place) = self.free.pop() else {
            return false;
        };
        place.set_name(name.as_bytes());
        place.set_bytes(bytes);
        self.files.push_reserved(place);
        true
    }

    /// Whether there is a place for a file of that name, one that it has or a free one.
    fn has_place(&self, name: &str) -> bool
        ensures { result ≡ can_put self.now name.now [] }
    {
        name.len() <= NAME_ROOM
            && (position_of(&self.files, name.as_bytes()).is_some() || !self.free.is_empty())
    }

    /// Hands over the numbers of the calls of `Files` that are to fail, in place of those handed over before. The calls
    /// are counted from 1 from here on.
    pub fn fail(&mut self, calls: Vec<u64>)
        ensures { self.new ≡ with_plan calls.items self.old }
    {
        self.plan.hand_over(calls);
    }
}

impl Files for MemFiles {
    ghost use Rattle.std.specs.Prelude.{true};
    ghost use Rattle.lo_outside.specs.MemFiles.{file_named};

    ghost tells = { λ _. true };

    ghost folder = { λ m name. file_named name m.files };

    ghost faults = { λ m. m.plan.faults };

    fn size(&mut self, name: &str) -> Result<Option<u64>, Failed>
        ensures failed { IsErr result ↔ IsTrue (is_due self.old.plan) }
        ensures size { IfOk result (λ size. size ≡ size_of (file_named name.now self.old.files)) }
        ensures counted { self.new ≡ after_look self.old }
        ensures cause { HasCause self.old.plan.faults self.new.plan.faults result }
    {
        self.plan.answer(false)?;
        let Some(i) = position_of(&self.files, name.as_bytes()) else {
            return Ok(None);
        };
        Ok(Some(self.files[i].len() as u64))
    }

    fn read(&mut self, name: &str, at: u64, out: &mut [u8]) -> Result<usize, Failed>
        ensures failed { IsErr result ↔ IsTrue (is_due self.old.plan) }
        ensures count { IfOk result (λ n. n
            ≡ min (length out.old) (length (bytes_of (file_named name.now self.old.files)) - at)) }
        ensures filled { IfOk result (λ n.
            out.new ≡ take n (drop at (bytes_of (file_named name.now self.old.files)))
            ++ drop n out.old) }
        ensures counted { self.new ≡ after_look self.old }
        ensures cause { HasCause self.old.plan.faults self.new.plan.faults result }
    {
        self.plan.answer(false)?;
        let Some(i) = position_of(&self.files, name.as_bytes()) else {
            return Ok(0);
        };
        Ok(self.files[i].read(at, out))
    }

    fn create(&mut self, name: &str) -> Result<(), Failed>
        ensures failed { IsErr result ↔ IsTrue (create_fails name.now self.old) }
        ensures created { OnOk result (Puts (after_look self.old) self.new name.now []) }
        ensures kept { OnErr result (self.new ≡ after_fault self.old) }
        ensures cause { HasCause self.old.plan.faults self.new.plan.faults result }
    {
        let cannot = !self.has_place(name);
        self.plan.answer(cannot)?;
        let _ = self.put(name, b"");
        Ok(())
    }

    fn append(&mut self, name: &str, piece: &[u8]) -> Result<(), Failed>
        ensures failed { IsErr result ↔ IsTrue (append_fails name.now piece.now self.old) }
        ensures ok { OnOk result (Puts (after_look self.old) self.new
            name.now (appended name.now piece.now self.old)) }
        ensures err { OnErr result (IsSome (file_named name.now self.old.files) →
            Puts (after_fault self.old) self.new
            name.now (appended name.now piece.now self.old)) }
        ensures missing { IsNone (file_named name.now self.old.files) →
            self.new ≡ after_fault self.old }
        ensures cause { HasCause self.old.plan.faults self.new.plan.faults result }
    {
        let Some(i) = position_of(&self.files, name.as_bytes()) else {
            return self.plan.answer(true);
        };
        let free = self.files[i].free();
        if self.plan.answer(piece.len() > free).is_err() {
            let n = (piece.len() / 2).min(free);
            self.files[i].add(&piece[..n]);
            return Err(Failed);
        }
        self.files[i].add(piece);
        Ok(())
    }

    fn sync(&mut self, name: &str) -> Result<(), Failed>
        ensures failed { IsErr result ↔ IsTrue (sync_fails name.now self.old) }
        ensures synced { OnOk result (Sets (after_look self.old) self.new
            name.now (record { bytes = bytes_of (file_named name.now self.old.files); synced = true })) }
        ensures kept { OnErr result (self.new ≡ after_fault self.old) }
        ensures cause { HasCause self.old.plan.faults self.new.plan.faults result }
    {
        let Some(i) = position_of(&self.files, name.as_bytes()) else {
            return self.plan.answer(true);
        };
        self.plan.answer(false)?;
        self.files[i].sync();
        Ok(())
    }

    fn rename(&mut self, from: &str, to: &str) -> Result<(), Failed>
        ensures failed { IsErr result ↔ IsTrue (rename_fails from.now to.now self.old) }
        ensures moved { OnOk result (Moves (after_look self.old) self.new from.now to.now) }
        ensures kept { OnErr result (self.new ≡ after_fault self.old) }
        ensures cause { HasCause self.old.plan.faults self.new.plan.faults result }
    {
        let Some(i) = position_of(&self.files, from.as_bytes()) else {
            return self.plan.answer(true);
        };
        self.plan.answer(to.len() > NAME_ROOM)?;
        let mut place = self.files.remove(i);
        place.set_name(to.as_bytes());
        if let Some(j) = position_of(&self.files, to.as_bytes()) {
            let other = mem::replace(&mut self.files[j], place);
            self.free.push_reserved(other);
        } else {
            self.files.push_reserved(place);
        }
        Ok(())
    }
}
