// What is committed, as plain data: what an image of the database holds.
ghost use Rattle.std.specs.Prelude.{◌≡◌, ◌≤◌, IfOk};
ghost use Rattle.lo_opening.specs.Meaning.{opening_of};
ghost use Rattle.lo_machine.specs.Committed.{committed_opening};
ghost use Rattle.lo_machine.specs.Server.{HasRows, HasState, IsServer, StandsFor};
ghost use Rattle.lo_machine.specs.State.{State};

use crate::server::Server;
use lo_base::NoMemory;
use lo_opening::Opening;
use lo_restore::{chunks_held, saved_objects, saved_tables};

impl Server {
    /// The committed database of a pool of so many blocks. Transaction blocks that are open are not in it. It costs what the
    /// database holds. A database that no image has room for, of 2^32 blocks or more, is answered as want of memory.
    pub fn committed(&self, blocks: u32) -> Result<Opening, NoMemory>
        requires sound { IsServer self.now }
        requires rows { HasRows self.now }
        requires stands { HasState self.now }
        requires least { 1 ≤ blocks }
        requires most { blocks ≤ 262144 }
        ensures { IfOk result (λ opening. (st : State) → StandsFor self.now st →
            opening_of opening ≡ committed_opening blocks st) }
    {
        let snap = self.core.xacts.committed();
        let tables = saved_tables(self.alloc, &self.tables, &self.core, &snap)?;
        let held = chunks_held(tables.items());
        let objects = saved_objects(self.alloc, &self.store.pages, &self.core, &snap, held)?;
        Ok(Opening {
            blocks,
            counter: self.store.counter,
            tables,
            objects,
        })
    }
}
