// The levels of sessions, and the ends of their transactions. Each moves the transactions and the session's descriptors and
// cursors, and no page and no row.
ghost use Rattle.std.specs.Prelude.{◌≡◌, ◌<◌, ◌≤◌, ◌+◌, ◌-◌, ◌^◌, ◌∷◌, ◌++◌, [], Some, None, length, take, slice_index_or, true, false, OnOk, OnErr};
ghost use Rattle.lo_model.specs.Levels.{released, undone, aborted, committed};
ghost use Rattle.lo_model.specs.Session.{idle_session, session_released, session_undone};
ghost use Rattle.xact_core.specs.Kept.{kept_views};
ghost use Rattle.lo_machine.specs.Server.{xacts_of, clock_of, names_in, IsServer, Becomes, Loses};
ghost use Rattle.lo_machine.specs.Moves.{unturned, session_opened};

use crate::server::Server;
use lo_base::{Name, NoMemory, SessionNo};

impl Server {
    /// Whether the session has a transaction.
    pub(crate) fn is_open(&self, s: SessionNo) -> bool
        ensures open { result ≡ true → 0 < length (names_in self.now s) }
        ensures none { result ≡ false → names_in self.now s ≡ [] }
        ensures range { (1 ≤ s) × (s ≤ 16) }
    {
        // Numbers of sessions are from 1 to 16.
        let _ = s.number();
        self.core.xacts.levels(s) > 0
    }

    /// Whether the session's block is failed.
    pub(crate) fn is_failed(&self, s: SessionNo) -> bool
        requires sound { IsServer self.now }
        ensures { result ≡ slice_index_or self.now.failed.items (s - 1) false }
    {
        self.failed[s.place()]
    }

    /// Begins the session's transaction.
    pub(crate) fn open(&mut self, s: SessionNo) -> Result<(), NoMemory>
        requires sound { IsServer self.old }
        requires none { names_in self.old s ≡ [] }
        requires views { length (kept_views (xacts_of self.old)) < 2 ^ 64 - 4 }
        ensures sound { IsServer self.new }
        ensures ok { OnOk result (Becomes s (None ∷ []) unturned (session_opened None) self.old self.new) }
        ensures err { OnErr result (self.new ≡ self.old) }
    {
        // Numbers of sessions are from 1 to 16.
        let _ = s.number();
        let Ok(()) = self.core.xacts.begin(s) else {
            return Err(NoMemory);
        };
        Ok(())
    }

    /// Adds a level with a name above the session's levels.
    pub(crate) fn save(&mut self, s: SessionNo, name: Name) -> Result<(), NoMemory>
        requires sound { IsServer self.old }
        requires open { 0 < length (names_in self.old s) }
        requires views { length (kept_views (xacts_of self.old)) < 2 ^ 64 - 4 }
        ensures sound { IsServer self.new }
        ensures ok { OnOk result (Becomes s (names_in self.old s ++ Some name ∷ []) unturned
            (session_opened (Some name)) self.old self.new) }
        ensures err { OnErr result (self.new ≡ self.old) }
    {
        // Numbers of sessions are from 1 to 16.
        let _ = s.number();
        let Ok(()) = self.core.xacts.push_level(s, name) else {
            return Err(NoMemory);
        };
        Ok(())
    }

    /// Merges a level of the session and all above it into the level below it. The level counts from 1.
    pub(crate) fn merge(&mut self, s: SessionNo, level: u64)
        requires sound { IsServer self.old }
        requires low { 2 ≤ level }
        requires high { level ≤ length (names_in self.old s) }
        ensures sound { IsServer self.new }
        ensures becomes { Becomes s (take (level - 1) (names_in self.old s)) (released s level)
            (session_released level) self.old self.new }
    {
        // Numbers of sessions are from 1 to 16.
        let _ = s.number();
        self.sessions[s.place()]
            .descs
            .release_level(&mut self.core.xacts, level);
        self.tables.release_level(&mut self.core, s, level);
        self.core.xacts.release_level(s, level);
    }

    /// Undoes a level of the session and all above it, and leaves the level empty. The level counts from 1. The block is then
    /// failed, or not.
    pub(crate) fn undo(&mut self, s: SessionNo, level: u64, failed: bool)
        requires sound { IsServer self.old }
        requires low { 1 ≤ level }
        requires high { level ≤ length (names_in self.old s) }
        requires few { (xacts_of self.old).undos < 2 ^ 63 }
        ensures sound { IsServer self.new }
        ensures becomes { Becomes s (take level (names_in self.old s)) (undone s level)
            (session_undone level failed) self.old self.new }
        ensures loses { Loses s level self.old self.new }
    {
        // Numbers of sessions are from 1 to 16.
        let _ = s.number();
        self.sessions[s.place()]
            .descs
            .undo_level(&mut self.core.xacts, level);
        self.tables.undo_level(&mut self.core, s, level);
        self.core.xacts.undo_level(s, level);
        self.undos += 1;
        self.failed[s.place()] = failed;
    }

    /// Commits the session's transaction at the present clock, and closes its descriptors and cursors.
    pub(crate) fn end_committed(&mut self, s: SessionNo)
        requires sound { IsServer self.old }
        requires open { 0 < length (names_in self.old s) }
        ensures sound { IsServer self.new }
        ensures becomes { Becomes s [] (committed s (clock_of self.old)) (λ session. idle_session) self.old
            self.new }
    {
        // Numbers of sessions are from 1 to 16.
        let _ = s.number();
        self.sessions[s.place()].descs.end_all(&mut self.core.xacts);
        self.tables.undo_level(&mut self.core, s, 1);
        self.core.xacts.commit(s);
        self.failed[s.place()] = false;
    }

    /// Undoes the session's transaction, and closes its descriptors and cursors.
    pub(crate) fn end_aborted(&mut self, s: SessionNo)
        requires sound { IsServer self.old }
        requires open { 0 < length (names_in self.old s) }
        ensures sound { IsServer self.new }
        ensures becomes { Becomes s [] (aborted s) (λ session. idle_session) self.old self.new }
    {
        // Numbers of sessions are from 1 to 16.
        let _ = s.number();
        self.sessions[s.place()].descs.end_all(&mut self.core.xacts);
        self.tables.undo_level(&mut self.core, s, 1);
        self.core.xacts.abort(s);
        self.failed[s.place()] = false;
    }
}
