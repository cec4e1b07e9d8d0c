// The transactions of all sessions: the calls that the crates above use. What a session's levels and fates are made of
// stands in `session` and `fate`, and no contract of these calls names it.
ghost use Rattle.std.specs.Prelude.{◌≡◌, ℕ, true, false, ◌<◌, ◌≤◌, ◌+◌, ◌-◌, ◌^◌, ◌∷◌, ◌++◌, [], Some, None, length, map, sum_by, take, All, slice_set, OnOk, OnErr, IfOk, Contains, IsPermutation, slice_get};
ghost use Rattle.xact_core.specs.Fate.{owner_after};
ghost use Rattle.xact_core.specs.Inside.{names_of, views_in, AreSessions};
ghost use Rattle.xact_core.specs.Kept.{view_at, viewer_of, sessions_views, TakesOut};
ghost use Rattle.xact_core.specs.Opened.{opened_at, IsOpened, IsReleased, IsOver, IsUndone};

use crate::fate::{End, Fate, turn};
use crate::session::Session;
use crate::snapshot::{Hold, Snapshot};
use crate::stamp::Stamp;
use lo_base::{Clock, Name, NoMemory, SESSIONS, SessionNo};
use lo_model::{Owner, Viewer};
use std::alloc::Global;
use std::marker::Model;

/// The transactions of all sessions.
///
/// `fates` has one entry for each level that was ever begun, which is never given back: stamps name it by its place. The
/// end of a level turns the entries of that level and of those above it, and an undoing leaves the session one of them. The
/// end of a transaction turns those that the session has open.
#[derive(Drop)]
pub struct Xacts {
    clock: Clock,
    undos: u64,
    sessions: Vec<Session>,
    fates: Vec<Fate>,
    held: Vec<Snapshot>,
}

impl Model for Xacts {
    ghost use Rattle.xact_core.specs.Transactions.{Transactions};

    ghost Value = { Transactions };

    ghost use Rattle.xact_core.specs.Inside.{seen_of, IsXacts};

    ghost view = { seen_of };

    ghost invariant = { IsXacts };
}

impl Xacts {
    ghost use Rattle.lo_model.specs.declared.owner.Owner.TheVariants.{Running};
    ghost use Rattle.xact_core.specs.Transactions.{beginning, levels_of, FindsNewest};
    ghost use Rattle.xact_core.specs.Stamp.{made_at, owner_of, IsIssued, HasOwners, RunsWithin, sees_stamp, SeesSame};
    ghost use Rattle.xact_core.specs.Ends.{Turns, same, release, undo, commit_at, Opens, Ends};
    ghost use Rattle.xact_core.specs.Kept.{current, current_committed, kept_views, HoldsOthers, LooksWhole, HoldsWholeViews};
    ghost use Rattle.xact_core.specs.Laws.{looks_as, before_release, before_undo, SeesAs, SparesOthers, ShowsFrom};
    ghost use Rattle.xact_core.specs.declared.snapshot.Snapshot.{Snapshot};
    ghost use Rattle.xact_core.specs.declared.stamp.Stamp.{Stamp};

    /// Transactions of `SESSIONS` sessions, of which none has one open, at clock 0.
    pub fn new(alloc: Global) -> Result<Xacts, NoMemory>
        ensures { IfOk result (λ x. x ≡ beginning) }
    {
        let mut sessions = Vec::with_capacity(alloc, SESSIONS as usize)?;
        for _number in 0..SESSIONS {
            sessions.push(Session::new(alloc))?;
        }
        Ok(Xacts {
            clock: 0,
            undos: 0,
            sessions,
            fates: Vec::new(alloc),
            held: Vec::new(alloc),
        })
    }

    /// Moves the clock one up, for the next request.
    pub fn tick(&mut self)
        requires { self.old.clock < 2 ^ 63 }
        ensures clock { self.new ≡ record self.old { clock = self.old.clock + 1 } }
        ensures owners { Turns same self.old self.new }
        ensures views { length (kept_views self.new) ≡ length (kept_views self.old) }
    {
        self.clock += 1;
    }

    /// The present clock: the number of `tick`s so far.
    pub fn now(&self) -> Clock
        ensures { result ≡ self.now.clock }
    {
        self.clock
    }

    /// Opens a transaction: its level 1, which has no name.
    pub fn begin(&mut self, s: SessionNo) -> Result<(), NoMemory>
        requires none { length (levels_of self.old s) ≡ 0 }
        requires views { length (kept_views self.old) < 2 ^ 64 - 4 }
        ensures ok { OnOk result (Opens s None self.old self.new) }
        ensures err { OnErr result (self.new ≡ self.old) }
    {
        self.open_level(s, None)
    }

    /// Adds a level above the session's levels, as a savepoint does.
    pub fn push_level(&mut self, s: SessionNo, name: Name) -> Result<(), NoMemory>
        requires some { 0 < length (levels_of self.old s) }
        requires views { length (kept_views self.old) < 2 ^ 64 - 4 }
        ensures ok { OnOk result (Opens s (Some name) self.old self.new) }
        ensures err { OnErr result (self.new ≡ self.old) }
    {
        self.open_level(s, Some(name))
    }

    fn open_level(&mut self, s: SessionNo, name: Option<Name>) -> Result<(), NoMemory>
        requires views { length (kept_views self.old) < 2 ^ 64 - 4 }
        ensures ok { OnOk result (Opens s name self.old self.new) }
        ensures err { OnErr result (self.new ≡ self.old) }
    {
        open_level(&mut self.sessions, &mut self.fates, s, name)?;
        Ok(())
    }

    /// The number of the session's levels: 0 outside a transaction.
    pub fn levels(&self, s: SessionNo) -> u64
        ensures count { result ≡ length (levels_of self.now s) }
        ensures sixteen { length self.now.levels ≡ 16 }
        // Each edit is a session's, at one of its levels, or a commit's. The session's own stand at one of these.
        ensures owners { HasOwners self.now }
        ensures stamps { RunsWithin self.now s result }
    {
        self.sessions[s.place()].levels() as u64
    }

    /// The session's newest level with the name, counted from 1.
    pub fn newest(&self, s: SessionNo, name: &Name) -> Option<u64>
        ensures { FindsNewest (levels_of self.now s) name.now result }
    {
        self.sessions[s.place()].newest(name)
    }

    /// Merges a level and all above it into the level below it. The level counts from 1.
    pub fn release_level(&mut self, s: SessionNo, level: u64)
        requires low { 2 ≤ level }
        requires high { level ≤ length (levels_of self.old s) }
        ensures ends { Ends (release s level) s (level - 1) self.old self.new }
        ensures undos { self.new.undos ≡ self.old.undos }

        // Each view has what another had before: the session's whole one what it had, and those of others too.
        ensures views { SeesAs (before_release s level) self.old self.new }
        ensures others { SparesOthers s self.old self.new }
    {
        release_from(&mut self.sessions, &mut self.fates, s, level);
    }

    /// Undoes a level and all above it, and leaves the level empty. The level counts from 1.
    pub fn undo_level(&mut self, s: SessionNo, level: u64)
        requires low { 1 ≤ level }
        requires high { level ≤ length (levels_of self.old s) }
        requires undos { self.old.undos < 2 ^ 63 }
        ensures ends { Ends (undo s level) s level self.old self.new }
        ensures undos { self.new.undos ≡ self.old.undos + 1 }

        // Each view has what another had before: the session's whole one what was below the level.
        ensures views { SeesAs (before_undo s level) self.old self.new }
        ensures others { SparesOthers s self.old self.new }
    {
        self.undos += 1;
        undo_from(&mut self.sessions, &mut self.fates, s, level, self.undos);
    }

    /// Commits the session's transaction at the present clock.
    pub fn commit(&mut self, s: SessionNo)
        requires { 0 < length (levels_of self.old s) }
        ensures ends { Ends (commit_at s self.old.clock) s 0 self.old self.new }
        ensures undos { self.new.undos ≡ self.old.undos }

        // Later views have all of the session's edits, and earlier ones none. No other edit comes or goes.
        ensures views { ShowsFrom s self.old.clock self.old self.new }
    {
        let end = End::Committed(s, self.clock);
        end_transaction(&mut self.sessions, &mut self.fates, s, &end);
    }

    /// Undoes the session's transaction, and ends it.
    pub fn abort(&mut self, s: SessionNo)
        requires { 0 < length (levels_of self.old s) }
        ensures ends { Ends (undo s 1) s 0 self.old self.new }
        ensures undos { self.new.undos ≡ self.old.undos }

        // Each view has what another had before: the session's whole one what was below level 1.
        ensures views { SeesAs (before_undo s 1) self.old self.new }
        ensures others { SparesOthers s self.old self.new }
    {
        let end = End::Undone(s, 1);
        end_transaction(&mut self.sessions, &mut self.fates, s, &end);
    }

    /// The stamp of an edit that the session makes now, at its top level.
    pub fn stamp(&self, s: SessionNo) -> Stamp
        requires { 0 < length (levels_of self.now s) }
        ensures clock { made_at result ≡ self.now.clock }
        ensures owner { owner_of self.now result ≡ Some (Running s (length (levels_of self.now s))) }
        ensures issued { IsIssued self.now result }

        // The session sees the edit at once, and no other sees it, nor does any view of this clock or before.
        ensures own { sees_stamp self.now (current self.now s) result ≡ true }
        ensures hidden { (v : Snapshot) → looks_as s v.viewer ≡ false → sees_stamp self.now v result ≡ false }
        ensures later { (v : Snapshot) → v.clock ≤ self.now.clock → sees_stamp self.now v result ≡ false }
    {
        let session = &self.sessions[s.place()];
        Stamp::new(self.clock, session.top(), self.undos)
    }

    /// The view that the session has now: what is committed, and its own open edits. The clock is one above the present
    /// one, so that a request sees its own edits.
    pub fn snapshot(&self, s: SessionNo) -> Snapshot
        ensures view { result ≡ current self.now s }
        ensures kept { 0 < length (levels_of self.now s) → Contains (kept_views self.now) result }
        // Without a transaction it has what the view of what is committed has.
        ensures none { levels_of self.now s ≡ [] → SeesSame self.now result (current_committed self.now) }
    {
        // Numbers of sessions begin at 1.
        let _ = s.number();
        Snapshot {
            clock: self.clock + 1,
            viewer: Viewer::Whole(s),
        }
    }

    /// The view of what is committed.
    pub fn committed(&self) -> Snapshot
        ensures view { result ≡ current_committed self.now }
        ensures kept { Contains (kept_views self.now) result }
    {
        Snapshot {
            clock: self.clock + 1,
            viewer: Viewer::Nobody,
        }
    }

    /// How many views are kept.
    pub fn views(&self) -> u64
        ensures { result ≡ length (kept_views self.now) }
    {
        1 + open_views(&self.sessions) + self.held.len() as u64
    }

    /// The kept view at a place, from 0.
    pub fn view(&self, k: u64) -> Snapshot
        requires { k < length (kept_views self.now) }
        ensures view { slice_get (kept_views self.now) k ≡ Some result }
        ensures kept { Contains (kept_views self.now) result }
    {
        let Some(place) = k.checked_sub(1) else {
            return self.committed();
        };
        match open_view(&self.sessions, self.clock + 1, place) {
            Some(view) => view,
            None => self.held[(place - open_views(&self.sessions)) as usize],
        }
    }

    /// Whether a view has the edit of a stamp, as owners now stand.
    pub fn sees(&self, snap: &Snapshot, stamp: Stamp) -> bool
        ensures { result ≡ sees_stamp self.now snap.now stamp }
    {
        match self.owner(stamp) {
            Some(owner) => snap.has(stamp.clock(), &owner),
            None => false,
        }
    }

    /// Whose the edit of a stamp is now: an open transaction's, at one of its levels, or a commit's. It is nobody's where
    /// the edit was undone.
    pub fn owner(&self, stamp: Stamp) -> Option<Owner>
        ensures { result ≡ owner_of self.now stamp }
    {
        let fate = self.fates.get(stamp.place())?;
        if stamp.undos() < fate.since {
            None
        } else {
            fate.owner
        }
    }

    /// Keeps a view, one of those that are kept now, until it is let go.
    pub fn hold(&mut self, snap: Snapshot) -> Result<Hold, NoMemory>
        requires kept { Contains (kept_views self.old) snap }
        requires views { length (kept_views self.old) < 2 ^ 64 - 4 }
        ensures view { IfOk result (λ h. h ≡ snap) }
        ensures ok { OnOk result (self.new ≡ record self.old { held = self.old.held ++ snap ∷ [] }) }
        ensures held { IfOk result (λ h. Contains self.new.held h) }
        ensures views { OnOk result (length (kept_views self.new) ≡ length (kept_views self.old) + 1) }
        ensures err { OnErr result (self.new ≡ self.old) }
        ensures owners { Turns same self.old self.new }
        ensures others { HoldsOthers self.old self.new }
        ensures whole { LooksWhole snap.viewer → HoldsWholeViews self.old → HoldsWholeViews self.new }
    {
        let hold = Hold::new(snap);
        self.held.push(hold.snapshot())?;
        Ok(hold)
    }

    /// Gives a hold back, which keeps its view no longer. It costs a search of the held views.
    pub fn let_go(&mut self, hold: Hold)
        requires { Contains self.old.held hold }
        ensures held { TakesOut hold self.old.held self.new.held }
        // Whichever of equal views it was.
        ensures order { IsPermutation self.old.held (hold ∷ self.new.held) }
        ensures views { length (kept_views self.new) + 1 ≡ length (kept_views self.old) }
        ensures owners { Turns same self.old self.new }
        ensures others { HoldsOthers self.old self.new }
        ensures whole { HoldsWholeViews self.old → HoldsWholeViews self.new }
    {
        take_out(&mut self.held, hold.snapshot());
    }
}

/// Takes a view out of those that are held, which has it.
fn take_out(held: &mut Vec<Snapshot>, view: Snapshot)
    requires { Contains held.old.items view }
    ensures { TakesOut view held.old.items held.new.items }
{
    let Some(place) = held.iter().position(|held| held.is_same(&view)) else {
        unreachable!()
    };
    held.remove(place);
}

/// Adds a level to a session, and the fate of what will be made in it.
fn open_level(
    sessions: &mut Vec<Session>,
    fates: &mut Vec<Fate>,
    s: SessionNo,
    name: Option<Name>,
) -> Result<(), NoMemory>
    requires { length sessions.old.items ≡ 16 }
    ensures ok { OnOk result (IsOpened s name sessions.old.items sessions.new.items fates.old.items fates.new.items) }
    ensures same_sessions { OnErr result (sessions.new.items ≡ sessions.old.items) }
    ensures same_fates { OnErr result (fates.new.items ≡ fates.old.items) }
{
    fates.reserve(1)?;
    let session = &mut sessions[s.place()];
    let level = session.levels() as u64 + 1;
    session.push(name, fates.len())?;
    fates.push_reserved(Fate {
        owner: Some(Owner::Running(s, level)),
        since: 0,
    });
    Ok(())
}

/// Merges a session's level and all above it into the level below it.
fn release_from(sessions: &mut Vec<Session>, fates: &mut Vec<Fate>, s: SessionNo, level: u64)
    requires well { AreSessions sessions.old.items fates.old.items }
    requires low { 2 ≤ level }
    requires high { level ≤ length (opened_at sessions.old.items (s - 1)).names }
    ensures { IsReleased s level sessions.old.items sessions.new.items fates.old.items fates.new.items }
{
    let session = &mut sessions[s.place()];
    turn(fates, session.places_from(level), &End::Released(s, level));
    session.release(level);
}

/// Undoes a session's level and all above it, and leaves the level empty. `undos` counts the undoings so far.
fn undo_from(
    sessions: &mut Vec<Session>,
    fates: &mut Vec<Fate>,
    s: SessionNo,
    level: u64,
    undos: u64,
)
    requires well { AreSessions sessions.old.items fates.old.items }
    requires low { 1 ≤ level }
    requires high { level ≤ length (opened_at sessions.old.items (s - 1)).names }
    ensures { IsUndone s level undos sessions.old.items sessions.new.items fates.old.items fates.new.items }
{
    let session = &mut sessions[s.place()];
    turn(fates, session.places_from(level), &End::Undone(s, level));
    fates[session.first(level)] = Fate {
        owner: Some(Owner::Running(s, level)),
        since: undos,
    };
    session.undo(level);
}

/// Ends a session's transaction.
fn end_transaction(sessions: &mut Vec<Session>, fates: &mut Vec<Fate>, s: SessionNo, end: &End)
    requires well { AreSessions sessions.old.items fates.old.items }
    ensures { IsOver (owner_after end.now) s sessions.old.items sessions.new.items fates.old.items fates.new.items }
{
    let session = &mut sessions[s.place()];
    turn(fates, session.places(), end);
    session.clear();
}

/// How many views of sessions with a transaction are kept.
fn open_views(sessions: &[Session]) -> u64
    requires { sum_by views_in sessions.now < 2 ^ 64 }
    ensures { result ≡ sum_by views_in sessions.now }
{
    let mut count = 0;
    for session in sessions {
        count += session.views() as u64;
    }
    count
}

/// The kept view at a place, from 0, of those of sessions with a transaction.
fn open_view(sessions: &[Session], clock: Clock, place: u64) -> Option<Snapshot>
    requires { length sessions.now ≤ 16 }
    ensures { result ≡ slice_get (sessions_views clock 1 (map names_of sessions.now)) place }
{
    let mut left = place;
    for (index, session) in sessions.iter().enumerate() {
        let views = session.views() as u64;
        if left < views {
            return Some(session_view(index, clock, left));
        }
        left -= views;
    }
    None
}

/// The view of a number, from 0, of those of the session at a place, from 0: first its whole one, then the one below each
/// of its levels.
fn session_view(index: usize, clock: Clock, number: u64) -> Snapshot
    requires { index < 16 }
    ensures { result ≡ view_at clock (viewer_of (index + 1) number) }
{
    let Some(s) = SessionNo::new(index as u8 + 1) else {
        unreachable!()
    };
    let viewer = match number {
        0 => Viewer::Whole(s),
        level => Viewer::Below(s, level),
    };
    Snapshot { clock, viewer }
}

#[cfg(test)]
mod tests;
