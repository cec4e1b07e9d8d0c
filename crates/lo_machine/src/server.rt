// The server: transactions, large objects, tables, and for each session its descriptors, its array variables and whether its
// block is failed; the cursors of all sessions stand with the tables. A request
// is done at the present clock, which moves on once it was done, so that a request that finds no memory leaves the clock too.
ghost use Rattle.std.specs.Prelude.{◌≡◌, ◌<◌, ◌^◌, ◌+◌, ℕ, true, IfOk, OnErr, IsTrue};
ghost use Rattle.lo_machine.specs.Fitting.{IsFit};
ghost use Rattle.lo_machine.specs.Server.{clock_of, HasRows, IsServer, StandsFor, Leaves, Does, Undone, HasRoom};
ghost use Rattle.lo_machine.specs.Served.{IsPlain};
ghost use Rattle.lo_machine.specs.State.{State, Outcome, state_with};
ghost use Rattle.lo_machine.specs.Step.{outcome, tried};
ghost use Rattle.lo_machine.specs.Sweeping.{is_act};
ghost use Rattle.lo_machine.specs.Transactions.{may_recover};
ghost use Rattle.lo_machine.specs.Well.{IsWell};

use crate::variables::Variables;
use lo_base::{Cause, NoMemory, Reply, Request, SessionNo};
use lo_calls::{LoSession, LoStore};
use row_tables::Tables;
use row_versions::Core;
use std::alloc::Global;

/// More undoings, and more kept views, than a memory has room for.
const MOST: u64 = 1 << 62;

/// What serves requests of sixteen sessions, one after another.
#[derive(Drop)]
pub struct Server {
    pub(crate) alloc: Global,
    pub(crate) core: Core,
    pub(crate) store: LoStore,
    /// The tables, and the cursors of all sessions.
    pub(crate) tables: Tables,
    /// The descriptors of each session, session 1 first.
    pub(crate) sessions: Vec<LoSession>,
    /// The array variables of each session, session 1 first.
    pub(crate) variables: Vec<Variables>,
    /// For each session whether its block is failed.
    pub(crate) failed: Vec<bool>,
    /// How many times a level was undone.
    pub(crate) undos: u64,
}

impl Server {
    /// The clock moves on once a request was done.
    pub(crate) fn tick(&mut self)
        requires sound { IsServer self.old }
        requires time { clock_of self.old < 2 ^ 62 }
        ensures sound { IsServer self.new }
        ensures rows { HasRows self.old → HasRows self.new }
        ensures time { clock_of self.new ≡ clock_of self.old + 1 }
        ensures stands { (st : State) (s : ℕ) (done : Outcome) → Leaves self.old st s done →
            IsWell (state_with st s done) → IsFit (state_with st s done) →
            StandsFor self.new (state_with st s done) }
    {
        self.core.xacts.tick();
    }

    /// Whether few levels were undone, and few views are kept.
    pub(crate) fn has_room(&self) -> bool
        requires sound { IsServer self.now }
        ensures { IsTrue result → HasRoom self.now }
    {
        self.undos < MOST && self.core.xacts.views() < MOST
    }

    /// Does a request, which a failed block refuses unless it may end the failure.
    pub(crate) fn outcome(&mut self, s: SessionNo, request: &Request) -> Result<Reply, NoMemory>
        requires sound { IsServer self.old }
        requires rows { HasRows self.old }
        requires plain { IsPlain request.now }
        requires room { HasRoom self.old }
        ensures sound { IsServer self.new }
        ensures ok { IfOk result (Does self.old self.new s (λ st. outcome st s request.now)) }
        ensures err { OnErr result (Undone self.old self.new) }
    {
        // Numbers of sessions are from 1 to 16.
        let _ = s.number();
        if self.is_failed(s) && !may_recover(request) {
            return Ok(self.refuse(s, Cause::Failed));
        }
        match request {
            Request::Begin => self.begin(s),
            Request::Commit => Ok(self.commit(s)),
            Request::Rollback => Ok(self.rollback(s)),
            Request::Savepoint(name) => self.savepoint(s, name),
            Request::Release(name) => Ok(self.release(s, name)),
            Request::RollbackTo(name) => Ok(self.rollback_to(s, name)),
            Request::Vacuum => Ok(self.vacuum(s)),
            _ => self.call(s, request),
        }
    }

    /// Does what an act of a clean-up is as a request of its session. A failed block does not refuse it.
    pub(crate) fn act(&mut self, s: SessionNo, request: &Request) -> Result<Reply, NoMemory>
        requires sound { IsServer self.old }
        requires rows { HasRows self.old }
        requires act { is_act request.now ≡ true }
        requires room { HasRoom self.old }
        ensures sound { IsServer self.new }
        ensures ok { IfOk result (Does self.old self.new s (λ st. tried st s request.now)) }
        ensures err { OnErr result (Undone self.old self.new) }
    {
        match request {
            Request::Begin => self.begin(s),
            Request::Commit => Ok(self.commit(s)),
            Request::Rollback => Ok(self.rollback(s)),
            Request::LoUnlink(_) => self.call(s, request),
            _ => unreachable!(),
        }
    }
}

/// Whether a request may end a block's failure.
fn may_recover(request: &Request) -> bool
    ensures { result ≡ may_recover request.now }
{
    matches!(
        request,
        Request::Commit | Request::Rollback | Request::RollbackTo(_)
    )
}
