// The engine: what serves requests of sixteen sessions, one after another. The server does them; of a clean-up the engine asks
// which act comes next, has it done, and tells the clean-up what became of it.
ghost use Rattle.std.specs.Prelude.{◌≡◌, ◌≤◌, ◌<◌, ◌^◌, ◌-◌, ℕ, Some, IfOk, OnErr, length};
ghost use Rattle.lo_opening.specs.Meaning.{opening_of};
ghost use Rattle.orphan_sweep.specs.State.{next_of};
ghost use Rattle.lo_machine.specs.Committed.{committed_opening};
ghost use Rattle.lo_machine.specs.Engine.{AreOver, clock_of, Does, HasState, IsEngine, IsSound, Serves, StandsFor, Undone};
ghost use Rattle.lo_machine.specs.Run.{start_from};
ghost use Rattle.lo_machine.specs.Served.{IsServed};
ghost use Rattle.lo_machine.specs.Server.{HasRoom, HasRows};
ghost use Rattle.lo_machine.specs.State.{State};
ghost use Rattle.lo_machine.specs.Step.{outcome};
ghost use Rattle.lo_machine.specs.SweepRows.{act_of, rest_before_report, vacuumlo_granted};
ghost use Rattle.lo_machine.specs.Sweeping.{sweeps_of};

use crate::cleanup::Cleanup;
use crate::ranges::has_ranges;
use crate::server::Server;
use lo_base::{NoMemory, Oid, Reply, Request, SESSIONS, SessionNo};
use lo_opening::Opening;
use orphan_sweep::SweepAct;
use std::alloc::Global;

/// What serves requests of sixteen sessions, one after another.
#[derive(Drop)]
pub struct Engine {
    pub(crate) server: Server,
    /// The clean-up of each session, session 1 first.
    pub(crate) cleanups: Vec<Cleanup>,
}

impl Engine {
    /// An engine of an opening's database, before its first request. It costs what the opening holds.
    pub fn start(alloc: Global, opening: &Opening) -> Result<Engine, NoMemory>
        ensures sound { IfOk result IsEngine }
        ensures stands { IfOk result (λ engine.
            StandsFor engine (start_from (opening_of opening.now)).state) }
    {
        Ok(Engine {
            server: Server::start(alloc, opening)?,
            cleanups: no_cleanups(alloc)?,
        })
    }

    /// Does one request of a session: also one act of its clean-up is a request. Where it finds no memory, nothing was done.
    pub fn step(&mut self, s: SessionNo, request: &Request) -> Result<Reply, NoMemory>
        requires sound { IsEngine self.old }
        requires served { IsServed request.now }
        requires time { clock_of self.old < 2 ^ 62 }
        ensures sound { IsEngine self.new }
        ensures serves { Serves self.old self.new s request.now result }
    {
        has_ranges(request);
        if !self.server.has_room() {
            return Err(NoMemory);
        }
        let Ok(reply) = self.outcome(s, request) else {
            return Err(NoMemory);
        };
        self.server.tick();
        Ok(reply)
    }

    /// Does a request at the present clock.
    fn outcome(&mut self, s: SessionNo, request: &Request) -> Result<Reply, NoMemory>
        requires sound { IsEngine self.old }
        requires served { IsServed request.now }
        requires room { HasRoom self.old.server }
        ensures sound { IsSound self.new }
        ensures ok { IfOk result (Does self.old self.new s (λ st. outcome st s request.now)) }
        ensures err { OnErr result (Undone self.old self.new) }
    {
        match request {
            Request::Vacuumlo(dry, limit) => self.vacuumlo(s, *dry, *limit),
            Request::Step | Request::Finish => self.do_act(s),
            _ => self.server.outcome(s, request),
        }
    }

    /// The act of the session's clean-up that comes next. It is `Idle` where none is before its report.
    pub fn act(&self, s: SessionNo) -> &SweepAct
        requires sound { IsEngine self.now }
        ensures { (st : State) → StandsFor self.now st → result.now ≡ act_of st s }
    {
        // Numbers of sessions are from 1 to 16.
        let _ = s.number();
        self.cleanups[s.place()].next()
    }

    /// The list of the session's clean-up less what its scans found so far. It is empty where none is before its report.
    pub fn rest(&self, s: SessionNo) -> &[Oid]
        requires sound { IsEngine self.now }
        ensures { (st : State) → StandsFor self.now st →
            result.now ≡ rest_before_report (sweeps_of st s) }
    {
        // Numbers of sessions are from 1 to 16.
        let _ = s.number();
        self.cleanups[s.place()].rest_before_report()
    }

    /// The committed database of a pool of so many blocks. Transaction blocks that are open are not in it. It costs what the
    /// database holds. A database that no image has room for, of 2^32 blocks or more, is answered as want of memory.
    pub fn committed(&self, blocks: u32) -> Result<Opening, NoMemory>
        requires sound { IsEngine self.now }
        requires least { 1 ≤ blocks }
        requires most { blocks ≤ 262144 }
        ensures { IfOk result (λ opening. (st : State) → StandsFor self.now st →
            opening_of opening ≡ committed_opening blocks st) }
    {
        self.server.committed(blocks)
    }
}

/// Sixteen clean-ups that are over.
fn no_cleanups(alloc: Global) -> Result<Vec<Cleanup>, NoMemory>
    ensures { IfOk result (λ cleanups. AreOver cleanups.items) }
{
    let mut cleanups = Vec::with_capacity(alloc, SESSIONS as usize)?;
    for _session in 0..SESSIONS {
        cleanups.push(Cleanup::over(alloc))?;
    }
    Ok(cleanups)
}
