// The requests of clean-ups: `vacuumlo`, and the acts that `step` and `finish` do. (Manual, vacuumlo.)
ghost use Rattle.std.specs.Prelude.{◌≡◌, true, Some, IfOk, OnErr};
ghost use Rattle.orphan_sweep.specs.declared.act.SweepAct.TheVariants.{Report, Idle};
ghost use Rattle.lo_base.specs.declared.request.Request.TheVariants.{Step, Vacuumlo};
ghost use Rattle.lo_machine.specs.Engine.{Does, IsEngine, IsSound, Undone, next_in};
ghost use Rattle.lo_machine.specs.Server.{HasRoom};
ghost use Rattle.lo_machine.specs.Step.{outcome};
ghost use Rattle.lo_machine.specs.Sweeping.{answer_of, is_scan, request_of};

use crate::cleanup::Cleanup;
use crate::engine::Engine;
use lo_base::{Cause, NoMemory, Reply, Request, SessionNo, Word};
use orphan_sweep::{SweepAct, Told};

impl Engine {
    /// Begins a clean-up: lists all objects and the columns that may name them.
    pub(crate) fn vacuumlo(
        &mut self,
        s: SessionNo,
        dry: bool,
        limit: u32,
    ) -> Result<Reply, NoMemory>
        requires sound { IsEngine self.old }
        requires room { HasRoom self.old.server }
        ensures sound { IsSound self.new }
        ensures ok { IfOk result (Does self.old self.new s (λ st. outcome st s (Vacuumlo dry limit))) }
        ensures err { OnErr result (Undone self.old self.new) }
    {
        // Numbers of sessions are from 1 to 16.
        let _ = s.number();
        if self.server.is_failed(s) {
            return Ok(self.server.refuse(s, Cause::Failed));
        }
        if self.server.is_open(s) {
            return Ok(self.server.refuse(s, Cause::InBlock));
        }
        let list = self.server.listed(s)?;
        let scans = self.server.scans()?;
        let count = list.items().len() as u64;
        self.cleanups[s.place()] = Cleanup::begin(dry, limit, list, scans);
        Ok(Reply::Counted {
            what: Word::Listed,
            count,
        })
    }

    /// Does the act that comes next. A failed block does not refuse it, since the clean-up's own rollback may be the act.
    pub(crate) fn do_act(&mut self, s: SessionNo) -> Result<Reply, NoMemory>
        requires sound { IsEngine self.old }
        requires room { HasRoom self.old.server }
        ensures sound { IsSound self.new }
        ensures ok { IfOk result (Does self.old self.new s (λ st. outcome st s Step)) }
        ensures err { OnErr result (Undone self.old self.new) }
    {
        match self.cleanups[s.place()].next() {
            SweepAct::Scan { .. } => self.scan(s),
            SweepAct::Begin => self.do_request(s, &Request::Begin),
            SweepAct::Unlink(oid) => {
                let request = Request::LoUnlink(*oid);
                self.do_request(s, &request)
            }
            SweepAct::Commit => self.do_request(s, &Request::Commit),
            SweepAct::Rollback => self.do_request(s, &Request::Rollback),
            SweepAct::Report => Ok(self.report(s)),
            SweepAct::Idle => Ok(self.idle(s)),
        }
    }

    /// Takes the numbers of a column off the list.
    fn scan(&mut self, s: SessionNo) -> Result<Reply, NoMemory>
        requires sound { IsEngine self.old }
        requires room { HasRoom self.old.server }
        requires scan { is_scan (next_in self.old s) ≡ true }
        ensures sound { IsSound self.new }
        ensures ok { IfOk result (Does self.old self.new s (λ st. outcome st s Step)) }
        ensures err { OnErr result (Undone self.old self.new) }
    {
        // Numbers of sessions are from 1 to 16.
        let _ = s.number();
        let place = s.place();
        let SweepAct::Scan { table, column } = self.cleanups[place].next() else {
            unreachable!()
        };
        let found = self.server.found(s, table, column)?;
        let own = &mut self.cleanups[place];
        own.tell(Told::Found(found));
        Ok(Reply::Counted {
            what: Word::Scanned,
            count: own.rest().len() as u64,
        })
    }

    /// Does an act that is a request of the session.
    fn do_request(&mut self, s: SessionNo, request: &Request) -> Result<Reply, NoMemory>
        requires sound { IsEngine self.old }
        requires room { HasRoom self.old.server }
        requires act { request_of (next_in self.old s) ≡ Some request.now }
        ensures sound { IsSound self.new }
        ensures ok { IfOk result (Does self.old self.new s (λ st. outcome st s Step)) }
        ensures err { OnErr result (Undone self.old self.new) }
    {
        // Numbers of sessions are from 1 to 16.
        let _ = s.number();
        let Ok(reply) = self.server.act(s, request) else {
            return Err(NoMemory);
        };
        self.cleanups[s.place()].tell(answer_of(&reply));
        Ok(reply)
    }

    /// Says what was removed.
    fn report(&mut self, s: SessionNo) -> Reply
        requires sound { IsEngine self.old }
        requires next { next_in self.old s ≡ Report }
        ensures sound { IsSound self.new }
        ensures does { Does self.old self.new s (λ st. outcome st s Step) result }
    {
        // Numbers of sessions are from 1 to 16.
        let _ = s.number();
        let own = &mut self.cleanups[s.place()];
        let reply = own.report();
        own.tell(Told::Granted);
        reply
    }

    /// There is no act, which a failed block refuses.
    fn idle(&mut self, s: SessionNo) -> Reply
        requires sound { IsEngine self.old }
        requires room { HasRoom self.old.server }
        requires next { next_in self.old s ≡ Idle }
        ensures sound { IsSound self.new }
        ensures does { Does self.old self.new s (λ st. outcome st s Step) result }
    {
        // Numbers of sessions are from 1 to 16.
        let _ = s.number();
        if self.server.is_failed(s) {
            return self.server.refuse(s, Cause::Failed);
        }
        Reply::Word(Word::Idle)
    }
}

/// What a clean-up is told of an act that was done as a request.
fn answer_of(reply: &Reply) -> Told
    ensures { result ≡ answer_of reply.now }
{
    match reply {
        Reply::Refused(_) => Told::Refused,
        _ => Told::Granted,
    }
}
