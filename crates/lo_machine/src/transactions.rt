// The requests of transaction blocks, and `vacuum`. (Manual, BEGIN, COMMIT, ROLLBACK, SAVEPOINT, RELEASE SAVEPOINT, ROLLBACK
// TO SAVEPOINT, VACUUM.)
ghost use Rattle.std.specs.Prelude.{◌≡◌, ◌<◌, ◌≤◌, ◌^◌, pos, length, IfOk, IfSome, OnErr};
ghost use Rattle.lo_model.specs.Transaction.{newest};
ghost use Rattle.lo_machine.specs.Server.{xacts_of, names_in, HasRows, IsServer, Does, Undone, HasRoom};
ghost use Rattle.lo_machine.specs.State.{refused};
ghost use Rattle.lo_machine.specs.Terms.{refusal};
ghost use Rattle.lo_base.specs.declared.refusal.Cause.TheVariants.{NoBlock, NoSavepoint};
ghost use Rattle.lo_machine.specs.Transactions.{no_level};
ghost use Rattle.lo_machine.specs.Step.{tried};

use crate::server::Server;
use lo_base::{Cause, Name, NoMemory, Refusal, Reply, Request, SessionNo, Word};

impl Server {
    pub(crate) fn begin(&mut self, s: SessionNo) -> Result<Reply, NoMemory>
        requires sound { IsServer self.old }
        requires room { HasRoom self.old }
        ensures sound { IsServer self.new }
        ensures ok { IfOk result (Does self.old self.new s (λ st. tried st s Request.Begin)) }
        ensures err { OnErr result (Undone self.old self.new) }
    {
        if !self.is_open(s) {
            let Ok(()) = self.open(s) else {
                return Err(NoMemory);
            };
        }
        Ok(Reply::Word(Word::Begin))
    }

    pub(crate) fn commit(&mut self, s: SessionNo) -> Reply
        requires sound { IsServer self.old }
        ensures sound { IsServer self.new }
        ensures does { Does self.old self.new s (λ st. tried st s Request.Commit) result }
    {
        if !self.is_open(s) {
            return Reply::Word(Word::Commit);
        }
        if self.is_failed(s) {
            self.end_aborted(s);
            return Reply::Word(Word::Rollback);
        }
        self.end_committed(s);
        Reply::Word(Word::Commit)
    }

    pub(crate) fn rollback(&mut self, s: SessionNo) -> Reply
        requires sound { IsServer self.old }
        ensures sound { IsServer self.new }
        ensures does { Does self.old self.new s (λ st. tried st s Request.Rollback) result }
    {
        if self.is_open(s) {
            self.end_aborted(s);
        }
        Reply::Word(Word::Rollback)
    }

    pub(crate) fn savepoint(&mut self, s: SessionNo, name: &Name) -> Result<Reply, NoMemory>
        requires sound { IsServer self.old }
        requires room { HasRoom self.old }
        ensures sound { IsServer self.new }
        ensures ok { IfOk result (Does self.old self.new s
            (λ st. tried st s (Request.Savepoint name.now))) }
        ensures err { OnErr result (Undone self.old self.new) }
    {
        if !self.is_open(s) {
            return Ok(self.refuse(s, Cause::NoBlock));
        }
        let Ok(name) = Name::from_slice(self.alloc, name.items()) else {
            return Err(NoMemory);
        };
        let Ok(()) = self.save(s, name) else {
            return Err(NoMemory);
        };
        Ok(Reply::Word(Word::Savepoint))
    }

    pub(crate) fn release(&mut self, s: SessionNo, name: &Name) -> Reply
        requires sound { IsServer self.old }
        requires room { HasRoom self.old }
        ensures sound { IsServer self.new }
        ensures does { Does self.old self.new s (λ st. tried st s (Request.Release name.now)) result }
    {
        let Some(level) = self.newest(s, name) else {
            return self.no_savepoint(s);
        };
        self.merge(s, level);
        Reply::Word(Word::Release)
    }

    pub(crate) fn rollback_to(&mut self, s: SessionNo, name: &Name) -> Reply
        requires sound { IsServer self.old }
        requires room { HasRoom self.old }
        ensures sound { IsServer self.new }
        ensures does { Does self.old self.new s (λ st. tried st s (Request.RollbackTo name.now)) result }
    {
        let Some(level) = self.newest(s, name) else {
            return self.no_savepoint(s);
        };
        self.undo(s, level, false);
        Reply::Word(Word::Rollback)
    }

    /// Takes away what no kept view needs.
    pub(crate) fn vacuum(&mut self, s: SessionNo) -> Reply
        requires sound { IsServer self.old }
        requires rows { HasRows self.old }
        requires room { HasRoom self.old }
        ensures sound { IsServer self.new }
        ensures does { Does self.old self.new s (λ st. tried st s Request.Vacuum) result }
    {
        if self.is_open(s) {
            return self.refuse(s, Cause::InBlock);
        }
        self.store.pages.vacuum(&mut self.core);
        self.tables.vacuum(&mut self.core);
        Reply::Word(Word::Vacuum)
    }

    /// The session's newest level with the name, counted from 1, which is never level 1.
    fn newest(&self, s: SessionNo, name: &Name) -> Option<u64>
        requires sound { IsServer self.now }
        ensures level { result ≡ newest name.now (names_in self.now s) }
        ensures low { IfSome result (λ level. 2 ≤ level) }
        ensures high { IfSome result (λ level. level ≤ length (names_in self.now s)) }
        ensures range { (1 ≤ s) × (s ≤ 16) }
    {
        // Numbers of sessions are from 1 to 16.
        let _ = s.number();
        self.core.xacts.newest(s, name)
    }

    /// The refusal of a savepoint that is not there.
    fn no_savepoint(&mut self, s: SessionNo) -> Reply
        requires sound { IsServer self.old }
        requires room { HasRoom self.old }
        ensures sound { IsServer self.new }
        ensures does { Does self.old self.new s (λ st. refused st s (no_level st s)) result }
    {
        let cause = if self.is_open(s) {
            Cause::NoSavepoint
        } else {
            Cause::NoBlock
        };
        self.refuse(s, cause)
    }

    /// A refusal that names no number.
    pub(crate) fn refuse(&mut self, s: SessionNo, cause: Cause) -> Reply
        requires sound { IsServer self.old }
        requires few { (xacts_of self.old).undos < 2 ^ 63 }
        ensures sound { IsServer self.new }
        ensures does { Does self.old self.new s (λ st. refused st s (refusal cause (pos 0))) result }
    {
        self.refuse_by(s, Refusal { cause, subject: 0 })
    }

    /// A refusal, which undoes the top level of the session's block and fails the block, if it has one.
    pub(crate) fn refuse_by(&mut self, s: SessionNo, refusal: Refusal) -> Reply
        requires sound { IsServer self.old }
        requires few { (xacts_of self.old).undos < 2 ^ 63 }
        ensures sound { IsServer self.new }
        ensures does { Does self.old self.new s (λ st. refused st s refusal) result }
    {
        // Numbers of sessions are from 1 to 16.
        let _ = s.number();
        let top = self.core.xacts.levels(s);
        if top > 0 {
            self.undo(s, top, true);
        }
        Reply::Refused(refusal)
    }
}
