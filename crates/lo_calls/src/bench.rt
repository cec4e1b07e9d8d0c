// A bench for the tests of calls: two sessions, each in a transaction, over real transactions and pages. A test is a list of
// acts, each with what is expected.
ghost use Rattle.std.specs.Prelude.{◌≡◌, ◌≤◌, ◌<◌, ◌^◌, length, []};
ghost use Rattle.xact_core.specs.Transactions.{Transactions, levels_of};
ghost use Rattle.lo_calls.specs.Descriptors.{holds_of, AreOpen};
ghost use Rattle.lo_calls.specs.Pair.{AreReady, LeavesReady};

use crate::descs::Descs;
use crate::session::LoSession;
use crate::store::LoStore;
use lo_base::{Bytes, Cause, Denied, Name, SessionNo};
use lo_pages::Pages;
use row_versions::Core;
use std::alloc::Global;
use std::process::Abort;
use xact_core::Xacts;

/// What a call answers.
#[derive(Clone, Copy)]
pub(crate) enum Answer {
    Number(i64),
    Content(&'static [u8]),
    Done,
    Refused(Cause, i64),
}

/// The transactions, what all sessions share, the session that acts, and another one.
#[derive(Drop)]
pub(crate) struct Bench {
    pub(crate) core: Core,
    pub(crate) store: LoStore,
    pub(crate) session: LoSession,
    pub(crate) other: LoSession,
}

fn is_denied(denied: &Denied, answer: Answer) -> bool {
    match (denied, answer) {
        (Denied::By(r), Answer::Refused(cause, subject)) => r.cause == cause
            && r.subject == subject,
        _ => false,
    }
}

pub(crate) fn is_number(answered: &Result<i64, Denied>, answer: Answer) -> bool {
    match (answered, answer) {
        (Ok(answered), Answer::Number(number)) => *answered == number,
        (Err(denied), _) => is_denied(denied, answer),
        _ => false,
    }
}

pub(crate) fn is_done(answered: &Result<(), Denied>, answer: Answer) -> bool {
    match (answered, answer) {
        (Ok(()), Answer::Done) => true,
        (Err(denied), _) => is_denied(denied, answer),
        _ => false,
    }
}

pub(crate) fn is_content(answered: &Result<Bytes, Denied>, answer: Answer) -> bool {
    match (answered, answer) {
        (Ok(bytes), Answer::Content(expected)) => bytes.items() == expected,
        (Err(denied), _) => is_denied(denied, answer),
        _ => false,
    }
}

fn session_of(rt: &impl Abort, alloc: Global, number: u8) -> LoSession
    ensures number { result.s ≡ number }
    ensures holds { holds_of result.descs ≡ [] }
    ensures open { (x : Transactions) → AreOpen x result.s result.descs }
{
    LoSession {
        descs: Descs::new(alloc).expect(rt, "memory"),
        s: SessionNo::new(number).expect(rt, "a session"),
    }
}

impl Bench {
    /// Sessions 1 and 2, each in a transaction, and no objects. Numbers are picked from one on.
    pub(crate) fn new(rt: &impl Abort, alloc: Global, counter: u64) -> Self
        requires counter { counter ≤ 4294967296 }
        ensures ready { AreReady result.core.xacts result.store result.session result.other }
        ensures undos { result.core.xacts.undos ≡ 0 }
    {
        let session = session_of(rt, alloc, 1);
        let other = session_of(rt, alloc, 2);
        let mut xacts = Xacts::new(alloc).expect(rt, "memory");
        assert_eq!(rt; xacts.levels(session.s), 0);
        assert!(rt; xacts.views() < 1000);
        xacts.begin(session.s).expect(rt, "memory");
        assert_eq!(rt; xacts.levels(other.s), 0);
        assert!(rt; xacts.views() < 1000);
        xacts.begin(other.s).expect(rt, "memory");
        Bench {
            core: Core { xacts },
            store: LoStore {
                pages: Pages::new(alloc).expect(rt, "memory"),
                counter,
            },
            session,
            other,
        }
    }

    /// Commits the session's transaction, and begins again.
    pub(crate) fn commit(&mut self, rt: &impl Abort)
        requires ready { AreReady self.old.core.xacts self.old.store self.old.session self.old.other }
        ensures { LeavesReady self.old.core.xacts self.new.core.xacts self.new.store
            self.new.session self.new.other }
    {
        self.session.descs.end_all(&mut self.core.xacts);
        self.core.xacts.commit(self.session.s);
        assert!(rt; self.core.xacts.views() < 1000);
        self.core.xacts.begin(self.session.s).expect(rt, "memory");
    }

    /// Undoes the session's transaction, and begins again.
    pub(crate) fn rollback(&mut self, rt: &impl Abort)
        requires ready { AreReady self.old.core.xacts self.old.store self.old.session self.old.other }
        ensures { LeavesReady self.old.core.xacts self.new.core.xacts self.new.store
            self.new.session self.new.other }
    {
        self.session.descs.end_all(&mut self.core.xacts);
        self.core.xacts.abort(self.session.s);
        assert!(rt; self.core.xacts.views() < 1000);
        self.core.xacts.begin(self.session.s).expect(rt, "memory");
    }

    /// Moves the clock one up.
    pub(crate) fn tick(&mut self, rt: &impl Abort)
        requires ready { AreReady self.old.core.xacts self.old.store self.old.session self.old.other }
        ensures { LeavesReady self.old.core.xacts self.new.core.xacts self.new.store
            self.new.session self.new.other }
    {
        assert!(rt; self.core.xacts.now() < 1000);
        self.core.xacts.tick();
    }

    /// Sets a savepoint: a level more.
    pub(crate) fn savepoint(&mut self, rt: &impl Abort, alloc: Global)
        requires ready { AreReady self.old.core.xacts self.old.store self.old.session self.old.other }
        ensures { LeavesReady self.old.core.xacts self.new.core.xacts self.new.store
            self.new.session self.new.other }
    {
        let name = Name::from_slice(alloc, b"s").expect(rt, "memory");
        assert!(rt; self.core.xacts.views() < 1000);
        self.core
            .xacts
            .push_level(self.session.s, name)
            .expect(rt, "memory");
    }

    /// Rolls back to the savepoint of a level, which stays.
    pub(crate) fn undo(&mut self, rt: &impl Abort, level: u64)
        requires ready { AreReady self.old.core.xacts self.old.store self.old.session self.old.other }
        requires few { self.old.core.xacts.undos < 2 ^ 63 }
        ensures { LeavesReady self.old.core.xacts self.new.core.xacts self.new.store
            self.new.session self.new.other }
    {
        let levels = self.core.xacts.levels(self.session.s);
        assert!(rt; level >= 1);
        assert!(rt; level <= levels);
        self.session.descs.undo_level(&mut self.core.xacts, level);
        self.core.xacts.undo_level(self.session.s, level);
    }

    /// Releases the savepoint of a level.
    pub(crate) fn release(&mut self, rt: &impl Abort, level: u64)
        requires ready { AreReady self.old.core.xacts self.old.store self.old.session self.old.other }
        ensures { LeavesReady self.old.core.xacts self.new.core.xacts self.new.store
            self.new.session self.new.other }
    {
        let levels = self.core.xacts.levels(self.session.s);
        assert!(rt; level >= 2);
        assert!(rt; level <= levels);
        self.session
            .descs
            .release_level(&mut self.core.xacts, level);
        self.core.xacts.release_level(self.session.s, level);
    }
}
