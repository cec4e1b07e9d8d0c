// What no clause says: that threads advance their sessions themselves, in an order that a gate forces, and that many
// sessions, none, and one with a clean-up come to their end.
ghost use Rattle.std.specs.Prelude.{◌≤◌};

use crate::run_threads;
use lo_base::{Reply, Request, SessionNo, Word};
use lo_machine::{Programs, Running};
use lo_opening::Opening;
use lo_outside::{Gate, OpenGate};
use std::alloc::Global;
use std::hint::spin_loop;
use std::sync::atomic::AtomicU64;
use std::sync::atomic::Ordering::SeqCst;
use std::test::Fail;

// The order that is forced.
const ORDER: [u8; 16] = [1, 2, 2, 1, 1, 1, 2, 1, 2, 2, 1, 2, 1, 2, 2, 1];

// A wait takes at most so many looks.
const MOST_LOOKS: u32 = 200_000_000;

// A gate for two workers. A call for one of the first eight lines passes when it is the next in the order and the call that
// passed last is followed by another of its session. Calls for the ninth line pass when both are there.
#[derive(Drop)]
struct OrderGate {
    // Two for each call that passed, less one until the session of the last is there again.
    progress: AtomicU64,
    // Calls for the ninth line.
    at_ninth: AtomicU64,
    // Not 0 once a wait took too long. Nobody waits then.
    ran_out: AtomicU64,
}

// Where in the order the session stands for the so-manieth time, or 16 for nowhere.
fn turn_of(session: u8, line: u64) -> u64
    ensures { result ≤ 16 }
{
    let mut left = line;
    for turn in 0..ORDER.len() {
        if ORDER[turn] == session {
            if left <= 1 {
                return turn as u64;
            }
            left -= 1;
        }
    }
    ORDER.len() as u64
}

impl OrderGate {
    fn new() -> OrderGate {
        OrderGate {
            progress: AtomicU64::new(1),
            at_ninth: AtomicU64::new(0),
            ran_out: AtomicU64::new(0),
        }
    }

    // Looks until the number is the one that is wanted.
    fn wait(&self, number: &AtomicU64, wanted: u64) {
        for _look in 0..MOST_LOOKS {
            if number.load(SeqCst) == wanted || self.ran_out.load(SeqCst) != 0 {
                return;
            }
            spin_loop();
        }
        self.ran_out.store(1, SeqCst);
    }
}

impl Gate for OrderGate {
    fn before(&self, session: SessionNo, line: u64) {
        let session = session.number();
        if line > 9 {
            return;
        }
        if line > 1 {
            self.progress
                .store(2 * turn_of(session, line - 1) + 3, SeqCst);
        }
        if line == 9 {
            self.at_ninth.fetch_add(1, SeqCst);
            self.wait(&self.at_ninth, 2);
            return;
        }
        let turn = turn_of(session, line);
        self.wait(&self.progress, 2 * turn + 1);
        self.progress.store(2 * turn + 2, SeqCst);
    }
}

fn session(n: u8) -> Result<SessionNo, Fail> {
    Ok(SessionNo::new(n).ok_or("a session")?)
}

// Each of the first so many sessions makes an object and reads it in its other lines.
fn readers(alloc: Global, sessions: u8, lines: u32) -> Result<Programs, Fail> {
    let mut programs = Programs::new(alloc)?;
    for n in 1..=sessions {
        let s = session(n)?;
        programs.push(s, Request::LoCreate(17000 + n as u32))?;
        for _line in 1..lines {
            programs.push(s, Request::LoGet(17000 + n as u32, 0, None))?;
        }
    }
    Ok(programs)
}

fn started(alloc: Global, programs: Programs) -> Result<Running, Fail> {
    Ok(Running::start(alloc, Opening::empty(alloc, 65536), programs)?)
}

#[test]
fn two_threads_keep_the_order_of_a_gate(rt: HostRuntime) -> Result<(), Fail> {
    let running = started(rt.alloc(), readers(rt.alloc(), 2, 9)?)?;
    let gate = OrderGate::new();
    let done = run_threads(&rt, rt.alloc(), running, &gate)?.finish()?;
    assert!(rt; gate.ran_out.load(SeqCst) == 0);
    assert_eq!(rt; done.schedule.items().len(), 18);
    for turn in 0..ORDER.len() {
        assert!(rt; done.schedule.items()[turn].number() == ORDER[turn]);
    }
    Ok(())
}

#[test]
fn sixteen_sessions_do_all_their_lines(rt: HostRuntime) -> Result<(), Fail> {
    let running = started(rt.alloc(), readers(rt.alloc(), 16, 50)?)?;
    let done = run_threads(&rt, rt.alloc(), running, &OpenGate)?;
    for n in 1..=16 {
        assert!(rt; done.is_done(session(n)?));
    }
    let done = done.finish()?;
    assert_eq!(rt; done.schedule.items().len(), 800);
    assert_eq!(rt; done.replies.items().len(), 800);
    Ok(())
}

#[test]
fn empty_programs_leave_nothing(rt: HostRuntime) -> Result<(), Fail> {
    let running = started(rt.alloc(), Programs::new(rt.alloc())?)?;
    let done = run_threads(&rt, rt.alloc(), running, &OpenGate)?.finish()?;
    assert!(rt; done.schedule.items().is_empty());
    assert!(rt; done.replies.items().is_empty());
    Ok(())
}

// Session 1 makes five objects and then cleans up, in groups of two, while session 2 makes objects. No column names any.
fn cleaner_and_maker(alloc: Global) -> Result<Programs, Fail> {
    let mut programs = Programs::new(alloc)?;
    for n in 0..5 {
        programs.push(session(1)?, Request::LoCreate(16995 + n))?;
    }
    programs.push(session(1)?, Request::Vacuumlo(false, 2))?;
    programs.push(session(1)?, Request::Finish)?;
    for n in 0..40 {
        programs.push(session(2)?, Request::LoCreate(17000 + n))?;
    }
    Ok(programs)
}

#[test]
fn a_clean_up_removes_what_it_listed(rt: HostRuntime) -> Result<(), Fail> {
    let running = started(rt.alloc(), cleaner_and_maker(rt.alloc())?)?;
    let done = run_threads(&rt, rt.alloc(), running, &OpenGate)?.finish()?;
    let mut listed = None;
    let mut removed = None;
    for (_session, reply) in done.replies.items() {
        match reply {
            Reply::Counted {
                what: Word::Listed,
                count,
            } => listed = Some(*count),
            Reply::Counted {
                what: Word::Removed,
                count,
            } => removed = Some(*count),
            _ => {}
        }
    }
    let left = done.opening.objects.items().len() as u64;
    assert!(rt; listed == removed && removed == 45u64.checked_sub(left));
    assert!(rt; left <= 40);
    Ok(())
}
