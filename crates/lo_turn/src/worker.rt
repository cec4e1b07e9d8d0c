// What a session's thread does: a turn for each advance, till no line is left.
ghost use Rattle.std.specs.Prelude.{IfSome, IfNone};
ghost use Rattle.lo_machine.specs.Replay.{HasLine};
ghost use Rattle.lo_turn.specs.Turns.{BeganAs, Proceeds, IsBoard, IsIdle, Holds};

use crate::hand::{Common, Giving, Place, Try};
use lo_base::{NoMemory, SessionNo};
use lo_machine::Running;
use lo_outside::Gate;
use std::thread;

/// How often a worker tries for the turn of one advance. After that the caller does what is left of its session.
pub const MOST_TRIES: u32 = 100_000;

/// What a thread works with.
#[derive(Drop)]
pub struct Worker {
    pub session: SessionNo,
    /// The number of the line that its next advance is of, from 1.
    pub line: u64,
    pub seat: Place,
}

/// Advances the worker's session, passing the gate before each advance, until no line is left, a turn was not to be had,
/// or memory was short.
pub fn work<G: Gate>(common: &Common, worker: &mut Worker, gate: &G)
    requires board { IsBoard common.now.table_id }
    requires idle { IsIdle common.now.key.value common.now.table_id worker.old }
    ensures idle { IsIdle common.now.key.value common.now.table_id worker.new }
{
    for _advance in 0..u64::MAX {
        gate.before(worker.session, worker.line);
        if !work_once(common, worker) {
            return;
        }
    }
}

/// One turn, with an advance in it where a line is left. Answers whether to go on.
fn work_once(common: &Common, worker: &mut Worker) -> bool
    requires board { IsBoard common.now.table_id }
    requires idle { IsIdle common.now.key.value common.now.table_id worker.old }
    ensures idle { IsIdle common.now.key.value common.now.table_id worker.new }
{
    let Some(mut running) = take_turn(common, worker) else {
        return false;
    };
    let more = advance_if_left(&mut running, worker.session);
    worker.line = running.line(worker.session);
    give_turn(common, worker, running);
    more
}

/// One advance, where a line is left. Answers whether one is left after it; want of memory counts as none.
fn advance_if_left(running: &mut Running, s: SessionNo) -> bool
    ensures { Proceeds running.old running.new }
{
    if running.is_done(s) {
        return false;
    }
    proceed(running, s).is_ok() && !running.is_done(s)
}

/// One advance, in the words of this crate. After want of memory the run is as before.
pub fn proceed(running: &mut Running, s: SessionNo) -> Result<(), NoMemory>
    requires { HasLine running.old s }
    ensures { Proceeds running.old running.new }
{
    prove!(s.number() > 0);
    running.advance(s)
}

/// The run, out of the slot, as soon as the turn is free. A look before the swap leaves the word's cache line with the one
/// who has the turn.
fn take_turn(common: &Common, worker: &mut Worker) -> Option<Running>
    requires board { IsBoard common.now.table_id }
    requires idle { IsIdle common.now.key.value common.now.table_id worker.old }
    ensures run { IfSome result (BeganAs common.now.key.value) }
    ensures held { IfSome result (λ _.
        Holds common.now.key.value common.now.table_id worker.new) }
    ensures none { IfNone result (IsIdle common.now.key.value common.now.table_id worker.new) }
{
    for _tried in 0..MOST_TRIES {
        if common.peek(0) == 0 && common.swap::<Try>(&mut worker.seat, 0, 1) == 0 {
            return Some(common.exchange(&mut worker.seat, 0, None).unwrap());
        }
        thread::yield_now();
    }
    None
}

/// Puts the run into the slot, and then ends the turn.
fn give_turn(common: &Common, worker: &mut Worker, running: Running)
    requires board { IsBoard common.now.table_id }
    requires run { BeganAs common.now.key.value running }
    requires held { Holds common.now.key.value common.now.table_id worker.old }
    ensures idle { IsIdle common.now.key.value common.now.table_id worker.new }
{
    drop(common.exchange(&mut worker.seat, 0, Some(running)));
    common.store::<Giving>(&mut worker.seat, 0, 0);
}
