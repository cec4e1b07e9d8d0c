// The caller's side: the table is made, seats are dealt to workers, the workers run, and the caller does what they left.
ghost use Rattle.std.specs.Prelude.{◌≡◌, ◌≤◌, IfOk, OnOk, All, vec_len};
ghost use Rattle.std.specs.Vec.{vec_capacity};
ghost use Rattle.lo_machine.specs.Replay.{Replays};
ghost use Rattle.lo_turn.specs.Turns.{BeganAs, Proceeds, IsBoard, IsDone, AllDone, IsWholeRun, IsIdle, AreIdle, Owns, Deals};

use crate::hand::{Back, Board, Common, Cut, Place};
use crate::worker::{Worker, proceed, work};
use atomic_table::{Refused, Table};
use lo_base::{NoMemory, SESSIONS, SessionNo};
use lo_machine::Running;
use lo_outside::Gate;
use std::alloc::Global;
use std::marker::Sync;
use std::snapshot::Snapshot;
use std::thread;
use std::thread::Threads;

/// Runs what is left of the programs to its end, in a thread for each session that has a line left. Before each advance of a
/// thread the gate is called, with the session and the number of its line. What the threads leave, since a turn was not to
/// be had or memory was short, the caller does after them, by ascending session and past no gate.
pub fn run_threads<R: Threads + Sync, G: Gate + Sync>(
    rt: &R,
    alloc: Global,
    running: Running,
    gate: &G,
) -> Result<Running, NoMemory>
    ensures given { IfOk result (BeganAs running) }
    ensures done { IfOk result AllDone }
    ensures whole { IfOk result IsWholeRun }
    ensures replies { IfOk result Replays }
{
    let mut running = run_workers(rt, alloc, running, gate)?;
    for n in 1..SESSIONS + 1 {
        let Some(s) = SessionNo::new(n) else {
            unreachable!()
        };
        run_rest(&mut running, s)?;
    }
    Ok(told_whole(running))
}

/// The run itself. What its type keeps is told: with no line left its schedule is whole. No code runs.
fn told_whole(running: Running) -> Running
    requires { AllDone running }
    ensures same { result ≡ running }
    ensures whole { IsWholeRun running }
    ensures replies { Replays running }
{
    running
}

/// Does the lines that a session has left.
fn run_rest(running: &mut Running, s: SessionNo) -> Result<(), NoMemory>
    ensures proceeds { Proceeds running.old running.new }
    ensures done { OnOk result (IsDone running.new s) }
{
    for _advance in 0..u64::MAX {
        if running.is_done(s) {
            return Ok(());
        }
        proceed(running, s)?;
    }
    Err(NoMemory)
}

/// The run with what the workers did of it: all, or a part.
fn run_workers<R: Threads + Sync, G: Gate + Sync>(
    rt: &R,
    alloc: Global,
    running: Running,
    gate: &G,
) -> Result<Running, NoMemory>
    ensures { IfOk result (BeganAs running) }
{
    let mut workers = Vec::with_capacity(alloc, SESSIONS as usize)?;
    let first_lines = first_lines(&running);
    let mut slots = Vec::with_capacity(alloc, 1)?;
    let given = Snapshot::of(&running);
    slots.push_reserved(Some(running));
    let (table, mut seat): (Board, Place) = match Table::new(alloc, &[0], slots, &given) {
        Ok(made) => made,
        Err(Refused { slots: _ }) => return Err(NoMemory),
    };
    deal(&table.shared, &mut seat, &first_lines, &mut workers);
    drive(rt, &table.shared, workers.as_mut_slice(), gate);
    gather(&table.shared, &mut seat, workers);
    let mut closed = table.close_with(seat);
    let running = closed.take(0).unwrap();
    closed.free();
    Ok(running)
}

/// By session, the number of the line that is next, or 0 for none.
fn first_lines(running: &Running) -> [u64; 16] {
    let mut lines = [0; 16];
    for n in 1..SESSIONS + 1 {
        let Some(s) = SessionNo::new(n) else {
            unreachable!()
        };
        if !running.is_done(s) {
            lines[s.place()] = running.line(s);
        }
    }
    lines
}

/// Makes a worker for each session with a line left. The seat keeps the other sessions.
fn deal(common: &Common, seat: &mut Place, lines: &[u64; 16], workers: &mut Vec<Worker>)
    requires board { IsBoard common.now.table_id }
    requires table { seat.old.table_id ≡ common.now.table_id }
    requires seat { Deals common.now.key.value 1 0 seat.old.me }
    requires workers { (vec_len workers.old ≡ 0) × (16 ≤ vec_capacity workers.old) }
    ensures table { seat.new.table_id ≡ common.now.table_id }
    ensures seat { Owns common.now.key.value (vec_len workers.new) seat.new.me }
    ensures idle { AreIdle common.now.key.value common.now.table_id workers.new.items }
{
    for n in 1..SESSIONS + 1 {
        let Some(session) = SessionNo::new(n) else {
            unreachable!()
        };
        let theirs = common.split_seat::<Cut>(seat);
        let line = lines[session.place()];
        if line == 0 {
            common.join_seat::<Back>(seat, theirs);
        } else {
            workers.push_reserved(Worker {
                session,
                line,
                seat: theirs,
            });
        }
    }
}

/// Has the workers work, each in a thread where the system gives one.
fn drive<R: Threads + Sync, G: Gate + Sync>(
    rt: &R,
    common: &Common,
    workers: &mut [Worker],
    gate: &G,
)
    requires board { IsBoard common.now.table_id }
    requires idle { AreIdle common.now.key.value common.now.table_id workers.old }
    ensures idle { AreIdle common.now.key.value common.now.table_id workers.new }
{
    thread::for_each_mut(
        rt,
        workers,
        SESSIONS as usize,
        &|_place, worker: &mut Worker| work(common, worker, gate),
    );
}

/// Ends the workers, whose sessions come back to the seat.
fn gather(common: &Common, seat: &mut Place, mut workers: Vec<Worker>)
    requires board { IsBoard common.now.table_id }
    requires table { seat.old.table_id ≡ common.now.table_id }
    requires seat { Owns common.now.key.value (vec_len workers) seat.old.me }
    requires idle { AreIdle common.now.key.value common.now.table_id workers.items }
    ensures table { seat.new.table_id ≡ common.now.table_id }
    ensures seat { Owns common.now.key.value 0 seat.new.me }
{
    while let Some(worker) = workers.pop() {
        let Worker {
            session: _,
            line: _,
            seat: theirs,
        } = worker;
        common.join_seat::<Back>(seat, theirs);
    }
    workers.destroy_empty();
}
