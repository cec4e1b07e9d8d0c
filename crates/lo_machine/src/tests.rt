// What no clause says: the calls of the engine and of a run with ample memory.
use crate::{Engine, Programs, Running};
use lo_base::{Bytes, Cause, ListOf, Refusal, Reply, Request, SessionNo, Word};
use lo_opening::Opening;
use std::test::Fail;

// Session 1 writes a byte behind a hole and reads it; session 2 asks for an object that is not there.
fn two_programs(
    alloc: std::alloc::Global,
    first: SessionNo,
    second: SessionNo,
) -> Result<Programs, Fail> {
    let mut programs = Programs::new(alloc)?;
    programs.push(first, Request::LoCreate(17000))?;
    programs.push(
        first,
        Request::LoPut(17000, 3, Bytes::from_slice(alloc, b"A")?),
    )?;
    programs.push(first, Request::LoGet(17000, 0, None))?;
    programs.push(second, Request::LoGet(17001, 0, None))?;
    Ok(programs)
}

#[test]
fn a_run_gives_each_session_its_replies(rt: HostRuntime) -> Result<(), Fail> {
    let first = SessionNo::new(1).ok_or("1")?;
    let second = SessionNo::new(2).ok_or("2")?;
    let programs = two_programs(rt.alloc(), first, second)?;
    let mut running = Running::start(rt.alloc(), Opening::empty(rt.alloc(), 65536), programs)?;
    for s in [first, second, first, first, second] {
        if !running.is_done(s) {
            running.advance(s)?;
        }
    }
    assert!(rt; running.is_done(first) && running.is_done(second));
    assert_eq!(rt; running.line(first), 4);
    let finished = running.finish()?;
    let refused = Refusal {
        cause: Cause::NoObject,
        subject: 17001,
    };
    let right = match finished.replies.items() {
        [
            (_, Reply::Number(17000)),
            (_, Reply::Refused(r)),
            (_, Reply::Word(Word::Ok)),
            (s, Reply::Content(bytes)),
        ] => { *r == refused && *s == first && bytes.items() == b"\0\0\0A".as_slice() }
        _ => false,
    };
    assert!(rt; right);
    assert_eq!(rt;
        finished.schedule.items(),
        [first, second, first, first].as_slice()
    );
    Ok(())
}

#[test]
fn a_program_is_taken_and_placed(rt: HostRuntime) -> Result<(), Fail> {
    let s = SessionNo::new(16).ok_or("16")?;
    let mut programs = Programs::new(rt.alloc())?;
    programs.push(s, Request::LoCreate(5))?;
    let lines = programs.take(s);
    assert_eq!(rt; lines.items().len(), 1);
    assert!(rt; programs.lines(s).is_empty());
    programs.place(s, ListOf::new(rt.alloc()));
    assert!(rt; programs.lines(s).is_empty());
    Ok(())
}

// One session's block, whose creation another session neither sees nor may repeat.
#[test]
fn an_engine_serves_two_sessions(rt: HostRuntime) -> Result<(), Fail> {
    let first = SessionNo::new(1).ok_or("1")?;
    let second = SessionNo::new(2).ok_or("2")?;
    let held = Refusal {
        cause: Cause::Busy,
        subject: 1,
    };
    let mut engine = Engine::start(rt.alloc(), &Opening::empty(rt.alloc(), 65536))?;
    let begun = engine.step(first, &Request::Begin)?;
    assert!(rt; matches!(begun, Reply::Word(Word::Begin)));
    let created = engine.step(first, &Request::LoCreate(5))?;
    assert!(rt; matches!(created, Reply::Number(5)));
    let refused = engine.step(second, &Request::LoCreate(5))?;
    assert!(rt; matches!(refused, Reply::Refused(r) if r == held));
    Ok(())
}

// The first session commits an object that a number was picked for, and leaves a block with a second one open.
fn committing_program(alloc: std::alloc::Global, s: SessionNo) -> Result<Programs, Fail> {
    let mut programs = Programs::new(alloc)?;
    programs.push(
        s,
        Request::LoFromBytea(0, Bytes::from_slice(alloc, b"abc")?),
    )?;
    programs.push(s, Request::Begin)?;
    programs.push(s, Request::LoCreate(17000))?;
    Ok(programs)
}

fn reading_program(alloc: std::alloc::Global, s: SessionNo) -> Result<Programs, Fail> {
    let mut programs = Programs::new(alloc)?;
    programs.push(s, Request::LoGet(16384, 0, None))?;
    programs.push(s, Request::LoGet(17000, 0, None))?;
    programs.push(s, Request::LoCreate(0))?;
    Ok(programs)
}

#[test]
fn a_run_begins_with_what_another_committed(rt: HostRuntime) -> Result<(), Fail> {
    let s = SessionNo::new(1).ok_or("1")?;
    let empty = Opening::empty(rt.alloc(), 65536);
    let mut running = Running::start(rt.alloc(), empty, committing_program(rt.alloc(), s)?)?;
    for _ in 0..3 {
        if !running.is_done(s) {
            running.advance(s)?;
        }
    }
    let saved = running.finish()?.opening;
    assert_eq!(rt;
        (saved.blocks, saved.counter, saved.objects.items().len()),
        (65536, 16385, 1)
    );
    let mut running = Running::start(rt.alloc(), saved, reading_program(rt.alloc(), s)?)?;
    for _ in 0..3 {
        if !running.is_done(s) {
            running.advance(s)?;
        }
    }
    let right = match running.finish()?.replies.items() {
        [
            (_, Reply::Content(bytes)),
            (_, Reply::Refused(r)),
            (_, Reply::Number(16385)),
        ] => { bytes.items() == b"abc".as_slice() && r.cause == Cause::NoObject }
        _ => false,
    };
    assert!(rt; right);
    Ok(())
}
