//! A run in which a growth may be refused: whatever found no memory is done again, and every reply is the expected one. Each
//! growth is refused in turn outside the gate, by `rt try --test --fail-alloc N`.
use lo_base::{Bytes, NoMemory, Reply, SessionNo};
use lo_machine::{Running, Schedule};
use lo_opening::Opening;
use lo_script::{read_script, reply_text};
use std::alloc::Global;
use std::test::Fail;

/// Positions up to the largest size, and a refused write; a vacuum beside savepoints; then forty requests of three sessions.
const SCRIPT: &str = "A: begin
A: lo_create 17000
A: lo_open 17000 393216
A: lo_lseek 0 10240 0
A: lo_write 0 \\x58
A: lo_lseek 0 0 2
A: lo_lseek 0 2047 0
A: lo_read 0 3
A: lo_lseek64 0 4398046509055 0
A: lo_write 0 \\x59
A: lo_write 0 \\x5a
A: commit
A: lo_from_bytea 17000 \\x6f6e65
A: begin
A: lo_put 17000 0 \\x74776f
A: savepoint s
A: lo_put 17000 0 \\x736978
B: vacuum
A: rollback to s
A: lo_get 17000
A: rollback
A: lo_get 17000
C: lo_from_bytea 18000 \\x6161
C: begin
C: lo_open 18000 393216
C: lo_open 18000 262144
C: savepoint one
C: lo_write 0 \\x62
D: lo_get 18000
C: lo_get 18000
C: lo_read 1 2
C: lo_truncate 0 1
C: lo_get 18000
C: release one
C: savepoint two
C: lo_put 18000 4096 \\x63
C: lo_lseek 0 0 2
C: lo_tell 0
C: rollback to two
C: lo_lseek 0 0 2
D: vacuum
C: lo_unlink 18000
C: lo_create 18000
C: lo_from_bytea 0 \\x6464
C: lo_get 16384
C: commit
D: lo_get 18000
D: lo_creat 0
E: begin
E: lo_create 19000
E: lo_put 19000 0 \\x41
D: lo_put 19000 0 \\x42
E: savepoint s
E: lo_put 19000 0 \\x43
E: lo_get 19000
E: rollback to s
E: lo_get 19000
E: lo_close 0
E: rollback
E: lo_get 19000
D: lo_unlink 16385
D: vacuum
";

const PRINTED: &str = "A: BEGIN
A: 17000
A: 0
A: 10240
A: 1
A: 10241
A: 2047
A: \\x000000
A: 4398046509055
A: 1
A: ERROR 22023: invalid large object write request size: 1
A: ROLLBACK
A: 17000
A: BEGIN
A: OK
A: SAVEPOINT
A: OK
B: VACUUM
A: ROLLBACK
A: \\x74776f
A: ROLLBACK
A: \\x6f6e65
C: 18000
C: BEGIN
C: 0
C: 1
C: SAVEPOINT
C: 1
D: \\x6161
C: \\x6261
C: \\x6161
C: 0
C: \\x62
C: RELEASE
C: SAVEPOINT
C: OK
C: 4097
C: 4097
C: ROLLBACK
C: 1
D: VACUUM
C: 1
C: 18000
C: 16384
C: \\x6464
C: COMMIT
D: \\x
D: 16385
E: BEGIN
E: 19000
E: OK
D: ERROR 42704: large object 19000 does not exist
E: SAVEPOINT
E: OK
E: \\x43
E: ROLLBACK
E: \\x41
E: ERROR 42704: invalid large-object descriptor: 0
E: ROLLBACK
E: ERROR 42704: large object 19000 does not exist
D: 1
D: VACUUM
";

/// The script before its first advance, with its order.
fn start(alloc: Global) -> Option<(Running, Schedule)> {
    let script = read_script(alloc, SCRIPT.as_bytes()).ok()?;
    let empty = Opening::empty(alloc, 65536);
    let running = Running::start(alloc, empty, script.programs).ok()?;
    Some((running, script.order))
}

/// The session's next line, which is done again where there was no memory.
fn advance(running: &mut Running, s: SessionNo) {
    for _ in 0..2 {
        if running.is_done(s) {
            return;
        }
        if running.advance(s).is_ok() {
            return;
        }
    }
}

fn lines(alloc: Global, replies: &[(SessionNo, Reply)]) -> Result<Bytes, NoMemory> {
    let mut text = Bytes::new(alloc);
    for (s, reply) in replies {
        reply_text(*s, reply, &mut text)?;
    }
    Ok(text)
}

#[test]
fn a_refused_growth_changes_no_reply(rt: HostRuntime) -> Result<(), Fail> {
    let alloc = rt.alloc();
    let first = start(alloc);
    let begun = if first.is_some() { first } else { start(alloc) };
    let (mut running, order) = begun.ok_or("no memory twice")?;
    for s in order.items() {
        advance(&mut running, *s);
    }
    let finished = running.finish()?;
    let printed = match lines(alloc, finished.replies.items()) {
        Ok(text) => text,
        Err(NoMemory) => lines(alloc, finished.replies.items())?,
    };
    assert_eq!(rt; printed.items(), PRINTED.as_bytes());
    Ok(())
}
