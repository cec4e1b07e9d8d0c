// Programs: lines of one session, which have no marks. The columns of wrong lines are counted by hand.
use super::bad_line_of;
use crate::{BadLine, read_program};
use lo_base::{Request, SessionNo};
use std::test::Fail;

/// Lines with a comment, empty lines and a clean-up between. The last has no end.
const PROGRAM: &[u8] = b"begin
# A: commit
lo_create 17000

lo_get 17000\r
commit
\r
vacuumlo -n 7
step
finish
savepoint a";

/// Texts with the first line outside the grammar and the column in it.
const TEXTS: [(&[u8], u64, u64); 20] = [
    (b"A: begin", 1, 1),
    (b"begin\n\n# x\nA: commit\n", 4, 1),
    (b"commit\nB:\n", 2, 1),
    (b": begin\n", 1, 1),
    (b"begin\n begin\n", 2, 1),
    (b"begin \n", 1, 7),
    (b"begin now\n", 1, 7),
    (b"begin\r", 1, 1),
    (b"\r", 1, 1),
    (b"lo_get\n", 1, 7),
    (b"lo_get 5\nlo_get x\n", 2, 8),
    (b"rollback to\n", 1, 12),
    (b"vacuumlo", 1, 9),
    (b"step\n", 1, 1),
    (b"vacuumlo 0\nbegin\nfinish\n", 2, 1),
    (b"vacuumlo 0\nA: step\nfinish\n", 2, 1),
    (b"vacuumlo 0\nstep 1\n", 2, 6),
    (b"vacuumlo 0\nfinish\nfinish\n", 3, 1),
    (b"vacuumlo 0\nstep", 3, 1),
    (b"# x\n\nvacuumlo -n 5\n#\n", 5, 1),
];

fn are_of_program(lines: &[Request]) -> bool {
    matches!(
        lines,
        [
            Request::Begin,
            Request::LoCreate(17000),
            Request::LoGet(17000, 0, None),
            Request::Commit,
            Request::Vacuumlo(true, 7),
            Request::Step,
            Request::Finish,
            Request::Savepoint(_),
        ]
    )
}

#[test]
fn a_program_is_of_one_session(rt: HostRuntime) -> Result<(), Fail> {
    let script = read_program(rt.alloc(), PROGRAM)?;
    let a = SessionNo::new(1).ok_or("no session")?;
    assert!(rt; are_of_program(script.programs.lines(a)));
    assert_eq!(rt; script.order.items(), [a, a, a, a, a, a, a, a].as_slice());
    for number in 2..=16 {
        let other = SessionNo::new(number).ok_or("no session")?;
        assert!(rt; script.programs.lines(other).is_empty());
    }
    Ok(())
}

#[test]
fn a_program_may_have_no_lines(rt: HostRuntime) -> Result<(), Fail> {
    let a = SessionNo::new(1).ok_or("no session")?;
    let texts: [&[u8]; 3] = [b"", b"\n", b"# A: begin"];
    for text in texts.iter() {
        let script = read_program(rt.alloc(), text)?;
        assert!(rt; script.programs.lines(a).is_empty());
        assert!(rt; script.order.items().is_empty());
    }
    Ok(())
}

#[test]
fn wrong_programs_are_refused(rt: HostRuntime) {
    for (text, line, column) in TEXTS.iter() {
        let start = read_program(rt.alloc(), text)
            .err()
            .and_then(|e| bad_line_of(&e));
        assert_eq!(rt;
            start,
            Some(BadLine {
                line: *line,
                column: *column
            })
        );
    }
}
