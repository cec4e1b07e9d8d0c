// Clean-ups: their forms, which lines stand inside one, and a text that ends inside one.
use super::wrong_lines::{expect_bad, expect_table};
use crate::read_script;
use lo_base::{Request, SessionNo};
use std::test::Fail;

/// Clean-ups of three sessions, with lines of other sessions between theirs.
const SWEEPS: &[u8] = b"A: vacuumlo 0
B: begin
A: step
A: step
# between

B: vacuumlo -n 2147483647
A: finish
B: finish
B: commit
A: begin
A: vacuumlo -n 7\r
A: finish\r
P: vacuumlo 2147483647
P: step
P: finish";

/// Lines outside clean-ups, each with the column of the first token that is not allowed.
const LINES: &[u8] = b"04 A: step|
04 A: step 1|
04 A: step |
04 A: finish|
04 A: finish 1|
04 A: steps|
04 A: STEP|
04 A: Vacuumlo 5|
04 A: vacuumlos 5|
04 A: vacuum_lo 5|
04 A: lo_vacuum 5|
11 A: vacuum lo 5|
12 A: vacuumlo|
13 A: vacuumlo |
13 A: vacuumlo  5|
13 A: vacuumlo -x 5|
13 A: vacuumlo -N 5|
13 A: vacuumlo --n 5|
13 A: vacuumlo n 5|
13 A: vacuumlo -n5|
13 A: vacuumlo - 5|
13 A: vacuumlo -1|
13 A: vacuumlo -0|
13 A: vacuumlo +1|
13 A: vacuumlo 01|
13 A: vacuumlo 0x1|
13 A: vacuumlo x|
13 A: vacuumlo null|
13 A: vacuumlo 2147483648|
13 A: vacuumlo 4294967296|
13 A: vacuumlo 99999999999999999999|
15 A: vacuumlo 5 |
15 A: vacuumlo 5 6|
15 A: vacuumlo 5 -n|
15 A: vacuumlo -n|
16 A: vacuumlo -n |
16 A: vacuumlo -n -n 5|
16 A: vacuumlo -n -1|
16 A: vacuumlo -n 05|
16 A: vacuumlo -n x|
16 A: vacuumlo -n 2147483648|
18 A: vacuumlo -n 5 |
18 A: vacuumlo -n 5 6|";

/// Texts with the first line outside the grammar and the column in it.
const TEXTS: [(&[u8], u64, u64); 27] = [
    (b"A: vacuumlo 0", 2, 1),
    (b"A: vacuumlo 0\n", 2, 1),
    (b"A: vacuumlo 0\n\n", 3, 1),
    (b"A: vacuumlo -n 5\nA: step", 3, 1),
    (b"# x\n\nA: vacuumlo -n 5\nA: step\n#\n", 6, 1),
    (b"A: vacuumlo 0\nB: vacuumlo 1\nA: finish\n", 4, 1),
    (b"P: vacuumlo 0\nA: vacuumlo 1\nA: finish\n", 4, 1),
    (b"A: vacuumlo 0\nA: finish\nA: vacuumlo 0\n", 4, 1),
    (b"A: vacuumlo 0\nA: begin\nA: finish\n", 2, 4),
    (b"A: vacuumlo 0\nA: step\nA: commit\nA: finish\n", 3, 4),
    (b"A: vacuumlo 0\nA: vacuumlo 0\n", 2, 4),
    (b"A: vacuumlo 0\nA: lo_open x\n", 2, 4),
    (b"A: vacuumlo 0\nA: vacuumlo -x\n", 2, 4),
    (b"A: vacuumlo 0\nA: rows\n", 2, 4),
    (b"A: vacuumlo 0\nA:\n", 2, 3),
    (b"A: vacuumlo 0\nA: \n", 2, 4),
    (b"A: vacuumlo 0\nA: step 1\n", 2, 9),
    (b"A: vacuumlo 0\nA: step \n", 2, 9),
    (b"A: vacuumlo 0\nA: finish now\n", 2, 11),
    (b"A: vacuumlo 0\nA: step\r", 2, 4),
    (b"A: vacuumlo 0\nA: finish\nA: step\n", 3, 4),
    (b"A: vacuumlo 0\nA: finish\nA: finish\n", 3, 4),
    (b"A: vacuumlo 0\nB: step\nA: finish\n", 2, 4),
    (b"A: vacuumlo 0\nB: finish\nA: finish\n", 2, 4),
    (b"A: vacuumlo 0\nB: begin\nA: step\nB: step\n", 4, 4),
    (b"A: vacuumlo 0\nQ: step\n", 2, 1),
    (b"A: vacuumlo 0\nB: lo_open\n", 2, 11),
];

fn are_of_first(lines: &[Request]) -> bool {
    matches!(
        lines,
        [
            Request::Vacuumlo(false, 0),
            Request::Step,
            Request::Step,
            Request::Finish,
            Request::Begin,
            Request::Vacuumlo(true, 7),
            Request::Finish,
        ]
    )
}

fn are_of_second(lines: &[Request]) -> bool {
    matches!(
        lines,
        [
            Request::Begin,
            Request::Vacuumlo(true, 2147483647),
            Request::Finish,
            Request::Commit,
        ]
    )
}

fn are_of_last(lines: &[Request]) -> bool {
    matches!(
        lines,
        [
            Request::Vacuumlo(false, 2147483647),
            Request::Step,
            Request::Finish,
        ]
    )
}

#[test]
fn clean_ups_are_read(rt: HostRuntime) -> Result<(), Fail> {
    let script = read_script(rt.alloc(), SWEEPS)?;
    let a = SessionNo::new(1).ok_or("no session")?;
    let b = SessionNo::new(2).ok_or("no session")?;
    let p = SessionNo::new(16).ok_or("no session")?;
    assert!(rt; are_of_first(script.programs.lines(a)));
    assert!(rt; are_of_second(script.programs.lines(b)));
    assert!(rt; are_of_last(script.programs.lines(p)));
    assert_eq!(rt;
        script.order.items(),
        [a, b, a, a, b, a, b, b, a, a, a, p, p, p].as_slice()
    );
    Ok(())
}

#[test]
fn wrong_forms_of_clean_ups_are_refused(rt: HostRuntime) {
    expect_table(&rt, rt.alloc(), LINES, 43);
}

#[test]
fn lines_that_do_not_fit_a_clean_up_are_refused(rt: HostRuntime) {
    for (text, line, column) in TEXTS.iter() {
        expect_bad(&rt, rt.alloc(), text, *line, *column);
    }
}
