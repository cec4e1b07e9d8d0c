// What no clause says: that calls succeed where there is memory, and printed texts once more. The
// expected texts are typed from the grammar and the table of replies, never from what the program printed.
mod large_objects;
mod programs;
mod sweeps;
mod tables;
mod wrong_lines;
mod wrong_table_lines;

use crate::error::LineError;
use crate::token::Tokens;
use crate::{BadLine, ScriptError, read_script, reply_text};
use lo_base::{Bytes, Cause, Cell, Cells, Ids, Refusal, Reply, Request, SessionNo, Word};
use std::alloc::Global;
use std::process::Abort;
use std::test::Fail;

/// The line and the column that the error names.
fn bad_line_of(e: &ScriptError) -> Option<BadLine> {
    match e {
        ScriptError::Bad(start) => Some(*start),
        ScriptError::NoMemory => None,
    }
}

/// Requests of sessions 1, 2 and 16 in turn.
const TRANSACTIONS: &[u8] = b"A: begin
B: savepoint _a1
P: vacuum
A: rollback to to
B: release z_0
A: rollback
P: savepoint aaaaaaaaaaaaaaaaaaaaaaaaaaaaaaaaaaaaaaaaaaaaaaaaaaaaaaaaaaaaaaa
A: commit
B: lo_get 5
";

#[test]
fn each_session_has_its_program(rt: HostRuntime) -> Result<(), Fail> {
    let script = read_script(rt.alloc(), TRANSACTIONS)?;
    let a = SessionNo::new(1).ok_or("no session")?;
    let b = SessionNo::new(2).ok_or("no session")?;
    let o = SessionNo::new(15).ok_or("no session")?;
    let p = SessionNo::new(16).ok_or("no session")?;
    assert_eq!(rt;
        script.order.items(),
        [a, b, p, a, b, a, p, a, b].as_slice()
    );
    assert!(rt;
        matches!(script.programs.lines(a), [Request::Begin, Request::RollbackTo(name), Request::Rollback, Request::Commit] if name.items() == b"to".as_slice())
    );
    let [savepoint, release, get] = script.programs.lines(b) else {
        return Err(Fail::from("three lines were expected"));
    };
    assert!(rt; matches!(savepoint, Request::Savepoint(name) if name.items() == b"_a1".as_slice()));
    assert!(rt; matches!(release, Request::Release(name) if name.items() == b"z_0".as_slice()));
    assert!(rt; matches!(get, Request::LoGet(5, 0, None)));
    assert!(rt; script.programs.lines(o).is_empty());
    let long = [b'a'; 63];
    assert!(rt;
        matches!(script.programs.lines(p), [Request::Vacuum, Request::Savepoint(name)] if name.items() == long.as_slice())
    );
    Ok(())
}

#[test]
fn each_letter_is_a_session(rt: HostRuntime) -> Result<(), Fail> {
    for (n, letter) in (1..=16).zip(b"ABCDEFGHIJKLMNOP") {
        let s = SessionNo::new(n).ok_or("no session")?;
        let mark = [*letter, b':'];
        assert_eq!(rt; Tokens::of(&mark).next()?.session()?, s);
    }
    Ok(())
}

#[test]
fn bytes_have_a_limit(rt: HostRuntime) -> Result<(), Fail> {
    let token = Tokens::of(b"\\x4142").next()?;
    assert_eq!(rt; token.bytes(rt.alloc(), 2)?.items(), b"AB".as_slice());
    assert!(rt; matches!(token.bytes(rt.alloc(), 1).err(), Some(LineError::Bad(1))));
    Ok(())
}

fn expect_text(
    rt: &impl Abort,
    alloc: Global,
    n: u8,
    reply: &Reply,
    text: &str,
) -> Result<(), Fail> {
    let s = SessionNo::new(n).ok_or("no session")?;
    let mut out = Bytes::from_slice(alloc, b"> ")?;
    reply_text(s, reply, &mut out)?;
    assert_eq!(rt; out.items(), text.as_bytes());
    Ok(())
}

/// Each fixed word with a session and its printed line.
const WORDS: [(u8, Word, &str); 15] = [
    (1, Word::Ok, "> A: OK\n"),
    (2, Word::Begin, "> B: BEGIN\n"),
    (3, Word::Commit, "> C: COMMIT\n"),
    (4, Word::CreateTable, "> D: CREATE TABLE\n"),
    (5, Word::Insert, "> E: INSERT 1\n"),
    (6, Word::Update, "> F: UPDATE 1\n"),
    (7, Word::Delete, "> G: DELETE 1\n"),
    (8, Word::Declare, "> H: DECLARE\n"),
    (9, Word::Rollback, "> I: ROLLBACK\n"),
    (10, Word::Close, "> J: CLOSE\n"),
    (11, Word::Idle, "> K: IDLE\n"),
    (14, Word::Savepoint, "> N: SAVEPOINT\n"),
    (15, Word::Release, "> O: RELEASE\n"),
    (16, Word::Vacuum, "> P: VACUUM\n"),
    (16, Word::Ok, "> P: OK\n"),
];

/// Each word that stands with a number, a number, and the printed line of session 1.
const COUNTS: [(Word, u64, &str); 6] = [
    (Word::Listed, 12, "> A: LISTED 12\n"),
    (Word::Scanned, 3, "> A: SCANNED 3\n"),
    (Word::Removed, 2, "> A: REMOVED 2\n"),
    (Word::WouldRemove, 0, "> A: WOULD REMOVE 0\n"),
    (Word::Rewrite, 1000, "> A: REWRITE 1000\n"),
    (
        Word::Listed,
        18446744073709551615,
        "> A: LISTED 18446744073709551615\n",
    ),
];

#[test]
fn counts_are_printed(rt: HostRuntime) -> Result<(), Fail> {
    for (what, count, text) in COUNTS.iter() {
        let reply = Reply::Counted {
            what: *what,
            count: *count,
        };
        expect_text(&rt, rt.alloc(), 1, &reply, text)?;
    }
    let reply = Reply::Stopped {
        oid: 4294967295,
        removed: 12,
    };
    expect_text(&rt, rt.alloc(), 1, &reply, "> A: STOPPED 4294967295 12\n")
}

#[test]
fn rows_are_printed(rt: HostRuntime) -> Result<(), Fail> {
    let alloc = rt.alloc();
    let mut row = Cells::new(alloc);
    row.push(Cell::Int(-9223372036854775808))?;
    row.push(Cell::Null)?;
    row.push(Cell::Oid(17000))?;
    row.push(Cell::Inline(Bytes::from_slice(alloc, b"\x00\xab")?))?;
    row.push(Cell::Inline(Bytes::new(alloc)))?;
    row.push(Cell::Text(Bytes::from_slice(alloc, b"[0:1]={NULL,-3}")?))?;
    expect_text(
        &rt,
        alloc,
        2,
        &Reply::Row(row),
        "> B: ROW -9223372036854775808 null 17000 \\x00ab \\x [0:1]={NULL,-3}\n",
    )?;
    let ids = Ids::from_slice(alloc, &[-2, 0, 9223372036854775807])?;
    expect_text(
        &rt,
        alloc,
        2,
        &Reply::Ids(ids),
        "> B: IDS -2 0 9223372036854775807\n",
    )?;
    expect_text(&rt, alloc, 2, &Reply::Ids(Ids::new(alloc)), "> B: IDS\n")?;
    expect_text(&rt, alloc, 2, &Reply::Nothing, "> B: null\n")?;
    let text = Bytes::from_slice(alloc, b"{1,NULL}")?;
    expect_text(&rt, alloc, 2, &Reply::Text(text), "> B: {1,NULL}\n")
}

#[test]
fn words_are_printed(rt: HostRuntime) -> Result<(), Fail> {
    for (n, word, text) in WORDS.iter() {
        expect_text(&rt, rt.alloc(), *n, &Reply::Word(*word), text)?;
    }
    Ok(())
}

#[test]
fn replies_are_printed(rt: HostRuntime) -> Result<(), Fail> {
    let alloc = rt.alloc();
    let bytes = Bytes::from_slice(alloc, b"\x00\x00\x00A\xfe")?;
    let missing = Refusal {
        cause: Cause::NoObject,
        subject: 7,
    };
    let there = Refusal {
        cause: Cause::ObjectExists,
        subject: 4294967295,
    };
    expect_text(&rt, alloc, 1, &Reply::Number(17000), "> A: 17000\n")?;
    expect_text(&rt, alloc, 2, &Reply::Number(-1), "> B: -1\n")?;
    expect_text(
        &rt,
        alloc,
        1,
        &Reply::Content(bytes),
        "> A: \\x00000041fe\n",
    )?;
    expect_text(
        &rt,
        alloc,
        1,
        &Reply::Content(Bytes::new(alloc)),
        "> A: \\x\n",
    )?;
    expect_text(
        &rt,
        alloc,
        1,
        &Reply::Refused(missing),
        "> A: ERROR 42704: large object 7 does not exist\n",
    )?;
    expect_text(
        &rt,
        alloc,
        16,
        &Reply::Refused(there),
        "> P: ERROR 23505: large object 4294967295 already exists\n",
    )
}

#[test]
fn errors_are_printed(rt: HostRuntime) -> Result<(), Fail> {
    let bad = ScriptError::Bad(BadLine {
        line: 3,
        column: 14,
    });
    assert_eq!(rt; bad.to_string(rt.alloc())?.as_str(), "line 3 column 14");
    Ok(())
}
