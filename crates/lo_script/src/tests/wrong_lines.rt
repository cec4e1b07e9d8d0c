// The tables of wrong lines: each with the column of the first token that is not allowed, as the grammar gives it. A row of a table
// is that column in two digits, a space, the line, and a bar.
use super::bad_line_of;
use crate::{BadLine, read_script};
use std::alloc::Global;
use std::process::Abort;

/// Marks and words.
const MARKS: &[u8] = b"01 begin|
01 a: lo_get 1|
01 A lo_get 1|
01 A:lo_get 1|
01  A: lo_get 1|
01  |
01  # x|
01 Q: begin|
01 @: begin|
01 p: begin|
01 1: begin|
01 AA: begin|
01 PA: begin|
01 : begin|
01 P; begin|
01 B begin|
01 P:begin|
03 A:|
03 P:|
04 A: |
04 A:  lo_get 1|
04 A: LO_GET 1|
04 A: lo_|
04 A: lo_creates 1|
04 A: lo_lseek32 0 0 0|
04 A: lo_truncate6 0 0|
04 A: lo_export 1|
04 A: lo_begin|
04 A: lo_from_bytes 5 \\x41|
04 A: created 1|
04 A: lo_create\t1|
04 A: # x|
04 B: BEGIN|
04 B: begins|
04 B: comit|
04 C: roll back|
04 C: rollbackto s|
04 C: Rollback|
04 D: savepoints s|
04 D: save point s|
04 E: releas s|
04 P: vacuum;|
04 P: abort|
04 P: to s|";

/// Forms of transactions.
const TRANSACTIONS: &[u8] = b"10 A: begin x|
10 A: begin |
10 A: begin  x|
10 A: begin repeatable read|
11 B: commit x|
11 B: commit |
11 B: commit and chain|
11 P: vacuum t|
11 P: vacuum |
11 P: vacuum full|
13 A: rollback x|
13 A: rollback |
13 A: rollback TO s|
13 A: rollback too s|
13 A: rollback t s|
13 A: rollback s|
13 A: rollback  to s|
13 A: rollback savepoint s|
15 A: rollback to|
16 A: rollback to |
16 A: rollback to  s|
16 A: rollback to S|
16 A: rollback to 1s|
18 A: rollback to s |
18 A: rollback to s t|
26 A: rollback to savepoint s|
13 A: savepoint|
14 A: savepoint |
14 A: savepoint  s|
14 A: savepoint S|
14 A: savepoint sT|
14 A: savepoint 1|
14 A: savepoint s-t|
14 A: savepoint s.t|
14 A: savepoint \ts|
14 A: savepoint \xc3\xa9|
16 A: savepoint s |
16 A: savepoint s t|
14 A: savepoint aaaaaaaaaaaaaaaaaaaaaaaaaaaaaaaaaaaaaaaaaaaaaaaaaaaaaaaaaaaaaaaa|
11 O: release|
12 O: release |
12 O: release  s|
12 O: release R|
12 O: release 2|
12 O: release `a|
12 O: release a{|
14 O: release s |
14 O: release s t|
22 O: release savepoint s|";

/// Forms that begin with the number of a large object, and `lo_creat`.
const OBJECTS: &[u8] = b"12 A: lo_creat|
13 A: lo_creat |
13 A: lo_creat -2147483649|
13 A: lo_creat 2147483648|
13 A: lo_creat -0|
13 A: lo_creat 01|
13 A: lo_creat +1|
15 A: lo_creat 1 1|
13 A: lo_create|
14 A: lo_create |
14 A: lo_create -1|
14 A: lo_create 4294967296|
14 A: lo_create -0|
14 A: lo_create 01|
14 A: lo_create +1|
16 A: lo_create 5 1|
11 A: lo_open|
12 A: lo_open |
13 A: lo_open 5|
12 A: lo_open -1 262144|
12 A: lo_open 4294967296 262144|
12 A: lo_open -0 262144|
12 A: lo_open 01 262144|
12 A: lo_open +1 262144|
14 A: lo_open 5 -2147483649|
14 A: lo_open 5 2147483648|
14 A: lo_open 5 -0|
14 A: lo_open 5 01|
14 A: lo_open 5 +1|
21 A: lo_open 5 262144 1|
13 A: lo_unlink|
14 A: lo_unlink |
14 A: lo_unlink -1|
14 A: lo_unlink 4294967296|
14 A: lo_unlink -0|
14 A: lo_unlink 01|
14 A: lo_unlink +1|
16 A: lo_unlink 5 1|
10 A: lo_get|
11 A: lo_get |
14 A: lo_get 5 3|
11 A: lo_get -1 3 2|
11 A: lo_get 4294967296 3 2|
11 A: lo_get -0 3 2|
11 A: lo_get 01 3 2|
11 A: lo_get +1 3 2|
13 A: lo_get 5 -9223372036854775809 2|
13 A: lo_get 5 9223372036854775808 2|
13 A: lo_get 5 -0 2|
13 A: lo_get 5 01 2|
13 A: lo_get 5 +1 2|
15 A: lo_get 5 3 -2147483649|
15 A: lo_get 5 3 2147483648|
15 A: lo_get 5 3 -0|
15 A: lo_get 5 3 01|
15 A: lo_get 5 3 +1|
17 A: lo_get 5 3 2 1|
10 A: lo_put|
11 A: lo_put |
12 A: lo_put 5|
14 A: lo_put 5 3|
11 A: lo_put -1 3 \\x41|
11 A: lo_put 4294967296 3 \\x41|
11 A: lo_put -0 3 \\x41|
11 A: lo_put 01 3 \\x41|
11 A: lo_put +1 3 \\x41|
13 A: lo_put 5 -9223372036854775809 \\x41|
13 A: lo_put 5 9223372036854775808 \\x41|
13 A: lo_put 5 -0 \\x41|
13 A: lo_put 5 01 \\x41|
13 A: lo_put 5 +1 \\x41|
15 A: lo_put 5 3 41|
15 A: lo_put 5 3 \\|
15 A: lo_put 5 3 \\x4|
15 A: lo_put 5 3 \\x4g|
15 A: lo_put 5 3 \\X41|
20 A: lo_put 5 3 \\x41 1|
17 A: lo_from_bytea|
18 A: lo_from_bytea |
19 A: lo_from_bytea 5|
18 A: lo_from_bytea -1 \\x41|
18 A: lo_from_bytea 4294967296 \\x41|
18 A: lo_from_bytea -0 \\x41|
18 A: lo_from_bytea 01 \\x41|
18 A: lo_from_bytea +1 \\x41|
20 A: lo_from_bytea 5 41|
20 A: lo_from_bytea 5 \\|
20 A: lo_from_bytea 5 \\x4|
20 A: lo_from_bytea 5 \\x4g|
20 A: lo_from_bytea 5 \\X41|
25 A: lo_from_bytea 5 \\x41 1|";

/// Forms on open large objects.
const DESCRIPTORS: &[u8] = b"12 A: lo_close|
13 A: lo_close |
13 A: lo_close -2147483649|
13 A: lo_close 2147483648|
13 A: lo_close -0|
13 A: lo_close 01|
13 A: lo_close +1|
15 A: lo_close 0 1|
11 A: lo_read|
12 A: lo_read |
13 A: lo_read 0|
12 A: lo_read -2147483649 2|
12 A: lo_read 2147483648 2|
12 A: lo_read -0 2|
12 A: lo_read 01 2|
12 A: lo_read +1 2|
14 A: lo_read 0 -2147483649|
14 A: lo_read 0 2147483648|
14 A: lo_read 0 -0|
14 A: lo_read 0 01|
14 A: lo_read 0 +1|
16 A: lo_read 0 2 1|
12 A: lo_write|
13 A: lo_write |
14 A: lo_write 0|
13 A: lo_write -2147483649 \\x41|
13 A: lo_write 2147483648 \\x41|
13 A: lo_write -0 \\x41|
13 A: lo_write 01 \\x41|
13 A: lo_write +1 \\x41|
15 A: lo_write 0 41|
15 A: lo_write 0 \\|
15 A: lo_write 0 \\x4|
15 A: lo_write 0 \\x4g|
15 A: lo_write 0 \\X41|
20 A: lo_write 0 \\x41 1|
12 A: lo_lseek|
13 A: lo_lseek |
14 A: lo_lseek 0|
16 A: lo_lseek 0 1|
13 A: lo_lseek -2147483649 1 1|
13 A: lo_lseek 2147483648 1 1|
13 A: lo_lseek -0 1 1|
13 A: lo_lseek 01 1 1|
13 A: lo_lseek +1 1 1|
15 A: lo_lseek 0 -2147483649 1|
15 A: lo_lseek 0 2147483648 1|
15 A: lo_lseek 0 -0 1|
15 A: lo_lseek 0 01 1|
15 A: lo_lseek 0 +1 1|
17 A: lo_lseek 0 1 -2147483649|
17 A: lo_lseek 0 1 2147483648|
17 A: lo_lseek 0 1 -0|
17 A: lo_lseek 0 1 01|
17 A: lo_lseek 0 1 +1|
19 A: lo_lseek 0 1 1 1|
14 A: lo_lseek64|
15 A: lo_lseek64 |
16 A: lo_lseek64 0|
18 A: lo_lseek64 0 3|
15 A: lo_lseek64 -2147483649 3 1|
15 A: lo_lseek64 2147483648 3 1|
15 A: lo_lseek64 -0 3 1|
15 A: lo_lseek64 01 3 1|
15 A: lo_lseek64 +1 3 1|
17 A: lo_lseek64 0 -9223372036854775809 1|
17 A: lo_lseek64 0 9223372036854775808 1|
17 A: lo_lseek64 0 -0 1|
17 A: lo_lseek64 0 01 1|
17 A: lo_lseek64 0 +1 1|
19 A: lo_lseek64 0 3 -2147483649|
19 A: lo_lseek64 0 3 2147483648|
19 A: lo_lseek64 0 3 -0|
19 A: lo_lseek64 0 3 01|
19 A: lo_lseek64 0 3 +1|
21 A: lo_lseek64 0 3 1 1|
11 A: lo_tell|
12 A: lo_tell |
12 A: lo_tell -2147483649|
12 A: lo_tell 2147483648|
12 A: lo_tell -0|
12 A: lo_tell 01|
12 A: lo_tell +1|
14 A: lo_tell 0 1|
13 A: lo_tell64|
14 A: lo_tell64 |
14 A: lo_tell64 -2147483649|
14 A: lo_tell64 2147483648|
14 A: lo_tell64 -0|
14 A: lo_tell64 01|
14 A: lo_tell64 +1|
16 A: lo_tell64 0 1|
15 A: lo_truncate|
16 A: lo_truncate |
17 A: lo_truncate 0|
16 A: lo_truncate -2147483649 1|
16 A: lo_truncate 2147483648 1|
16 A: lo_truncate -0 1|
16 A: lo_truncate 01 1|
16 A: lo_truncate +1 1|
18 A: lo_truncate 0 -2147483649|
18 A: lo_truncate 0 2147483648|
18 A: lo_truncate 0 -0|
18 A: lo_truncate 0 01|
18 A: lo_truncate 0 +1|
20 A: lo_truncate 0 1 1|
17 A: lo_truncate64|
18 A: lo_truncate64 |
19 A: lo_truncate64 0|
18 A: lo_truncate64 -2147483649 3|
18 A: lo_truncate64 2147483648 3|
18 A: lo_truncate64 -0 3|
18 A: lo_truncate64 01 3|
18 A: lo_truncate64 +1 3|
20 A: lo_truncate64 0 -9223372036854775809|
20 A: lo_truncate64 0 9223372036854775808|
20 A: lo_truncate64 0 -0|
20 A: lo_truncate64 0 01|
20 A: lo_truncate64 0 +1|
22 A: lo_truncate64 0 3 1|";

/// More on tokens of numbers and bytes.
const TOKENS: &[u8] = b"04 A: lo_create\t1|
14 A: lo_create  1|
14 A: lo_create 1x|
14 A: lo_create 1-|
14 A: lo_create --1|
14 A: lo_create - 1|
14 A: lo_create 18446744073709551617|
16 A: lo_create 1 |
13 A: lo_creat -00|
13 A: lo_creat -01|
13 A: lo_creat -|
13 A: lo_creat 18446744073709551616|
13 A: lo_creat 99999999999999999999999999999999999999999999999999999999999999999999|
11 A: lo_put x y z|
15 A: lo_put 5 0  \\x41|
15 A: lo_put 5 0 \\x4 1|
20 A: lo_put 5 0 \\x41 |
11 A: lo_get five|
13 A: lo_get 5 |
13 A: lo_get 5 # x|
15 A: lo_get 5 1 |";

/// Ends of lines, and which line is the first: texts with the line and the column.
const ENDS: [(&[u8], u64, u64); 15] = [
    (b"A: lo_get\r\n", 1, 10),
    (b"A: lo_get 5\r\r\n", 1, 11),
    (b"A: lo_get 5\r", 1, 11),
    (b"\r", 1, 1),
    (b"\r\n\r\r\n", 2, 1),
    (b"\n\n# lo_get\nA: lo_get", 4, 10),
    (b"A: lo_create 1\r\nA: lo_get 1\nA: lo_get x\nA:", 3, 11),
    (b"A: lo_create 1\n\xc3\xa9: lo_get \xc3\xa9\n", 2, 1),
    (b"A: begin\r", 1, 4),
    (b"A: begin\r\r\n", 1, 4),
    (b"A: savepoint\r\n", 1, 13),
    (b"A: rollback to\r\n", 1, 15),
    (b"A: begin\nB: begin\nQ: begin\n", 3, 1),
    (b"A: begin\r\nA: savepoint a\r\nA: rollback to A\r\n", 3, 16),
    (b"#\xff\n\xff 1", 2, 1),
];

pub fn expect_bad(rt: &impl Abort, alloc: Global, text: &[u8], line: u64, column: u64) {
    let start = read_script(alloc, text).err().and_then(|e| bad_line_of(&e));
    assert_eq!(rt; start, Some(BadLine { line, column }));
}

/// Checks each row of a table, and how many they are.
pub fn expect_table(rt: &impl Abort, alloc: Global, table: &[u8], count: u64) {
    let mut rows = 0u64;
    for row in table.split(|b| *b == b'\n') {
        if let [tens, ones, b' ', line @ .., b'|'] = row {
            let column = u64::from(tens.wrapping_sub(b'0')) * 10
                + u64::from(ones.wrapping_sub(b'0'));
            expect_bad(rt, alloc, line, 1, column);
            rows = rows.wrapping_add(1);
        }
    }
    assert_eq!(rt; rows, count);
}

#[test]
fn wrong_marks_and_words_are_refused(rt: HostRuntime) {
    expect_table(&rt, rt.alloc(), MARKS, 44);
}

#[test]
fn wrong_forms_of_transactions_are_refused(rt: HostRuntime) {
    expect_table(&rt, rt.alloc(), TRANSACTIONS, 49);
}

#[test]
fn wrong_forms_of_objects_are_refused(rt: HostRuntime) {
    expect_table(&rt, rt.alloc(), OBJECTS, 91);
}

#[test]
fn wrong_forms_of_descriptors_are_refused(rt: HostRuntime) {
    expect_table(&rt, rt.alloc(), DESCRIPTORS, 120);
}

#[test]
fn wrong_tokens_are_refused(rt: HostRuntime) {
    expect_table(&rt, rt.alloc(), TOKENS, 21);
}

#[test]
fn the_first_wrong_line_is_named(rt: HostRuntime) {
    for (text, line, column) in ENDS.iter() {
        expect_bad(&rt, rt.alloc(), text, *line, *column);
    }
}
