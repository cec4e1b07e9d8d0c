// Rewrites: what refuses them, what they store anew, and who goes on reading the old rows.
use crate::bench::{Act, run};
use crate::spelled::{Answer, ID, Spec, Spelled};
use Act::*;
use Answer::{Counted, Done, Ids as Has, Part, Refused, Row};
use Spelled::{Bytes, Int, Null, Run};
use lo_base::{Cause, ColType, Storage};

const MAIN: Spec = ("v", ColType::Bytea, Storage::Main);

const PLAIN: Spec = ("v", ColType::Bytea, Storage::Plain);

const EXTERNAL: Spec = ("v", ColType::Bytea, Storage::External);

const NONE: Spec = ("w", ColType::Bytea, Storage::Plain);

/// Storages are judged in order, and name the place of the first that cannot be; then rows, from the least id on, and then
/// whether another session holds one.
const JUDGED: [Act; 26] = [
    Create("m", &[ID, MAIN], Done),
    Insert("m", &[Int(1), Run(8125, 0)], Done),
    Rewrite("u", &[PLAIN], Refused(Cause::NoTable, 0)),
    Rewrite("m", &[ID], Refused(Cause::WrongType, 1)),
    Rewrite("m", &[NONE], Refused(Cause::NoColumn, 1)),
    Rewrite("m", &[PLAIN, NONE], Refused(Cause::NoColumn, 2)),
    Rewrite("m", &[MAIN, ID, NONE], Refused(Cause::WrongType, 2)),
    Rewrite("m", &[PLAIN], Refused(Cause::RowTooBig, 8168)),
    Insert("m", &[Int(-1), Run(9000, 0)], Done),
    Rewrite("m", &[PLAIN], Refused(Cause::RowTooBig, 9040)),
    Begin,
    Update("m", 1, &[("v", Bytes(b"short"))], Done),
    As(2),
    Rewrite("m", &[PLAIN], Refused(Cause::RowTooBig, 9040)),
    Rewrite("m", &[EXTERNAL], Refused(Cause::Busy, 1)),
    Rewrite("m", &[NONE], Refused(Cause::NoColumn, 1)),
    As(1),
    Rewrite("m", &[EXTERNAL], Counted(2)),
    Rollback,
    Get("m", 1, Row(&[Int(1), Run(8125, 0)])),
    Get("m", -1, Row(&[Int(-1), Run(9000, 0)])),
    As(2),
    Rewrite("m", &[EXTERNAL], Counted(2)),
    Get("m", 1, Row(&[Int(1), Run(8125, 0)])),
    Slice("m", -1, "v", 8990, 90, Part(Run(10, 8990))),
    Ids("m", Has(&[-1, 1])),
];

#[test]
fn what_refuses_a_rewrite(rt: HostRuntime) {
    run(&rt, rt.alloc(), &JUDGED);
}

/// A cursor reads the old rows after a rewrite, and others the new ones. Changes of later rows go by the new storages.
const STORED: [Act; 29] = [
    Create(
        "m",
        &[ID, MAIN, ("w", ColType::Bytea, Storage::External)],
        Done,
    ),
    Rewrite("m", &[EXTERNAL], Counted(0)),
    Insert("m", &[Int(1), Run(3000, 0), Run(4000, 1)], Done),
    Insert("m", &[Int(2), Run(5000, 2), Null], Done),
    Insert("m", &[Int(3), Null, Run(6000, 3)], Done),
    Begin,
    Declare("c", "m", 1, Done),
    Declare("d", "m", 2, Done),
    As(2),
    Rewrite("m", &[MAIN], Counted(3)),
    Delete("m", 2, Done),
    Vacuum,
    Get("m", 1, Row(&[Int(1), Run(3000, 0), Run(4000, 1)])),
    Get("m", 3, Row(&[Int(3), Null, Run(6000, 3)])),
    As(1),
    Fetch("c", "v", 1990, 10, Part(Run(10, 1990))),
    Fetch("c", "w", 3990, 90, Part(Run(10, 3991))),
    Fetch("d", "v", 0, 9000, Part(Run(5000, 2))),
    Update("m", 1, &[("v", Null)], Done),
    Rewrite("m", &[("w", ColType::Bytea, Storage::Main)], Counted(2)),
    Get("m", 1, Row(&[Int(1), Null, Run(4000, 1)])),
    Fetch("c", "v", 1990, 10, Part(Run(10, 1990))),
    Commit,
    Vacuum,
    Get("m", 1, Row(&[Int(1), Null, Run(4000, 1)])),
    Rewrite("m", &[PLAIN, NONE], Counted(2)),
    Insert(
        "m",
        &[Int(4), Run(8125, 0), Null],
        Refused(Cause::RowTooBig, 8168),
    ),
    Update("m", 1, &[("v", Run(3000, 5))], Done),
    Get("m", 1, Row(&[Int(1), Run(3000, 5), Run(4000, 1)])),
];

#[test]
fn old_rows_and_new_ones(rt: HostRuntime) {
    run(&rt, rt.alloc(), &STORED);
}
