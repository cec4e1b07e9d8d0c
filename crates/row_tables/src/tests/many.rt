// Many columns, many tables and many rows.
use crate::bench::{Act, Bench, run};
use crate::spelled::{Answer, ID, Spec, Spelled};
use Act::*;
use Answer::{Done, IdsFrom, Part, Refused, Row};
use Spelled::{Bytes, Fill, Int, Null, Run};
use lo_base::{Cause, ColType, Name, Storage};
use std::alloc::Global;
use std::process::Abort;

/// The most columns of a table: its id and 31 more.
const WIDE: [Spec; 32] = [
    ID,
    ("c1", ColType::Bytea, Storage::Extended),
    ("c2", ColType::Bytea, Storage::Extended),
    ("c3", ColType::Bytea, Storage::Extended),
    ("c4", ColType::Bytea, Storage::Extended),
    ("c5", ColType::Bytea, Storage::Extended),
    ("c6", ColType::Bytea, Storage::Extended),
    ("c7", ColType::Bytea, Storage::Extended),
    ("c8", ColType::Bytea, Storage::Extended),
    ("c9", ColType::Bytea, Storage::Extended),
    ("c10", ColType::Bytea, Storage::Extended),
    ("c11", ColType::Bytea, Storage::Extended),
    ("c12", ColType::Bytea, Storage::Extended),
    ("c13", ColType::Bytea, Storage::Extended),
    ("c14", ColType::Bytea, Storage::Extended),
    ("c15", ColType::Bytea, Storage::Extended),
    ("c16", ColType::Bytea, Storage::Extended),
    ("c17", ColType::Bytea, Storage::Extended),
    ("c18", ColType::Bytea, Storage::Extended),
    ("c19", ColType::Bytea, Storage::Extended),
    ("c20", ColType::Bytea, Storage::Extended),
    ("c21", ColType::Bytea, Storage::Extended),
    ("c22", ColType::Bytea, Storage::Extended),
    ("c23", ColType::Bytea, Storage::Extended),
    ("c24", ColType::Bytea, Storage::Extended),
    ("c25", ColType::Bytea, Storage::Extended),
    ("c26", ColType::Bytea, Storage::Extended),
    ("c27", ColType::Bytea, Storage::Extended),
    ("c28", ColType::Bytea, Storage::Extended),
    ("c29", ColType::Bytea, Storage::Extended),
    ("c30", ColType::Bytea, Storage::Extended),
    ("c31", ColType::Bytea, Storage::Extended),
];

/// The same where nothing moves out.
const STIFF: [Spec; 32] = [
    ID,
    ("c1", ColType::Bytea, Storage::Plain),
    ("c2", ColType::Bytea, Storage::Plain),
    ("c3", ColType::Bytea, Storage::Plain),
    ("c4", ColType::Bytea, Storage::Plain),
    ("c5", ColType::Bytea, Storage::Plain),
    ("c6", ColType::Bytea, Storage::Plain),
    ("c7", ColType::Bytea, Storage::Plain),
    ("c8", ColType::Bytea, Storage::Plain),
    ("c9", ColType::Bytea, Storage::Plain),
    ("c10", ColType::Bytea, Storage::Plain),
    ("c11", ColType::Bytea, Storage::Plain),
    ("c12", ColType::Bytea, Storage::Plain),
    ("c13", ColType::Bytea, Storage::Plain),
    ("c14", ColType::Bytea, Storage::Plain),
    ("c15", ColType::Bytea, Storage::Plain),
    ("c16", ColType::Bytea, Storage::Plain),
    ("c17", ColType::Bytea, Storage::Plain),
    ("c18", ColType::Bytea, Storage::Plain),
    ("c19", ColType::Bytea, Storage::Plain),
    ("c20", ColType::Bytea, Storage::Plain),
    ("c21", ColType::Bytea, Storage::Plain),
    ("c22", ColType::Bytea, Storage::Plain),
    ("c23", ColType::Bytea, Storage::Plain),
    ("c24", ColType::Bytea, Storage::Plain),
    ("c25", ColType::Bytea, Storage::Plain),
    ("c26", ColType::Bytea, Storage::Plain),
    ("c27", ColType::Bytea, Storage::Plain),
    ("c28", ColType::Bytea, Storage::Plain),
    ("c29", ColType::Bytea, Storage::Plain),
    ("c30", ColType::Bytea, Storage::Plain),
    ("c31", ColType::Bytea, Storage::Plain),
];

/// 31 long values, which all move out.
const LONG: [Spelled; 32] = [
    Int(1),
    Run(3001, 1),
    Run(3002, 2),
    Run(3003, 3),
    Run(3004, 4),
    Run(3005, 5),
    Run(3006, 6),
    Run(3007, 7),
    Run(3008, 8),
    Run(3009, 9),
    Run(3010, 10),
    Run(3011, 11),
    Run(3012, 12),
    Run(3013, 13),
    Run(3014, 14),
    Run(3015, 15),
    Run(3016, 16),
    Run(3017, 17),
    Run(3018, 18),
    Run(3019, 19),
    Run(3020, 20),
    Run(3021, 21),
    Run(3022, 22),
    Run(3023, 23),
    Run(3024, 24),
    Run(3025, 25),
    Run(3026, 26),
    Run(3027, 27),
    Run(3028, 28),
    Run(3029, 29),
    Run(3030, 30),
    Run(3031, 31),
];

/// Values about the length of a pointer, and nulls.
const NULLS: [Spelled; 32] = [
    Int(2),
    Run(17, 1),
    Run(17, 2),
    Null,
    Run(18, 4),
    Run(18, 5),
    Null,
    Run(18, 7),
    Run(19, 8),
    Null,
    Run(19, 10),
    Run(19, 11),
    Null,
    Run(20, 13),
    Run(20, 14),
    Null,
    Run(21, 16),
    Run(21, 17),
    Null,
    Run(21, 19),
    Run(22, 20),
    Null,
    Run(22, 22),
    Run(22, 23),
    Null,
    Run(23, 25),
    Run(23, 26),
    Null,
    Run(24, 28),
    Run(24, 29),
    Null,
    Run(24, 31),
];

/// A row of exactly 8160 bytes: 24, 8, and 31 times 4 and 256, and 68 more.
const FULL: [Spelled; 32] = [
    Int(1),
    Run(256, 1),
    Run(256, 2),
    Run(256, 3),
    Run(256, 4),
    Run(256, 5),
    Run(256, 6),
    Run(256, 7),
    Run(256, 8),
    Run(256, 9),
    Run(256, 10),
    Run(256, 11),
    Run(256, 12),
    Run(256, 13),
    Run(256, 14),
    Run(256, 15),
    Run(256, 16),
    Run(256, 17),
    Run(256, 18),
    Run(256, 19),
    Run(256, 20),
    Run(256, 21),
    Run(256, 22),
    Run(256, 23),
    Run(256, 24),
    Run(256, 25),
    Run(256, 26),
    Run(256, 27),
    Run(256, 28),
    Run(256, 29),
    Run(256, 30),
    Run(324, 31),
];

/// A byte more.
const OVERFULL: [Spelled; 32] = [
    Int(2),
    Run(256, 1),
    Run(256, 2),
    Run(256, 3),
    Run(256, 4),
    Run(256, 5),
    Run(256, 6),
    Run(256, 7),
    Run(256, 8),
    Run(256, 9),
    Run(256, 10),
    Run(256, 11),
    Run(256, 12),
    Run(256, 13),
    Run(256, 14),
    Run(256, 15),
    Run(256, 16),
    Run(256, 17),
    Run(256, 18),
    Run(256, 19),
    Run(256, 20),
    Run(256, 21),
    Run(256, 22),
    Run(256, 23),
    Run(256, 24),
    Run(256, 25),
    Run(256, 26),
    Run(256, 27),
    Run(256, 28),
    Run(256, 29),
    Run(256, 30),
    Run(325, 31),
];

const COLUMNS: [Act; 18] = [
    Create("w", &WIDE, Done),
    Create("s", &STIFF, Done),
    Insert("w", &LONG, Done),
    Get("w", 1, Row(&LONG)),
    Slice("w", 1, "c31", 1990, 10, Part(Run(10, 2021))),
    Slice("w", 1, "c32", 1990, 10, Refused(Cause::NoColumn, 2)),
    Insert("w", &NULLS, Done),
    Get("w", 2, Row(&NULLS)),
    Slice("w", 2, "c30", 0, 9, Part(Null)),
    Update("w", 1, &[("c1", Null), ("c31", Bytes(b"short"))], Done),
    Slice("w", 1, "c30", 3020, 90, Part(Run(10, 3050))),
    Slice("w", 1, "c31", 0, 90, Part(Bytes(b"short"))),
    Slice("w", 1, "c1", 0, 90, Part(Null)),
    Vacuum,
    Slice("w", 1, "c2", 3000, 90, Part(Run(2, 3002))),
    Insert("s", &FULL, Done),
    Get("s", 1, Row(&FULL)),
    Insert("s", &OVERFULL, Refused(Cause::RowTooBig, 8168)),
];

#[test]
fn thirty_two_columns(rt: HostRuntime) {
    run(&rt, rt.alloc(), &COLUMNS);
}

/// A name of a table: a letter and three digits.
fn numbered(rt: &impl Abort, alloc: Global, number: u16) -> Name {
    let digits = [
        b't',
        b'0' + (number / 100 % 10) as u8,
        b'0' + (number / 10 % 10) as u8,
        b'0' + (number % 10) as u8,
    ];
    Name::from_slice(alloc, &digits).expect(rt, "memory")
}

fn is_named(found: Option<&Name>, text: &[u8]) -> bool {
    match found {
        Some(name) => name.items() == text,
        None => false,
    }
}

/// 1000 tables, and no more. Their names ascend, in whatever order they were made.
#[test]
fn a_thousand_tables(rt: HostRuntime) {
    let alloc = rt.alloc();
    let mut bench = Bench::new(&rt, alloc);
    for number in 0..1000_u16 {
        let name = numbered(&rt, alloc, (number * 7 + 500) % 1000);
        bench.create(&rt, name, &[ID], Done);
    }
    bench.play(
        &rt,
        &Create("u", &[ID], Refused(Cause::TooManyTables, 1000)),
    );
    bench.play(&rt, &Create("t007", &[ID], Refused(Cause::TableExists, 0)));
    assert!(&rt; is_named(bench.tables.table(0), b"t000"));
    assert!(&rt; is_named(bench.tables.table(501), b"t501"));
    assert!(&rt; is_named(bench.tables.table(999), b"t999"));
    assert!(&rt; bench.tables.table(1000).is_none());
    let last = numbered(&rt, alloc, 999);
    assert!(&rt;
        bench
            .tables
            .columns(&last)
            .is_some_and(|columns| columns.len() == 1)
    );
    let none = Name::from_slice(alloc, b"u").expect(&rt, "memory");
    assert!(&rt; bench.tables.columns(&none).is_none());
    bench.play(&rt, &Insert("t999", &[Int(1)], Done));
    bench.play(&rt, &Insert("t000", &[Int(2)], Done));
    bench.play(&rt, &Ids("t999", Answer::Ids(&[1])));
    bench.play(&rt, &Ids("t500", Answer::Ids(&[])));
}

/// 20,000 rows of one table, made in another order than their ids', of which every second one is deleted.
#[test]
fn many_rows(rt: HostRuntime) {
    let mut bench = Bench::new(&rt, rt.alloc());
    bench.play(
        &rt,
        &Create("t", &[ID, ("b", ColType::Bytea, Storage::Extended)], Done),
    );
    bench.play(&rt, &Begin);
    for k in 0..20000_u32 {
        let id = k * 7919 % 20000;
        let row = [Int(i64::from(id)), Fill((id % 50) as usize, b'x')];
        bench.insert(&rt, "t", &row, Done);
    }
    bench.play(&rt, &Commit);
    bench.play(&rt, &Ids("t", IdsFrom(0, 1, 20000)));
    bench.play(&rt, &Get("t", 19999, Row(&[Int(19999), Fill(49, b'x')])));
    bench.play(&rt, &Begin);
    for half in 0..10000_u32 {
        bench.delete(&rt, "t", i64::from(half * 2), Done);
    }
    bench.play(&rt, &Ids("t", IdsFrom(1, 2, 10000)));
    bench.play(&rt, &Commit);
    bench.play(&rt, &Vacuum);
    bench.play(&rt, &Ids("t", IdsFrom(1, 2, 10000)));
    bench.play(&rt, &Get("t", 10000, Refused(Cause::NoRow, 10000)));
    bench.play(&rt, &Get("t", 10001, Row(&[Int(10001), Fill(1, b'x')])));
}
