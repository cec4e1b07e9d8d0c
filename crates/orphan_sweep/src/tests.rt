//! Whole runs, act by act, worked out by hand.
ghost use Rattle.std.specs.Prelude.{◌≡◌, IsTrue, IfOk, IfSome};
ghost use Rattle.std.specs.List.Sorted.{IsStrictlyIncreasing};
ghost use Rattle.orphan_sweep.specs.Plan.{is_answer_to};

use crate::{Scan, Scans, Sweep, SweepAct, Told, sweeps_by_answers, sweeps_end};
use lo_base::{Name, NoMemory, Oid, Oids};
use std::alloc::{AllocError, Global};
use std::test::Fail;

/// A sweep, what its scans find, the object that cannot be removed, and its acts in words. `=` stands before the number
/// of objects that are removed by then.
#[derive(Clone, Copy)]
struct Case {
    dry: bool,
    limit: u32,
    list: &'static [Oid],
    found: &'static [&'static [Oid]],
    gone: Option<Oid>,
    rest: &'static [Oid],
    acts: &'static str,
}

const OBJECTS: &[Oid] = &[17000, 17001, 17002, 17003, 17004];

fn ascends(list: &[Oid]) -> bool
    ensures { IsTrue result → IsStrictlyIncreasing list.now }
{
    for at in 1..list.len() {
        if list[at - 1] >= list[at] {
            return false;
        }
    }
    true
}

/// The scans of column `o` of the tables `a`, `b`, ..
fn scans(alloc: Global, count: usize) -> Result<Scans, NoMemory> {
    let mut scans = Scans::new(alloc);
    for letter in (b'a'..=b'z').take(count) {
        scans.push(Scan {
            table: Name::from_slice(alloc, &[letter])?,
            column: Name::from_slice(alloc, b"o")?,
        })?;
    }
    Ok(scans)
}

/// The answer to an act that is not idle.
fn answer_to(
    alloc: Global,
    act: &SweepAct,
    found: &[Oid],
    gone: Option<Oid>,
) -> Result<Option<Told>, NoMemory>
    ensures { IfOk result (λ answer. IfSome answer (λ told. IsTrue (is_answer_to act.now told))) }
{
    match act {
        SweepAct::Scan { .. } => Ok(Some(Told::Found(Oids::from_slice(alloc, found)?))),
        SweepAct::Unlink(number) => {
            if gone == Some(*number) {
                Ok(Some(Told::Refused))
            } else {
                Ok(Some(Told::Granted))
            }
        }
        SweepAct::Idle => Ok(None),
        SweepAct::Begin | SweepAct::Commit | SweepAct::Rollback | SweepAct::Report => {
            Ok(Some(Told::Granted))
        }
    }
}

fn words(alloc: Global, act: &SweepAct, removed: u64) -> Result<String, AllocError> {
    match act {
        SweepAct::Scan { table, .. } => {
            let mut text = String::new(alloc);
            for letter in table.items() {
                text.push(*letter as char)?;
            }
            text.push_str(" ")?;
            Ok(text)
        }
        SweepAct::Begin => format!(in alloc; "={removed} begin "),
        SweepAct::Unlink(number) => format!(in alloc; "{number} "),
        SweepAct::Commit => String::from_str(alloc, "commit "),
        SweepAct::Rollback => String::from_str(alloc, "rollback "),
        SweepAct::Report => format!(in alloc; "={removed} report "),
        SweepAct::Idle => String::from_str(alloc, "idle"),
    }
}

/// The acts of a whole run.
fn acts(alloc: Global, sweep: &mut Sweep, case: &Case) -> Result<String, Fail> {
    let mut text = String::new(alloc);
    for scanned in 0..30 {
        text.push_str(words(alloc, sweep.next(), sweep.removed())?.as_str())?;
        let found = case.found.get(scanned).copied().unwrap_or(&[]);
        let Some(answer) = answer_to(alloc, sweep.next(), found, case.gone)? else {
            return Ok(text);
        };
        sweep.told(answer);
    }
    Ok(text)
}

const TWO_TABLES: Case = Case {
    dry: false,
    limit: 2,
    list: OBJECTS,
    found: &[&[17000], &[17003]],
    gone: None,
    rest: &[17001, 17002, 17004],
    acts: "a b =0 begin 17001 17002 commit =2 begin 17004 commit =3 report idle",
};

/// One object of the second group is gone.
const GONE: Case = Case {
    dry: false,
    limit: 2,
    list: &[17001, 17002, 17003, 17004],
    found: &[],
    gone: Some(17004),
    rest: &[17001, 17002, 17003, 17004],
    acts: "=0 begin 17001 17002 commit =2 begin 17003 17004 rollback =2 report idle",
};

const NO_OBJECTS: Case = Case {
    dry: false,
    limit: 0,
    list: &[],
    found: &[],
    gone: None,
    rest: &[],
    acts: "=0 report idle",
};

#[test]
fn runs_to_the_report(rt: HostRuntime) -> Result<(), Fail> {
    let cases = [
        TWO_TABLES,
        Case {
            dry: true,
            acts: "a b =0 report idle",
            ..TWO_TABLES
        },
        Case {
            limit: 0,
            acts: "a b =0 begin 17001 17002 17004 commit =3 report idle",
            ..TWO_TABLES
        },
        Case {
            limit: 1,
            acts: "a b =0 begin 17001 commit =1 begin 17002 commit =2 begin 17004 commit =3 report idle",
            ..TWO_TABLES
        },
        Case {
            limit: 4,
            acts: "a b =0 begin 17001 17002 17004 commit =3 report idle",
            ..TWO_TABLES
        },
        Case {
            found: &[&[17003, 5, 17003, 90000], &[17000, 17000]],
            ..TWO_TABLES
        },
        Case {
            found: &[&[17004, 17001, 17002], &[17003, 17000]],
            rest: &[],
            acts: "a b =0 report idle",
            ..TWO_TABLES
        },
        GONE,
        Case {
            gone: Some(17003),
            acts: "=0 begin 17001 17002 commit =2 begin 17003 rollback =2 report idle",
            ..GONE
        },
        NO_OBJECTS,
        Case {
            found: &[&[17000]],
            acts: "a =0 report idle",
            ..NO_OBJECTS
        },
    ];
    for (number, case) in cases.iter().enumerate() {
        assert!(rt; ascends(case.list));
        let list = Oids::from_slice(rt.alloc(), case.list)?;
        let scans = scans(rt.alloc(), case.found.len())?;
        let mut sweep = Sweep::new(case.dry, case.limit, list, scans);
        let acts = acts(rt.alloc(), &mut sweep, case)?;
        assert_eq!(rt; acts.as_str(), case.acts, "case {number}");
        assert_eq!(rt; sweep.rest(), case.rest, "case {number}");
    }
    Ok(())
}

#[test]
fn laws_are_called() {
    sweeps_by_answers();
    sweeps_end();
}
