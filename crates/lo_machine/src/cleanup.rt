// A session's clean-up of orphans: where it stands, and what its report says. Which act comes next is orphan_sweep's own.
// (Manual, vacuumlo.)
ghost use Rattle.std.specs.Prelude.{◌≡◌, Some, IfOk, IsTrue};
ghost use Rattle.std.specs.List.Sorted.{IsStrictlyIncreasing};
ghost use Rattle.orphan_sweep.specs.History.{History, and_told, begun};
ghost use Rattle.orphan_sweep.specs.Plan.{is_answer_to};
ghost use Rattle.orphan_sweep.specs.State.{next_of};
ghost use Rattle.lo_machine.specs.Sweeping.{IsAt, IsFor, IsOver, first_some, refused_by};
ghost use Rattle.lo_machine.specs.SweepRows.{act_in, report_in, rest_before_report, rest_in};
ghost use Rattle.std.specs.Prelude.{Option};

use lo_base::{ListOf, Oid, Oids, Reply, Word};
use orphan_sweep::{Scans, Sweep, SweepAct, Told};
use std::alloc::Global;

/// A clean-up under way, or one that is over.
#[derive(Drop)]
pub struct Cleanup {
    sweep: Sweep,
    /// Whether it only reports.
    dry: bool,
    /// The object whose removal was refused, if one was.
    refused: Option<Oid>,
}

impl Cleanup {
    /// One that is over. A session that has begun none has it.
    pub fn over(alloc: Global) -> Cleanup
        ensures { IsOver result }
    {
        let mut sweep = Sweep::new(true, 0, ListOf::new(alloc), ListOf::new(alloc));
        sweep.told(Told::Granted);
        Cleanup {
            sweep,
            dry: true,
            refused: None,
        }
    }

    /// One that begins: it removes what is on the list and in no scan, at most `limit` objects in one transaction.
    pub fn begin(dry: bool, limit: u32, list: Oids, scans: Scans) -> Cleanup
        requires { IsStrictlyIncreasing list }
        ensures { IsAt result (begun dry limit list scans) }
    {
        Cleanup {
            sweep: Sweep::new(dry, limit, list, scans),
            dry,
            refused: None,
        }
    }

    /// The act that comes next.
    pub fn next(&self) -> &SweepAct
        ensures next { result.now ≡ next_of self.now.sweep }
        ensures act { (h : Option History) → IsFor self.now h → result.now ≡ act_in h }
    {
        self.sweep.next()
    }

    /// The list less what the scans found so far.
    pub fn rest(&self) -> &[Oid]
        ensures { (h : Option History) → IsFor self.now h → result.now ≡ rest_in h }
    {
        self.sweep.rest()
    }

    /// The same up to the report. It is empty once that was made.
    pub fn rest_before_report(&self) -> &[Oid]
        ensures { (h : Option History) → IsFor self.now h → result.now ≡ rest_before_report h }
    {
        match self.next() {
            SweepAct::Idle => &[],
            _ => self.rest(),
        }
    }

    /// Takes what became of the act.
    pub fn tell(&mut self, answer: Told)
        requires { IsTrue (is_answer_to (next_of self.old.sweep) answer) }
        ensures { (h : History) → IsAt self.old h → IsAt self.new (and_told h answer) }
    {
        self.refused = refused_with(self.refused, self.sweep.next(), &answer);
        self.sweep.told(answer);
    }

    /// What was removed, or would be; or which object's removal was refused, and how many were removed before.
    pub fn report(&self) -> Reply
        ensures { (h : History) → IsAt self.now h → result ≡ report_in (Some h) }
    {
        let removed = self.sweep.removed();
        match self.refused {
            Some(oid) => Reply::Stopped { oid, removed },
            None if self.dry => Reply::Counted {
                what: Word::WouldRemove,
                count: self.sweep.rest().len() as u64,
            },
            None => Reply::Counted {
                what: Word::Removed,
                count: removed,
            },
        }
    }
}

/// The object whose removal was refused first, once one more act was answered.
fn refused_with(refused: Option<Oid>, act: &SweepAct, answer: &Told) -> Option<Oid>
    ensures { result ≡ first_some refused (refused_by act.now answer.now) }
{
    match (refused, act, answer) {
        (None, SweepAct::Unlink(oid), Told::Refused) => Some(*oid),
        _ => refused,
    }
}
