//! Laws of the definitions, for whoever judges them and for the crates above. No code runs.
ghost use Rattle.std.specs.Prelude.{ℕ, Bool, List};
ghost use Rattle.orphan_sweep.specs.declared.act.Scan.{Scan};
ghost use Rattle.orphan_sweep.specs.declared.act.Told.{Told};
ghost use Rattle.orphan_sweep.specs.Rest.{less, groups};
ghost use Rattle.orphan_sweep.specs.History.{History};
ghost use Rattle.orphan_sweep.specs.Ending.{LeavesFewer};
ghost use Rattle.orphan_sweep.specs.Law.{KeepsState, KeepsAnswers, AsksByPlan, RemovesTheRest, StopsAtARefusal, OnlyScans, IsIdleAfterReport, IsTheRest, AreGroups};

/// What a sweep asks for and removes, whatever is answered: a law of `next`, `told` and `removed`, by whose words the
/// clauses speak. No code runs.
pub fn sweeps_by_answers()
    ensures state { (h : History) (answer : Told) →
        KeepsState h answer }
    ensures history { (dry : Bool) (limit : ℕ) (list : List ℕ) (scans : List Scan) (answers : List Told) →
        KeepsAnswers dry limit list scans answers }
    ensures plan { (dry : Bool) (limit : ℕ) (list : List ℕ) (scans : List Scan) (answers : List Told) →
        AsksByPlan dry limit list scans answers }
    ensures whole { (limit : ℕ) (list : List ℕ) (scans : List Scan) (answers : List Told) →
        RemovesTheRest limit list scans answers }
    ensures refused { (dry : Bool) (limit : ℕ) (list : List ℕ) (scans : List Scan) (before later : List Told) →
        StopsAtARefusal dry limit list scans before later }
    ensures dry { (limit : ℕ) (list : List ℕ) (scans : List Scan) (answers : List Told) →
        OnlyScans limit list scans answers }
    ensures idle { (dry : Bool) (limit : ℕ) (list : List ℕ) (scans : List Scan) (answers : List Told) →
        IsIdleAfterReport dry limit list scans answers }
    ensures rest { (list found : List ℕ) →
        IsTheRest list found (less list found) }
    ensures cut { (limit : ℕ) (numbers : List ℕ) →
        AreGroups limit numbers (groups limit numbers) }
{}

/// A sweep ends: each answer leaves fewer acts, so after at most as many answers as it has acts left, the next act is
/// idle. No code runs.
pub fn sweeps_end()
    ensures fewer { (h : History) (answer : Told) →
        LeavesFewer h answer }
{}
