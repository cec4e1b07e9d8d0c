ghost use Rattle.std.specs.Prelude.{ℕ, ◌≤◌, List, Contains};
ghost use Rattle.lo_model.specs.Edit.{Edit};
ghost use Rattle.xact_core.specs.declared.snapshot.Snapshot.{Snapshot};
ghost use Rattle.xact_core.specs.EditLaws.{ReleasesViews, UndoesViews, CommitsViews, AddsToViews};
ghost use Rattle.xact_core.specs.Kept.{kept_views, KeptBy};
ghost use Rattle.xact_core.specs.Transactions.{Transactions};

/// What the ends of levels and transactions do to views of lists of edits with any deeds, in the words of the model. The
/// calls of `Xacts` say the same of each stamp.
pub fn laws_of_views<D>()
    ensures release { (s k : ℕ) (edits : List (Edit D)) → 1 ≤ k → ReleasesViews s k edits }
    ensures undo { (s k : ℕ) (edits : List (Edit D)) → UndoesViews s k edits }
    ensures commit { (s c : ℕ) (edits : List (Edit D)) → CommitsViews s c edits }
    ensures add { (made : ℕ) (deed : D) (edits : List (Edit D)) → AddsToViews made deed edits }
{}

/// Which views are kept: nobody's at the clock above the present one, a session's whole one and one below each of its
/// levels at that clock, and those that are held.
pub fn laws_of_kept_views()
    ensures only { (x : Transactions) (v : Snapshot) → Contains (kept_views x) v → KeptBy x v }
    ensures all { (x : Transactions) (v : Snapshot) → KeptBy x v → Contains (kept_views x) v }
{}
