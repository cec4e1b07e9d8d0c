// Laws of tables that layers above live on, over all calls of the transactions. No code calls these functions.
ghost use Rattle.std.specs.Prelude.{◌≡◌, ◌≤◌, ◌<◌, ℕ, true, false, List, [], ◌∷◌, ◌++◌, length, Option};
ghost use Rattle.lo_model.specs.declared.owner.Owner.TheVariants.{Running};
ghost use Rattle.lo_model.specs.Edit.{Deed, Edit};
ghost use Rattle.lo_model.specs.Levels.{released, undone, aborted, committed};
ghost use Rattle.lo_model.specs.View.{sees, view};
ghost use Rattle.xact_core.specs.declared.snapshot.Snapshot.{Snapshot};
ghost use Rattle.xact_core.specs.Ends.{Opens};
ghost use Rattle.xact_core.specs.Kept.{HoldsOthers};
ghost use Rattle.xact_core.specs.Transactions.{Transactions, levels_of};
ghost use Rattle.row_versions.specs.Calls.{Releases, UndoesLevel, Commits, Aborts, Ticks};
ghost use Rattle.row_versions.specs.Looks.{IsLook};
ghost use Rattle.row_versions.specs.Stands.{standing};
ghost use Rattle.toast_chunks.specs.Calls.{StandsAlike};
ghost use Rattle.toast_chunks.specs.Values.{HasValue};
ghost use Rattle.row_tables.specs.declared.row_key.RowKey.{RowKey};
ghost use Rattle.row_tables.specs.declared.tables.Tables.{Tables};
ghost use Rattle.row_tables.specs.Laws.{ReadsRows, is_of_objects};
ghost use Rattle.row_tables.specs.Standing.{Go, GoWith, StandFor, cells_at, versions_of};
ghost use Rattle.row_tables.specs.World.{LeavesOwn, SameRows};

/// Tables that go with their transactions do so after each call of them, and after calls that change cursors alone.
pub fn tables_go()
    ensures released { (s k : ℕ) (old new : Transactions) (tables : Tables) →
        Releases s k old new → GoWith old tables → GoWith new tables }
    ensures undone { (s k : ℕ) (old new : Transactions) (tables : Tables) →
        UndoesLevel s k old new → GoWith old tables → GoWith new tables }
    ensures aborted { (s : ℕ) (old new : Transactions) (tables : Tables) →
        Aborts s old new → GoWith old tables → GoWith new tables }
    ensures committed { (s : ℕ) (old new : Transactions) (tables : Tables) →
        Commits s old new → GoWith old tables → GoWith new tables }
    ensures ticked { (old new : Transactions) (tables : Tables) →
        Ticks old new → GoWith old tables → GoWith new tables }
    ensures opened { (s : ℕ) (name : Option (List ℕ)) (old new : Transactions) (tables : Tables) →
        Opens s name old new → GoWith old tables → GoWith new tables }
    ensures held { (old new : Transactions) (tables : Tables) →
        HoldsOthers old new → GoWith old tables → GoWith new tables }
    ensures same { (x : Transactions) (old new : Tables) →
        SameRows old new → GoWith x old → GoWith x new }
{}

/// The tables that stand for edits do so after each call of the transactions, for what it makes of these edits, and after an
/// edit of a large object.
pub fn tables_stand()
    ensures released { (s k : ℕ) (old new : Transactions) (tables : Tables) (ys : List (Edit Deed)) →
        Releases s k old new → StandFor old tables ys → StandFor new tables (released s k ys) }
    ensures undone { (s k : ℕ) (old new : Transactions) (tables : Tables) (ys : List (Edit Deed)) →
        UndoesLevel s k old new → StandFor old tables ys → StandFor new tables (undone s k ys) }
    ensures aborted { (s : ℕ) (old new : Transactions) (tables : Tables) (ys : List (Edit Deed)) →
        Aborts s old new → StandFor old tables ys → StandFor new tables (aborted s ys) }
    ensures committed { (s : ℕ) (old new : Transactions) (tables : Tables) (ys : List (Edit Deed)) →
        Commits s old new → StandFor old tables ys →
        StandFor new tables (committed s old.clock ys) }
    ensures ticked { (old new : Transactions) (tables : Tables) (ys : List (Edit Deed)) →
        Ticks old new → StandFor old tables ys → StandFor new tables ys }
    ensures opened { (s : ℕ) (name : Option (List ℕ)) (old new : Transactions) (tables : Tables)
        (ys : List (Edit Deed)) → Opens s name old new → StandFor old tables ys →
        StandFor new tables ys }
    ensures held { (old new : Transactions) (tables : Tables) (ys : List (Edit Deed)) →
        HoldsOthers old new → StandFor old tables ys → StandFor new tables ys }
    ensures objects { (x : Transactions) (tables : Tables) (ys : List (Edit Deed)) (e : Edit Deed) →
        is_of_objects e.deed ≡ true → StandFor x tables ys → StandFor x tables (ys ++ e ∷ []) }
    ensures same { (x : Transactions) (old new : Tables) (ys : List (Edit Deed)) →
        SameRows old new → StandFor x old ys → StandFor x new ys }
{}

/// In each kept view a row is what the view's edits fold it to, and the view has all its values outside.
pub fn tables_read()
    ensures reads { (x : Transactions) (v : Snapshot) (tables : Tables) (ys : List (Edit Deed))
        (stand : StandFor x tables ys) → IsLook x v →
        ReadsRows x v tables stand.kept.told (view v.clock v.viewer ys) }
{}

/// What calls left, also where one found no memory: a view that does not see the session's top level finds what it found, and
/// once that level is undone, of each row and each chunk the versions stand that stood before the calls.
pub fn versions_left()
    ensures unseen { (x : Transactions) (s : ℕ) (old new : Tables) (v : Snapshot) →
        LeavesOwn x s old new →
        sees v.clock v.viewer x.clock (Running s (length (levels_of x s))) ≡ false →
        (key : RowKey) → cells_at x v new key ≡ cells_at x v old key }
    ensures values { (x : Transactions) (s : ℕ) (old new : Tables) (v : Snapshot) (value : ℕ)
        (bytes : List ℕ) → LeavesOwn x s old new →
        sees v.clock v.viewer x.clock (Running s (length (levels_of x s))) ≡ false →
        HasValue x v old.chunks value bytes → HasValue x v new.chunks value bytes }
    // What is left is gone with the level that it was made in.
    ensures undone { (s : ℕ) (old new : Transactions) (before after : Tables)
        (ys : List (Edit Deed)) → UndoesLevel s (length (levels_of old s)) old new →
        LeavesOwn old s before after → Go old after → StandFor old before ys →
        StandFor new after (undone s (length (levels_of old s)) ys) }
    ensures aborted { (s : ℕ) (old new : Transactions) (before after : Tables)
        (ys : List (Edit Deed)) → Aborts s old new → length (levels_of old s) ≡ 1 →
        LeavesOwn old s before after → Go old after → StandFor old before ys →
        StandFor new after (aborted s ys) }
    ensures goes { (s : ℕ) (old new : Transactions) (before after : Tables) →
        UndoesLevel s (length (levels_of old s)) old new → LeavesOwn old s before after →
        Go old after → GoWith old before → GoWith new after }
    ensures gone { (s : ℕ) (old new : Transactions) (before after : Tables) →
        UndoesLevel s (length (levels_of old s)) old new → LeavesOwn old s before after →
        (key : RowKey) → standing new (versions_of after key) ≡ standing new (versions_of before key) }
    ensures chunks { (s : ℕ) (old new : Transactions) (before after : Tables) →
        UndoesLevel s (length (levels_of old s)) old new → LeavesOwn old s before after →
        StandsAlike new before.chunks after.chunks }
    // Calls in a row leave what each of them does, and one that did nothing leaves nothing.
    ensures both { (x : Transactions) (s : ℕ) (a b c : Tables) → LeavesOwn x s a b →
        LeavesOwn x s b c → LeavesOwn x s a c }
    ensures same { (x : Transactions) (s : ℕ) (a : Tables) → LeavesOwn x s a a }
{}
