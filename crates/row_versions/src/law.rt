// Laws of versions that layers above live on, each over all calls of the transactions. No code calls these functions.
ghost use Rattle.std.specs.Prelude.{◌≡◌, ◌≤◌, ◌<◌, ◌+◌, ℕ, false, Bool, List, [], ◌∷◌, ◌++◌, length, Option, Contains};
ghost use Rattle.lo_model.specs.declared.viewer.Viewer.TheVariants.{Whole};
ghost use Rattle.lo_model.specs.declared.viewer.Viewer.{Viewer};
ghost use Rattle.lo_model.specs.Edit.{Edit};
ghost use Rattle.lo_model.specs.Levels.{released, undone, committed};
ghost use Rattle.lo_model.specs.View.{view};
ghost use Rattle.xact_core.specs.declared.snapshot.Snapshot.{Snapshot};
ghost use Rattle.xact_core.specs.Ends.{Opens, Turns, release, undo, commit_at};
ghost use Rattle.xact_core.specs.Kept.{kept_views, HoldsOthers, HoldsWholeViews};
ghost use Rattle.xact_core.specs.Laws.{before_release, before_undo};
ghost use Rattle.xact_core.specs.Transactions.{Transactions, levels_of};
ghost use Rattle.row_versions.specs.Calls.{Releases, UndoesLevel, Commits, Aborts, Ticks};
ghost use Rattle.row_versions.specs.Count.{ListsHeld, clocks_left};
ghost use Rattle.row_versions.specs.Stack.{Each, Pairwise, IsStack, IsFreeFor};
ghost use Rattle.row_versions.specs.Stands.{Version, Stands, Fits, IsNew, AddsOwn, Erases, made_now, after_all, standing, vacuumed, before_commit, lowest_other};
ghost use Rattle.row_versions.specs.Store.{GoesWith};
ghost use Rattle.row_versions.specs.Vacuum.{any_open, found, reclaimed, FoundUnlessErasure, OneOwner};
ghost use Rattle.row_versions.specs.declared.store.Store.{Store};

use crate::key::Key;

/// A store that goes with its transactions does so after each call of them.
pub fn store_goes<K: Key, D: Drop>()
    ensures released { (s k : ℕ) (old new : Transactions) (store : Store K D) → Releases s k old new
        → GoesWith K.cmp old store → GoesWith K.cmp new store }
    ensures undone { (s k : ℕ) (old new : Transactions) (store : Store K D)
        → UndoesLevel s k old new
        → GoesWith K.cmp old store → GoesWith K.cmp new store }
    ensures committed { (s : ℕ) (old new : Transactions) (store : Store K D) → Commits s old new
        → GoesWith K.cmp old store → GoesWith K.cmp new store }
    ensures aborted { (s : ℕ) (old new : Transactions) (store : Store K D) → Aborts s old new
        → GoesWith K.cmp old store → GoesWith K.cmp new store }
    ensures ticked { (old new : Transactions) (store : Store K D) → Ticks old new
        → GoesWith K.cmp old store
        → GoesWith K.cmp new store }
    ensures opened { (s : ℕ) (name : Option (List ℕ)) (old new : Transactions) (store : Store K D)
        → Opens s name old new → GoesWith K.cmp old store → GoesWith K.cmp new store }
    ensures held { (old new : Transactions) (store : Store K D) → HoldsOthers old new
        → GoesWith K.cmp old store → GoesWith K.cmp new store }
{}

/// The versions of a key that stand for the edits of a place do so after each call of the transactions, after an edit, after a
/// vacuum, and after the undoing of a call that found no memory.
pub fn versions_stand<D, E, S>()
    ensures none { (value : ℕ → D → S) (after : S → ℕ → E → S) (first : S) (x : Transactions)
        → Stands x value after first [] [] }
    ensures released { (value : ℕ → D → S) (after : S → ℕ → E → S) (first : S) (s k : ℕ)
        (old new : Transactions)
        (vs : List (Version D)) (ys : List (Edit E)) → Releases s k old new
        → Stands old value after first vs ys → Stands new value after first vs (released s k ys) }
    ensures undone { (value : ℕ → D → S) (after : S → ℕ → E → S) (first : S) (s k : ℕ)
        (old new : Transactions)
        (vs : List (Version D)) (ys : List (Edit E)) → UndoesLevel s k old new
        → Stands old value after first vs ys → Stands new value after first vs (undone s k ys) }
    ensures committed { (value : ℕ → D → S) (after : S → ℕ → E → S) (first : S) (s : ℕ)
        (old new : Transactions)
        (vs : List (Version D)) (ys : List (Edit E)) → Commits s old new
        → Stands old value after first vs ys
        → Stands new value after first vs (committed s old.clock ys) }
    ensures aborted { (value : ℕ → D → S) (after : S → ℕ → E → S) (first : S) (s : ℕ)
        (old new : Transactions)
        (vs : List (Version D)) (ys : List (Edit E)) → Aborts s old new
        → Stands old value after first vs ys → Stands new value after first vs (undone s 1 ys) }
    ensures ticked { (value : ℕ → D → S) (after : S → ℕ → E → S) (first : S)
        (old new : Transactions)
        (vs : List (Version D)) (ys : List (Edit E)) → Ticks old new
        → Stands old value after first vs ys → Stands new value after first vs ys }
    ensures opened { (value : ℕ → D → S) (after : S → ℕ → E → S) (first : S) (s : ℕ)
        (name : Option (List ℕ))
        (old new : Transactions) (vs : List (Version D)) (ys : List (Edit E))
        → Opens s name old new → Stands old value after first vs ys
        → Stands new value after first vs ys }
    ensures held { (value : ℕ → D → S) (after : S → ℕ → E → S) (first : S) (old new : Transactions)
        (vs : List (Version D)) (ys : List (Edit E)) → HoldsOthers old new
        → Stands old value after first vs ys → Stands new value after first vs ys }
    // A put that makes of the place what an edit makes of it in the maker's own view.
    ensures pushed { (value : ℕ → D → S) (after : S → ℕ → E → S) (first : S) (x : Transactions)
        (s : ℕ)
        (vs : List (Version D)) (ys : List (Edit E)) (put : Version D) (deed : E) → 1 ≤ s
        → 0 < length (levels_of x s) → HoldsWholeViews x → IsNew x s put
        → Each (λ (e : Edit E). IsFreeFor s e.owner) ys → value x.clock put.deed
        ≡ after (after_all after first (view (x.clock + 1) (Whole s) ys)) x.clock deed
        → Stands x value after first vs ys → Stands x value after first (vs ++ put ∷ [])
        (ys ++ made_now x s deed ∷ []) }
    // An edit that touches the place and leaves it, for which nothing is put.
    ensures touched { (value : ℕ → D → S) (after : S → ℕ → E → S) (first : S) (x : Transactions)
        (s : ℕ)
        (vs : List (Version D)) (ys : List (Edit E)) (deed : E) → 1 ≤ s
        → 0 < length (levels_of x s) → HoldsWholeViews x
        → Each (λ (e : Edit E). IsFreeFor s e.owner) ys
        → after_all after first (view (x.clock + 1) (Whole s) ys)
        ≡ after (after_all after first (view (x.clock + 1) (Whole s) ys)) x.clock deed
        → Stands x value after first vs ys
        → Stands x value after first vs (ys ++ made_now x s deed ∷ []) }
    ensures vacuumed { (erases : D → Bool) (value : ℕ → D → S) (after : S → ℕ → E → S) (first : S)
        (x : Transactions) (vs : List (Version D)) (ys : List (Edit E))
        → Erases erases value first → Stands x value after first vs ys
        → Stands x value after first (vacuumed erases x vs) ys }
    // What a call that found no memory has put is gone with the level that it was made in.
    ensures restored { (value : ℕ → D → S) (after : S → ℕ → E → S) (first : S) (s : ℕ)
        (old new : Transactions)
        (vs us : List (Version D)) (ys : List (Edit E))
        → Turns (undo s (length (levels_of old s))) old new → AddsOwn old s vs us → Fits new us
        → Stands new value after first vs ys → Stands new value after first us ys }
    // What a version gives may be read in another way that gives the same.
    ensures revalued { (value value' : ℕ → D → S) (after : S → ℕ → E → S) (first : S)
        (x : Transactions)
        (vs : List (Version D)) (ys : List (Edit E))
        → Each (λ (v : Version D). (clock : ℕ) → value' clock v.deed ≡ value clock v.deed) vs
        → Stands x value after first vs ys → Stands x value' after first vs ys }
{}

/// The ends of levels and transactions do to the standing versions of a key what they do to edits, with no change of a version.
pub fn edits_turn<D>()
    ensures released { (s k : ℕ) (old new : Transactions) (vs : List (Version D)) → Turns
        (release s k) old new
        → Fits old vs → standing new vs ≡ released s k (standing old vs) }
    ensures undone { (s k : ℕ) (old new : Transactions) (vs : List (Version D)) → Turns
        (undo s k) old new
        → Fits old vs → standing new vs ≡ undone s k (standing old vs) }
    ensures committed { (s c : ℕ) (old new : Transactions) (vs : List (Version D)) → Turns
        (commit_at s c) old new
        → Fits old vs → standing new vs ≡ committed s c (standing old vs) }
{}

/// Who has a place open after an end is told by who had it open before. Lists that the same sessions have open have the same
/// lowest other session.
pub fn open_turns<D, E>()
    ensures released { (s k : ℕ) (viewer : Viewer) (es : List (Edit D)) → 1 ≤ k
        → any_open viewer (released s k es) ≡ any_open (before_release s k viewer) es }
    ensures undone { (s k : ℕ) (viewer : Viewer) (es : List (Edit D)) → any_open viewer
        (undone s k es)
        ≡ any_open (before_undo s k viewer) es }
    ensures committed { (s c : ℕ) (viewer : Viewer) (es : List (Edit D)) → any_open viewer
        (committed s c es)
        ≡ any_open (before_commit s viewer) es }
    ensures lowest { (s : ℕ) (xs : List (Edit D)) (ys : List (Edit E))
        → ((t : ℕ) → any_open (Whole t) xs ≡ any_open (Whole t) ys) → lowest_other s xs
        ≡ lowest_other s ys }
{}

/// What a vacuum keeps of the versions of a key, and how much it leaves: the puts that kept views find, each once.
pub fn vacuum_keeps<D>()
    ensures leaves { (erases : D → Bool) (x : Transactions) (vs : List (Version D))
        → standing x (vacuumed erases x vs) ≡ reclaimed erases (kept_views x) (standing x vs) }
    ensures finds { (erases : D → Bool) (views : List Snapshot) (v : Snapshot) → Contains views v
        → (es : List (Edit D)) → found erases v (reclaimed erases views es) ≡ found erases v es }
    ensures open { (erases : D → Bool) (x : Transactions) (viewer : Viewer) (es : List (Edit D))
        → IsStack x es → any_open viewer (reclaimed erases (kept_views x) es) ≡ any_open viewer es }
    ensures stack { (erases : D → Bool) (views : List Snapshot) (x : Transactions)
        (es : List (Edit D))
        → IsStack x es → IsStack x (reclaimed erases views es) }
    ensures puts { (erases : D → Bool) (views : List Snapshot) (es : List (Edit D))
        → Each (FoundUnlessErasure erases views es) (reclaimed erases views es) }
    ensures held { (erases : D → Bool) (views : List Snapshot) (es : List (Edit D))
        → Pairwise OneOwner es
        → ListsHeld erases views es (clocks_left erases (reclaimed erases views es)) }
    ensures few { (erases : D → Bool) (views : List Snapshot) (es : List (Edit D))
        → length (reclaimed erases views es) ≤ length views }
{}
