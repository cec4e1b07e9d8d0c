// Laws of pages that layers above live on, over all calls of the transactions. No code calls these functions.
ghost use Rattle.std.specs.Prelude.{◌≡◌, ◌≤◌, ℕ, ℤ, false, List, [], ◌∷◌, ◌++◌, length, Option, None, Contains};
ghost use Rattle.lo_base.specs.declared.value.Value.{Value};
ghost use Rattle.lo_model.specs.declared.owner.Owner.TheVariants.{Running};
ghost use Rattle.lo_model.specs.declared.viewer.Viewer.{Viewer};
ghost use Rattle.lo_model.specs.Descriptor.{bytes_or_none};
ghost use Rattle.lo_model.specs.Edit.{Deed, Put, Delete, Edit};
ghost use Rattle.lo_model.specs.Held.{PageVersion, versions_in};
ghost use Rattle.lo_model.specs.Levels.{released, undone, aborted, committed};
ghost use Rattle.lo_model.specs.Numbering.{is_on};
ghost use Rattle.lo_model.specs.Object.{object_in};
ghost use Rattle.lo_model.specs.Touch.{touched, busy_with};
ghost use Rattle.lo_model.specs.View.{sees, view};
ghost use Rattle.xact_core.specs.declared.snapshot.Snapshot.{Snapshot};
ghost use Rattle.xact_core.specs.Ends.{Opens};
ghost use Rattle.xact_core.specs.Kept.{HoldsOthers};
ghost use Rattle.xact_core.specs.Transactions.{Transactions, levels_of};
ghost use Rattle.row_versions.specs.Calls.{Releases, UndoesLevel, Commits, Aborts, Ticks};
ghost use Rattle.row_versions.specs.Looks.{IsLook};
ghost use Rattle.row_versions.specs.Stack.{Pairwise};
ghost use Rattle.row_versions.specs.Stands.{made_now};
ghost use Rattle.row_versions.specs.Vacuum.{OneOwner};
ghost use Rattle.lo_pages.specs.declared.pages.Pages.{Pages};
ghost use Rattle.lo_pages.specs.Calls.{IsMaker};
ghost use Rattle.lo_pages.specs.Content.{at_page};
ghost use Rattle.lo_pages.specs.Held.{HasFirst, HasPageVersion};
ghost use Rattle.lo_pages.specs.Outcome.{LeavesOwn, StandsAlike};
ghost use Rattle.lo_pages.specs.Standing.{GoWith, StandFor, ReadsAs};

/// Pages that go with their transactions do so after each call of them.
pub fn pages_go()
    ensures released { (s k : ℕ) (old new : Transactions) (pages : Pages) → Releases s k old new →
        GoWith old pages → GoWith new pages }
    ensures undone { (s k : ℕ) (old new : Transactions) (pages : Pages) → UndoesLevel s k old new →
        GoWith old pages → GoWith new pages }
    ensures aborted { (s : ℕ) (old new : Transactions) (pages : Pages) → Aborts s old new →
        GoWith old pages → GoWith new pages }
    ensures committed { (s : ℕ) (old new : Transactions) (pages : Pages) → Commits s old new →
        GoWith old pages → GoWith new pages }
    ensures ticked { (old new : Transactions) (pages : Pages) → Ticks old new → GoWith old pages →
        GoWith new pages }
    ensures opened { (s : ℕ) (name : Option (List ℕ)) (old new : Transactions) (pages : Pages) →
        Opens s name old new → GoWith old pages → GoWith new pages }
    ensures held { (old new : Transactions) (pages : Pages) → HoldsOthers old new →
        GoWith old pages → GoWith new pages }
{}

/// Pages that stand for edits stand, after each call of the transactions, for what it makes of these edits. An edit of a row
/// is none of pages.
pub fn pages_stand()
    ensures released { (s k : ℕ) (old new : Transactions) (pages : Pages) (ys : List (Edit Deed)) →
        Releases s k old new → StandFor old pages ys → StandFor new pages (released s k ys) }
    ensures undone { (s k : ℕ) (old new : Transactions) (pages : Pages) (ys : List (Edit Deed)) →
        UndoesLevel s k old new → StandFor old pages ys → StandFor new pages (undone s k ys) }
    ensures aborted { (s : ℕ) (old new : Transactions) (pages : Pages) (ys : List (Edit Deed)) →
        Aborts s old new → StandFor old pages ys → StandFor new pages (aborted s ys) }
    ensures committed { (s : ℕ) (old new : Transactions) (pages : Pages) (ys : List (Edit Deed)) →
        Commits s old new → StandFor old pages ys → StandFor new pages (committed s old.clock ys) }
    ensures ticked { (old new : Transactions) (pages : Pages) (ys : List (Edit Deed)) →
        Ticks old new → StandFor old pages ys → StandFor new pages ys }
    ensures opened { (s : ℕ) (name : Option (List ℕ)) (old new : Transactions) (pages : Pages)
        (ys : List (Edit Deed)) → Opens s name old new → StandFor old pages ys →
        StandFor new pages ys }
    ensures held { (old new : Transactions) (pages : Pages) (ys : List (Edit Deed)) →
        HoldsOthers old new → StandFor old pages ys → StandFor new pages ys }
    ensures put { (x : Transactions) (s : ℕ) (pages : Pages) (ys : List (Edit Deed))
        (table : List ℕ) (id : ℤ) (values : List Value) (stored : List (Option ℕ)) → IsMaker x s →
        busy_with s (touched (Put table id values stored)) ys ≡ None → StandFor x pages ys →
        StandFor x pages (ys ++ made_now x s (Put table id values stored) ∷ []) }
    ensures deleted { (x : Transactions) (s : ℕ) (pages : Pages) (ys : List (Edit Deed))
        (table : List ℕ) (id : ℤ) → IsMaker x s →
        busy_with s (touched (Delete table id)) ys ≡ None → StandFor x pages ys →
        StandFor x pages (ys ++ made_now x s (Delete table id) ∷ []) }
{}

/// What each kept view reads of pages is what its edits make. An edit changes no other object, and no view that does not see it.
pub fn pages_read()
    ensures reads { (x : Transactions) (pages : Pages) (ys : List (Edit Deed)) (v : Snapshot) →
        StandFor x pages ys → IsLook x v → ReadsAs x v pages (view v.clock v.viewer ys) }
    ensures unseen { (clock : ℕ) (viewer : Viewer) (ys : List (Edit Deed)) (e : Edit Deed) →
        sees clock viewer e.clock e.owner ≡ false →
        view clock viewer (ys ++ e ∷ []) ≡ view clock viewer ys }
    ensures others { (o clock : ℕ) (viewer : Viewer) (ys : List (Edit Deed)) (e : Edit Deed) →
        is_on o e.deed ≡ false →
        object_in o (view clock viewer (ys ++ e ∷ [])) ≡ object_in o (view clock viewer ys) }
    // No object is larger than what pages with numbers of 32 bits hold.
    ensures small { (x : Transactions) (v : Snapshot) (pages : Pages) (edits : List (Edit Deed)) →
        ReadsAs x v pages edits → (o : ℕ) →
        length (bytes_or_none (object_in o edits)) ≤ 8796093022208 }
{}

/// A view that has an edit has each earlier one that touched the same page and was not undone.
pub fn edits_closed()
    ensures closed { (x : Transactions) (pages : Pages) (ys : List (Edit Deed)) →
        StandFor x pages ys → (o b clock : ℕ) (viewer : Viewer) →
        HasFirst (view clock viewer (at_page o b ys)) (at_page o b ys) }
{}

/// What calls left, also where one found no memory: a view that does not see the session's top level reads what it read, and
/// once that level is undone, pages stand for what is left of the edits, with the versions that stood before the calls.
pub fn versions_left()
    ensures unseen { (x : Transactions) (s : ℕ) (old new : Pages) (v : Snapshot) (edits : List
        (Edit Deed)) → LeavesOwn x s old new →
        sees v.clock v.viewer x.clock (Running s (length (levels_of x s))) ≡ false →
        ReadsAs x v old edits → ReadsAs x v new edits }
    ensures undone { (s : ℕ) (old new : Transactions) (before after : Pages) (ys : List
        (Edit Deed)) → UndoesLevel s (length (levels_of old s)) old new →
        LeavesOwn old s before after → GoWith old after → StandFor old before ys →
        StandFor new after (undone s (length (levels_of old s)) ys) }
    ensures aborted { (s : ℕ) (old new : Transactions) (before after : Pages) (ys : List
        (Edit Deed)) → length (levels_of old s) ≡ 1 → Aborts s old new →
        LeavesOwn old s before after → GoWith old after → StandFor old before ys →
        StandFor new after (aborted s ys) }
    ensures gone { (s : ℕ) (old new : Transactions) (before after : Pages) →
        UndoesLevel s (length (levels_of old s)) old new → LeavesOwn old s before after →
        StandsAlike new before after }
    // Calls in a row leave what each of them does, and one that did nothing leaves nothing.
    ensures both { (x : Transactions) (s : ℕ) (a b c : Pages) → LeavesOwn x s a b →
        LeavesOwn x s b c → LeavesOwn x s a c }
    ensures same { (x : Transactions) (s : ℕ) (a : Pages) → LeavesOwn x s a a }
{}

/// The page versions that a view's edits have are those that the model counts among the versions which the view reads.
pub fn held_pages()
    ensures counted { (o b c : ℕ) (edits : List (Edit Deed)) → HasPageVersion o b c edits →
        Contains (versions_in edits) (PageVersion o b c) }
    ensures only { (o b c : ℕ) (edits : List (Edit Deed)) →
        Contains (versions_in edits) (PageVersion o b c) → HasPageVersion o b c edits }
{}
