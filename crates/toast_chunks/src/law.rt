// Laws of chunks that layers above live on, over all calls of the transactions. No code calls these functions.
ghost use Rattle.std.specs.Prelude.{◌≡◌, ◌≤◌, ◌<◌, ◌+◌, ℕ, false, List, [], ◌∷◌, ◌++◌, length, Option};
ghost use Rattle.lo_model.specs.declared.owner.Owner.TheVariants.{Running};
ghost use Rattle.lo_model.specs.declared.viewer.Viewer.TheVariants.{Whole};
ghost use Rattle.lo_model.specs.Edit.{Edit};
ghost use Rattle.lo_model.specs.Levels.{released, undone, aborted, committed};
ghost use Rattle.lo_model.specs.View.{sees, view};
ghost use Rattle.xact_core.specs.declared.snapshot.Snapshot.{Snapshot};
ghost use Rattle.xact_core.specs.Ends.{Opens};
ghost use Rattle.xact_core.specs.Kept.{HoldsOthers, HoldsWholeViews};
ghost use Rattle.xact_core.specs.Transactions.{Transactions, levels_of};
ghost use Rattle.row_versions.specs.Calls.{Releases, UndoesLevel, Commits, Aborts, Ticks};
ghost use Rattle.row_versions.specs.Looks.{IsLook};
ghost use Rattle.row_versions.specs.Stack.{Each, IsStack, IsFreeFor};
ghost use Rattle.row_versions.specs.Stands.{made_now};
ghost use Rattle.toast_chunks.specs.declared.chunks.Chunks.{Chunks};
ghost use Rattle.toast_chunks.specs.Calls.{Erases, IsFree, LeavesOwn, StandsAlike, Stores, Vacuums};
ghost use Rattle.toast_chunks.specs.Standing.{NoneLeft, Stand, left_by};
ghost use Rattle.toast_chunks.specs.Values.{GoWith, HasValue, versions_of};

/// Chunks that go with their transactions do so after each call of them.
pub fn chunks_go()
    ensures released { (s k : ℕ) (old new : Transactions) (chunks : Chunks) →
        Releases s k old new → GoWith old chunks → GoWith new chunks }
    ensures undone { (s k : ℕ) (old new : Transactions) (chunks : Chunks) →
        UndoesLevel s k old new → GoWith old chunks → GoWith new chunks }
    ensures aborted { (s : ℕ) (old new : Transactions) (chunks : Chunks) → Aborts s old new →
        GoWith old chunks → GoWith new chunks }
    ensures committed { (s : ℕ) (old new : Transactions) (chunks : Chunks) → Commits s old new →
        GoWith old chunks → GoWith new chunks }
    ensures ticked { (old new : Transactions) (chunks : Chunks) → Ticks old new →
        GoWith old chunks → GoWith new chunks }
    ensures opened { (s : ℕ) (name : Option (List ℕ)) (old new : Transactions) (chunks : Chunks) →
        Opens s name old new → GoWith old chunks → GoWith new chunks }
    ensures held { (old new : Transactions) (chunks : Chunks) → HoldsOthers old new →
        GoWith old chunks → GoWith new chunks }
{}

/// The chunks of a value that stand for the edits of a place do so after each call of the transactions, for what it makes of
/// these edits, after an edit, after calls that change other values, and after a vacuum.
pub fn values_stand<E>()
    ensures released { (gives : ℕ → E → List ℕ) (s k : ℕ) (old new : Transactions) (chunks : Chunks)
        (value : ℕ) (ys : List (Edit E)) → Releases s k old new →
        Stand gives old chunks value ys → Stand gives new chunks value (released s k ys) }
    ensures undone { (gives : ℕ → E → List ℕ) (s k : ℕ) (old new : Transactions) (chunks : Chunks)
        (value : ℕ) (ys : List (Edit E)) → UndoesLevel s k old new →
        Stand gives old chunks value ys → Stand gives new chunks value (undone s k ys) }
    ensures aborted { (gives : ℕ → E → List ℕ) (s : ℕ) (old new : Transactions) (chunks : Chunks)
        (value : ℕ) (ys : List (Edit E)) → Aborts s old new →
        Stand gives old chunks value ys → Stand gives new chunks value (aborted s ys) }
    ensures committed { (gives : ℕ → E → List ℕ) (s : ℕ) (old new : Transactions) (chunks : Chunks)
        (value : ℕ) (ys : List (Edit E)) → Commits s old new →
        Stand gives old chunks value ys → Stand gives new chunks value (committed s old.clock ys) }
    ensures ticked { (gives : ℕ → E → List ℕ) (old new : Transactions) (chunks : Chunks)
        (value : ℕ) (ys : List (Edit E)) → Ticks old new →
        Stand gives old chunks value ys → Stand gives new chunks value ys }
    ensures opened { (gives : ℕ → E → List ℕ) (s : ℕ) (name : Option (List ℕ))
        (old new : Transactions) (chunks : Chunks) (value : ℕ) (ys : List (Edit E)) →
        Opens s name old new → Stand gives old chunks value ys → Stand gives new chunks value ys }
    ensures held { (gives : ℕ → E → List ℕ) (old new : Transactions) (chunks : Chunks)
        (value : ℕ) (ys : List (Edit E)) → HoldsOthers old new →
        Stand gives old chunks value ys → Stand gives new chunks value ys }
    // An edit that leaves a value which was stored for it.
    ensures stored { (gives : ℕ → E → List ℕ) (x : Transactions) (s : ℕ) (bytes : List ℕ)
        (old new : Chunks) (value : ℕ) (ys : List (Edit E)) (deed : E) → 1 ≤ s →
        0 < length (levels_of x s) → HoldsWholeViews x →
        Each (λ (e : Edit E). IsFreeFor s e.owner) ys → IsStack x ys → NoneLeft gives ys →
        gives x.clock deed ≡ bytes → Stores x s bytes old new value →
        Stand gives x new value (ys ++ made_now x s deed ∷ []) }
    // An edit that leaves none, for which the value was erased.
    ensures erased { (gives : ℕ → E → List ℕ) (x : Transactions) (s : ℕ) (bytes : List ℕ)
        (old new : Chunks) (value : ℕ) (ys : List (Edit E)) (deed : E) → 1 ≤ s →
        0 < length (levels_of x s) → HoldsWholeViews x →
        Each (λ (e : Edit E). IsFreeFor s e.owner) ys →
        left_by gives (view (x.clock + 1) (Whole s) ys) ≡ bytes →
        gives x.clock deed ≡ [] → Erases x s value bytes old new → Stand gives x old value ys →
        Stand gives x new value (ys ++ made_now x s deed ∷ []) }
    // An edit that leaves what its maker has, for which no chunk changes.
    ensures kept { (gives : ℕ → E → List ℕ) (x : Transactions) (s : ℕ) (chunks : Chunks)
        (value : ℕ) (ys : List (Edit E)) (deed : E) → 1 ≤ s → 0 < length (levels_of x s) →
        HoldsWholeViews x → Each (λ (e : Edit E). IsFreeFor s e.owner) ys →
        gives x.clock deed ≡ left_by gives (view (x.clock + 1) (Whole s) ys) →
        Stand gives x chunks value ys →
        Stand gives x chunks value (ys ++ made_now x s deed ∷ []) }
    // A value of which no chunk changes.
    ensures others { (gives : ℕ → E → List ℕ) (x : Transactions) (old new : Chunks) (value : ℕ)
        (ys : List (Edit E)) → ((k : ℕ) → versions_of new value k ≡ versions_of old value k) →
        Stand gives x old value ys → Stand gives x new value ys }
    ensures vacuumed { (gives : ℕ → E → List ℕ) (x : Transactions) (old new : Chunks) (value : ℕ)
        (ys : List (Edit E)) → Vacuums x old new → Stand gives x old value ys →
        Stand gives x new value ys }
    // What calls left that found no memory is gone with the level that they were made in.
    ensures restored { (gives : ℕ → E → List ℕ) (s : ℕ) (old new : Transactions)
        (before after : Chunks) (value : ℕ) (ys : List (Edit E)) →
        UndoesLevel s (length (levels_of old s)) old new → LeavesOwn old s before after →
        GoWith old after → Stand gives old before value ys →
        Stand gives new after value (undone s (length (levels_of old s)) ys) }
{}

/// What a kept view has of a value is what its last edit leaves, and whoever may make an edit of the place may erase the value.
pub fn values_read<E>()
    ensures reads { (gives : ℕ → E → List ℕ) (x : Transactions) (chunks : Chunks) (value : ℕ)
        (ys : List (Edit E)) (v : Snapshot) → Stand gives x chunks value ys → IsLook x v →
        HasValue x v chunks value (left_by gives (view v.clock v.viewer ys)) }
    ensures free { (gives : ℕ → E → List ℕ) (x : Transactions) (s : ℕ) (chunks : Chunks)
        (value : ℕ) (ys : List (Edit E)) → Stand gives x chunks value ys →
        Each (λ (e : Edit E). IsFreeFor s e.owner) ys → IsFree x s chunks value }
{}

/// What calls left, also where one found no memory: a view that does not see the session's top level has the values that it had,
/// and once that level is undone, of each chunk the versions stand that stood before the calls.
pub fn versions_left()
    ensures unseen { (x : Transactions) (s : ℕ) (old new : Chunks) (v : Snapshot) (value : ℕ)
        (bytes : List ℕ) → LeavesOwn x s old new →
        sees v.clock v.viewer x.clock (Running s (length (levels_of x s))) ≡ false →
        HasValue x v old value bytes → HasValue x v new value bytes }
    ensures gone { (s : ℕ) (old new : Transactions) (before after : Chunks) →
        UndoesLevel s (length (levels_of old s)) old new → LeavesOwn old s before after →
        StandsAlike new before after }
    // Calls in a row leave what each of them does, and one that did nothing leaves nothing.
    ensures both { (x : Transactions) (s : ℕ) (a b c : Chunks) → LeavesOwn x s a b →
        LeavesOwn x s b c → LeavesOwn x s a c }
    ensures same { (x : Transactions) (s : ℕ) (a : Chunks) → LeavesOwn x s a a }
{}
