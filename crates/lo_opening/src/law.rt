//! Laws of what plain data mean. No code calls these functions.
ghost use Rattle.std.specs.Prelude.{◌≡◌, ◌≤◌, ℕ, List, length, map, Some};
ghost use Rattle.lo_model.specs.Opening.{written_pages, page_of, needs_cut, object_deeds};
ghost use Rattle.lo_opening.specs.declared.opening.ObjectData.{ObjectData};
ghost use Rattle.lo_opening.specs.Meaning.{stored_at, bytes_of, object_of, load_deeds, stored_of, number_of, data_of, opening_of};
ghost use Rattle.lo_opening.specs.Opening.{AreBlocks, IsObject, IsOpening, OpeningData, has_tail};

/// What an object's stored blocks tell of its bytes, and the deeds that load it. No code runs.
pub fn objects_loaded()
    ensures size { (held : ℕ) (o : ObjectData) → IsObject held o → length (bytes_of o) ≡ o.size }
    ensures pages { (held : ℕ) (o : ObjectData) → IsObject held o →
        written_pages (bytes_of o) ≡ map number_of o.stored }
    ensures bytes { (held : ℕ) (o : ObjectData) → IsObject held o → (b : ℕ) (bytes : List ℕ) →
        stored_at b o.stored ≡ Some bytes → page_of (bytes_of o) b ≡ bytes }
    ensures cut { (held : ℕ) (o : ObjectData) → IsObject held o →
        needs_cut (bytes_of o) ≡ has_tail o.size 0 o.stored }
    ensures deeds { (held : ℕ) (o : ObjectData) → IsObject held o →
        object_deeds (object_of o) ≡ load_deeds o }
{}

/// What is stored of some bytes are blocks of an object, whose bytes these are. No code runs.
pub fn objects_saved()
    ensures bytes { (oid : ℕ) (bytes : List ℕ) →
        bytes_of (record { oid = oid; size = length bytes; stored = stored_of bytes }) ≡ bytes }
    ensures blocks { (bytes : List ℕ) → length bytes ≤ 4398046509056 →
        AreBlocks (length bytes) 0 (stored_of bytes) }
{}

/// What an opening means tells the opening: there is no other of the same bytes, rows and numbers. No code runs.
pub fn openings_are_data()
    ensures { (d : OpeningData) → IsOpening d → data_of (opening_of d) ≡ d }
{}
