//! Laws of the definitions, for whoever judges them and for the crates above. No code runs.
ghost use Rattle.std.specs.Prelude.{◌≡◌, ◌↔◌, ℕ, ℤ, List, Option, Some, if◌then◌else◌};
ghost use Rattle.std.specs.Ordering.{int_eq};
ghost use Rattle.expanded_array.specs.Array.{Array, IsArray, IsHeld, array_set, element_at};
ghost use Rattle.expanded_array.specs.Flat.{flat_bytes};
ghost use Rattle.expanded_array.specs.Layout.{array_in};
ghost use Rattle.expanded_array.specs.Read.{array_of_text};
ghost use Rattle.expanded_array.specs.Spelling.{Spells};
ghost use Rattle.expanded_array.specs.Text.{array_text};

/// Arrays with the same flat bytes are the same.
pub fn flat_bytes_tell()
    ensures { (a b : Array) → IsHeld a → IsHeld b → flat_bytes a ≡ flat_bytes b → a ≡ b }
{}

/// The array of flat bytes is read from them.
pub fn flat_bytes_are_read()
    ensures { (a : Array) → IsHeld a → array_in (flat_bytes a) ≡ a }
{}

/// Setting a subscript changes the element there and no other, inside the bounds and outside.
pub fn set_changes_one()
    ensures { (a : Array) (sub other : ℤ) (value : Option ℤ) →
        element_at (array_set a sub value) other ≡ (if int_eq other sub then value else element_at a other) }
{}

/// A text spells one array at most.
pub fn text_spells_one()
    ensures { (text : List ℕ) (a b : Array) → Spells text a → Spells text b → a ≡ b }
{}

/// The array that is computed of a text is the one that it spells: there is none exactly where it spells none.
pub fn texts_are_read()
    ensures { (text : List ℕ) (a : Array) → (array_of_text text ≡ Some a) ↔ Spells text a }
{}

/// The printed text of an array spells it, so that it is read as the same array.
pub fn printed_text_spells()
    ensures { (a : Array) → IsArray a → Spells (array_text a) a }
{}
