// Laws of tables as plain data. No code calls these functions.
ghost use Rattle.std.specs.Prelude.{◌≡◌, ◌≤◌, ℕ, List, [], None, length, map};
ghost use Rattle.lo_model.specs.Edit.{Deed, Edit, deeds};
ghost use Rattle.xact_core.specs.Ends.{Opens};
ghost use Rattle.xact_core.specs.Kept.{current};
ghost use Rattle.xact_core.specs.Transactions.{Transactions, beginning};
ghost use Rattle.row_tables.specs.declared.tables.Tables.{Tables};
ghost use Rattle.row_tables.specs.Cursors.{AreOpen, holds_of};
ghost use Rattle.row_tables.specs.Standing.{GoWith, StandFor, cursors_in, tables_in};
ghost use Rattle.lo_opening.specs.declared.opening.TableData.{TableData};
ghost use Rattle.lo_opening.specs.Opening.{AreTables};
ghost use Rattle.lo_restore.specs.Tables.{deeds_in, named_of, rows_of};
ghost use Rattle.lo_restore.specs.TablesRestored.{HaveDone, IsAlone};
ghost use Rattle.lo_restore.specs.TablesSaved.{AreRowsFit, CanBeSaved, tables_with_rows};

/// Edits that do what plain tables say have these tables again, and their rows fit: what was restored can be saved as it was.
pub fn restored_tables_stand()
    ensures same { (list : List TableData) (es : List (Edit Deed)) → AreTables None 1 1 list →
        deeds es ≡ deeds_in list → tables_with_rows es (map named_of list) ≡ map rows_of list }
    ensures fit { (list : List TableData) (es : List (Edit Deed)) → AreTables None 1 1 list →
        deeds es ≡ deeds_in list → AreRowsFit (map named_of list) es }
    ensures saved { (x : Transactions) (s : ℕ) (tables : Tables) (list : List TableData) →
        AreTables None 1 1 list → length list ≤ 1000 →
        HaveDone x s tables (map named_of list) (deeds_in list) →
        CanBeSaved x tables (current x s) }
{}

/// A store at its beginning, in which one session has begun its transaction, can take tables.
pub fn new_tables_are_empty()
    ensures alone { (s : ℕ) (x : Transactions) → Opens s None beginning x → IsAlone x s }
    ensures none { (s : ℕ) (x : Transactions) (tables : Tables) → Opens s None beginning x →
        tables_in tables ≡ [] → StandFor x tables [] → GoWith x tables →
        AreOpen x (cursors_in tables) → holds_of (cursors_in tables) ≡ [] →
        HaveDone x s tables [] [] }
{}
