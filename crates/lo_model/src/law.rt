ghost use Rattle.lo_model.specs.Laws.{MeetsAtAPart, MeetsWhereShared, ListsObjects, ObjectsAscend, ListsRows, RowsAscend, HoldsWhatIsRead, HoldsOnce};

/// What is touched meets exactly where some page, object or row is touched by both. No code runs.
pub fn conflicts()
    ensures shared { MeetsAtAPart }
    ensures met { MeetsWhereShared }
{}

/// What is listed of a view are exactly its objects, and exactly a table's rows, each once and ascending. No code runs.
pub fn listings()
    ensures oids { ListsObjects }
    ensures oids_ascend { ObjectsAscend }
    ensures ids { ListsRows }
    ensures ids_ascend { RowsAscend }
{}

/// What is held is exactly what some kept view reads, each version once. No code runs.
pub fn holdings()
    ensures read { HoldsWhatIsRead }
    ensures once { HoldsOnce }
{}
