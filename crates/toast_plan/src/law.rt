//! Laws of the definitions, for whoever judges them and for the crates above. No code runs.
ghost use Rattle.std.specs.Prelude.{◌≡◌, ◌++◌, ℕ, List};
ghost use Rattle.lo_base.specs.declared.column.Column.{Column};
ghost use Rattle.lo_base.specs.declared.value.Value.{Value};
ghost use Rattle.toast_plan.specs.Choice.{moves_first, moves_second};
ghost use Rattle.toast_plan.specs.Row.{AreFields, Field, IsRow, planned_fields, row_form};
ghost use Rattle.toast_plan.specs.Laws.{HasRow, OneMarkEach, SmallStay, NullsStay, PlainStay, LongerFirst, FirstNeeded, SecondNeeded, FirstEnough, SecondEnough};

/// What holds of every plan, whichever way it was found.
pub fn plan_laws()
    ensures one_mark_each { OneMarkEach }
    // Values of 23 bytes or fewer, nulls and values of PLAIN stay in the row.
    ensures small_stay { SmallStay }
    ensures nulls_stay { NullsStay }
    ensures plain_stay { PlainStay }
    // No longer value of a round stays where a shorter one moves, and of equal ones none of an earlier column.
    ensures longer_first { LongerFirst moves_first }
    ensures longer_main_first { LongerFirst moves_second }
    // With the last value that a round moved left in the row, its target is missed.
    ensures first_needed { FirstNeeded }
    ensures second_needed { SecondNeeded }
    // Where a value stays that a round could move, its target is met.
    ensures first_enough { FirstEnough }
    ensures second_enough { SecondEnough }
{}

/// Values that fit their columns, with those outside that their plan moves, make a row, unless it is too big.
pub fn rows_of_values()
    ensures { (columns : List Column) (table first : ℕ) (values : List Value) →
        HasRow columns table first values → IsRow columns (planned_fields columns table first values) }
{}

/// A row's bytes tell its fields and where it ends, whatever follows.
pub fn rows_are_told()
    ensures fields { (columns : List Column) (xs ys : List Field) (behind after : List ℕ) →
        AreFields columns xs → AreFields columns ys → row_form xs ++ behind ≡ row_form ys ++ after → xs ≡ ys }
    ensures rest { (columns : List Column) (xs ys : List Field) (behind after : List ℕ) →
        AreFields columns xs → AreFields columns ys → row_form xs ++ behind ≡ row_form ys ++ after → behind ≡ after }
{}
