// The literals of a request: each is judged against its column, and gives it a value.
ghost use Rattle.std.specs.Prelude.{◌≡◌, ◌<◌, ◌≤◌, ◌^◌, pos, List, IfOk, IfErr, is_some, length};
ghost use Rattle.std.specs.List.{AllByRecursion};
ghost use Rattle.std.specs.Option.{option_copied};
ghost use Rattle.toast_plan.specs.Columns.{IsTableColumns};
ghost use Rattle.expanded_array.specs.Flat.{IsFlat, flat_bytes};
ghost use Rattle.lo_base.specs.declared.refusal.Denied.TheVariants.{By};
ghost use Rattle.row_tables.specs.Terms.{refusal};
ghost use Rattle.lo_machine.specs.Literals.{AreChangesOf, AreValuesOf, DeniesChanges, DeniesValues};
ghost use Rattle.lo_machine.specs.Literals.{DeniesChange, DeniesText, DeniesValue};
ghost use Rattle.lo_machine.specs.Literals.{IsArrayFrom, IsChangeOf, IsValueOf};
ghost use Rattle.lo_machine.specs.State.{Variable};
ghost use Rattle.lo_machine.specs.Values.{column_in, no_variable};
ghost use Rattle.lo_machine.specs.Variables.{IsAs};
ghost use Rattle.lo_machine.specs.Spelled.{AreChanges, IsLiteral};

use crate::arrays::no_variable;
use crate::variables::Variables;
use expanded_array::{ArrayVar, texts_are_read};
use lo_base::{
    Assign, Bytes, Cause, ColType, Column, Denied, ListOf, Literal, Name, NoMemory, Refusal, Value,
    Values,
};
use row_tables::Change;
use std::alloc::Global;

/// The name of the column that names the row.
const ID: &[u8] = b"id";

/// The values of a row. It is refused with `WrongType` where there are not as many literals as columns, and for the first literal
/// that is wrong: `NoVariable`, `WrongType`, `BadArray` or `ArrayTooBig`.
pub(crate) fn values_of(
    alloc: Global,
    own: &Variables,
    columns: &[Column],
    literals: &[Literal],
) -> Result<Values, Denied>
    requires columns { IsTableColumns columns.now }
    requires spelled { AllByRecursion IsLiteral literals.now }
    ensures ok { IfOk result (λ values. AreValuesOf own.now columns.now literals.now values) }
    ensures err { IfErr result (DeniesValues own.now columns.now literals.now) }
{
    if columns.len() != literals.len() {
        return Err(refused(Cause::WrongType, literals.len()));
    }
    let mut values = Values::new(alloc);
    for (index, column) in columns.iter().enumerate() {
        let value = value_of(alloc, own, column, index + 1, &literals[index])?;
        values.push(value)?;
    }
    Ok(values)
}

/// The changes of a row. It is refused for the first one that is wrong: `NoColumn`, `NoVariable`, `WrongType` (also for the column
/// `id`), `BadArray` or `ArrayTooBig`.
pub(crate) fn changes_of(
    alloc: Global,
    own: &Variables,
    columns: &[Column],
    changes: &[Assign],
) -> Result<ListOf<Change>, Denied>
    requires columns { IsTableColumns columns.now }
    requires spelled { AreChanges changes.now }
    ensures ok { IfOk result (λ given. AreChangesOf own.now columns.now changes.now given) }
    ensures err { IfErr result (DeniesChanges own.now columns.now changes.now) }
{
    let mut given = ListOf::new(alloc);
    for (index, change) in changes.iter().enumerate() {
        given.push(change_of(alloc, own, columns, index + 1, change)?)?;
    }
    Ok(given)
}

/// One change, which is judged: its column, and then its value. Its place among the changes is counted from 1.
fn change_of(
    alloc: Global,
    own: &Variables,
    columns: &[Column],
    place: usize,
    change: &Assign,
) -> Result<Change, Denied>
    requires few { place < 2 ^ 63 }
    requires spelled { IsLiteral change.now.value }
    ensures ok { IfOk result (IsChangeOf own.now columns.now place change.now) }
    ensures err { IfErr result (DeniesChange own.now columns.now place change.now) }
{
    let name = change.column.items();
    let Some(column) = column_in(columns, name) else {
        return Err(refused(Cause::NoColumn, place));
    };
    if is_absent(own, &change.value) {
        return Err(no_variable());
    }
    if column.name.items() == ID {
        return Err(refused(Cause::WrongType, place));
    }
    let value = value_of(alloc, own, column, place, &change.value)?;
    let column = Name::from_slice(alloc, name)?;
    Ok(Change { column, value })
}

/// The column of a name.
fn column_in<'a>(columns: &'a [Column], name: &[u8]) -> Option<&'a Column>
    ensures { option_copied result ≡ column_in name.now columns.now }
{
    columns.iter().find(|column| column.name.items() == name)
}

/// The value that a literal gives a column. Its place among the values or changes is counted from 1.
fn value_of(
    alloc: Global,
    own: &Variables,
    column: &Column,
    place: usize,
    literal: &Literal,
) -> Result<Value, Denied>
    requires few { place < 2 ^ 63 }
    requires spelled { IsLiteral literal.now }
    ensures ok { IfOk result (IsValueOf own.now column.now place literal.now) }
    ensures err { IfErr result (DeniesValue own.now column.now place literal.now) }
{
    match (column.kind, literal) {
        (_, Literal::Null) if column.name.items() != ID => Ok(Value::Null),
        (ColType::Int8, Literal::Number(n)) => Ok(Value::Int(*n)),
        (ColType::Oid | ColType::Lo, Literal::Number(n)) => match u32::try_from(*n) {
            Ok(oid) => Ok(Value::Oid(oid)),
            Err(_) => Err(refused(Cause::WrongType, place)),
        },
        (ColType::Bytea, Literal::Bytes(bytes)) => {
            Ok(Value::Bytes(Bytes::from_slice(alloc, bytes.items())?))
        }
        (ColType::Int4Array, Literal::ArrayText(text)) => {
            let array = array_from(alloc, text.items())?;
            Ok(Value::Bytes(flat_bytes(alloc, &array)?))
        }
        (kind, Literal::Variable(name)) => {
            let Some(array) = own.get(name) else {
                return Err(no_variable());
            };
            if !matches!(kind, ColType::Int4Array) {
                return Err(refused(Cause::WrongType, place));
            }
            Ok(Value::Bytes(flat_bytes(alloc, array)?))
        }
        _ => Err(refused(Cause::WrongType, place)),
    }
}

/// The array that a text spells. It is refused with `BadArray` and `ArrayTooBig`.
pub(crate) fn array_from(alloc: Global, text: &[u8]) -> Result<ArrayVar, Denied>
    ensures ok { IfOk result (IsArrayFrom text.now) }
    ensures err { IfErr result (DeniesText text.now) }
{
    texts_are_read();
    ArrayVar::from_text(alloc, text)
}

/// Whether a literal names a variable that is not there.
fn is_absent(own: &Variables, literal: &Literal) -> bool
    ensures { (variables : List Variable) → IsAs own.now variables →
        result ≡ is_some (no_variable variables literal.now) }
{
    match literal {
        Literal::Variable(name) => own.get(name).is_none(),
        _ => false,
    }
}

/// An array's flat bytes. It costs the array's elements.
fn flat_bytes(alloc: Global, array: &ArrayVar) -> Result<Bytes, NoMemory>
    ensures bytes { IfOk result (λ bytes. bytes ≡ flat_bytes array.now) }
    ensures flat { IfOk result IsFlat }
    ensures few { IfOk result (λ bytes. length bytes ≤ 4325392) }
{
    let mut flat = Vec::from_elem(alloc, 0, array.flat_len() as usize)?;
    array.flatten_into(&mut flat);
    Ok(Bytes::from_vec(flat))
}

/// A refusal whose subject is the place of a value.
fn refused(cause: Cause, place: usize) -> Denied
    requires few { place < 2 ^ 63 }
    ensures { result ≡ By (refusal cause (pos place)) }
{
    Denied::By(Refusal {
        cause,
        subject: place as i64,
    })
}
