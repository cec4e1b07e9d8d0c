// Each form on tables, cursors and array variables once or more, and the ends of what their tokens may be.
use crate::read_script;
use lo_base::{Assign, ColType, Column, Literal, Request, SessionNo, Storage};
use std::test::Fail;

/// Columns of each type, with each storage that it can name.
const COLUMNS: &[u8] = b"A: create table t id:int8
A: create table _t1 id:int8 i:int8 o:oid l:lo b:bytea a:int4[]
A: create table t id:int8 b:bytea:plain c:bytea:external d:bytea:extended e:bytea:main
A: create table t id:int8 b:int4[]:plain c:int4[]:external d:int4[]:extended e:int4[]:main
A: create table table id:int8 table:lo
A: rewrite t a:plain b:external c:extended d:main id:main
";

/// The column of the request's list at that place.
fn column_at(request: &Request, place: usize) -> Option<&Column> {
    match request {
        Request::CreateTable(_, columns) | Request::Rewrite(_, columns) => {
            columns.items().get(place)
        }
        _ => None,
    }
}

fn is_column(
    request: &Request,
    place: usize,
    name: &[u8],
    kind: ColType,
    storage: Storage,
) -> bool {
    match column_at(request, place) {
        Some(c) => c.name.items() == name && c.kind == kind && c.storage == storage,
        None => false,
    }
}

#[test]
fn columns_are_read(rt: HostRuntime) -> Result<(), Fail> {
    let script = read_script(rt.alloc(), COLUMNS)?;
    let first = SessionNo::new(1).ok_or("no session")?;
    let [one, types, bytes, arrays, words, storages] = script.programs.lines(first) else {
        return Err(Fail::from("six lines were expected"));
    };
    assert!(rt; is_column(one, 0, b"id", ColType::Int8, Storage::Plain));
    assert!(rt; column_at(one, 1).is_none());
    assert!(rt;
        matches!(types, Request::CreateTable(name, _) if name.items() == b"_t1".as_slice())
    );
    assert!(rt; is_column(types, 1, b"i", ColType::Int8, Storage::Plain));
    assert!(rt; is_column(types, 2, b"o", ColType::Oid, Storage::Plain));
    assert!(rt; is_column(types, 3, b"l", ColType::Lo, Storage::Plain));
    assert!(rt; is_column(types, 4, b"b", ColType::Bytea, Storage::Extended));
    assert!(rt; is_column(types, 5, b"a", ColType::Int4Array, Storage::Extended));
    assert!(rt; is_column(bytes, 1, b"b", ColType::Bytea, Storage::Plain));
    assert!(rt; is_column(bytes, 2, b"c", ColType::Bytea, Storage::External));
    assert!(rt; is_column(bytes, 3, b"d", ColType::Bytea, Storage::Extended));
    assert!(rt; is_column(bytes, 4, b"e", ColType::Bytea, Storage::Main));
    assert!(rt; is_column(arrays, 1, b"b", ColType::Int4Array, Storage::Plain));
    assert!(rt; is_column(arrays, 2, b"c", ColType::Int4Array, Storage::External));
    assert!(rt; is_column(arrays, 3, b"d", ColType::Int4Array, Storage::Extended));
    assert!(rt; is_column(arrays, 4, b"e", ColType::Int4Array, Storage::Main));
    assert!(rt; is_column(words, 1, b"table", ColType::Lo, Storage::Plain));
    assert!(rt; matches!(storages, Request::Rewrite(_, columns) if columns.items().len() == 5));
    assert!(rt; is_column(storages, 0, b"a", ColType::Bytea, Storage::Plain));
    assert!(rt; is_column(storages, 1, b"b", ColType::Bytea, Storage::External));
    assert!(rt; is_column(storages, 2, b"c", ColType::Bytea, Storage::Extended));
    assert!(rt; is_column(storages, 3, b"d", ColType::Bytea, Storage::Main));
    assert!(rt; is_column(storages, 4, b"id", ColType::Bytea, Storage::Main));
    Ok(())
}

/// Values of each kind, and changes, which are cut at their first `=`.
const VALUES: &[u8] =
    b"A: insert t 1 null -9223372036854775808 \\x \\xFf0a {1,NULL} [0:0]={1} { @null
A: update t -5 a=[0:0]={1} null=null b=\\x41 c=@_c d=9223372036854775807 e={}
";

fn are_values(values: &[Literal]) -> bool {
    match values {
        [
            Literal::Number(1),
            Literal::Null,
            Literal::Number(-9223372036854775808),
            Literal::Bytes(none),
            Literal::Bytes(two),
            Literal::ArrayText(list),
            Literal::ArrayText(bounds),
            Literal::ArrayText(brace),
            Literal::Variable(name),
        ] => {
            none.items().is_empty()
                && two.items() == b"\xff\x0a".as_slice()
                && list.items() == b"{1,NULL}".as_slice()
                && bounds.items() == b"[0:0]={1}".as_slice()
                && brace.items() == b"{".as_slice()
                && name.items() == b"null".as_slice()
        }
        _ => false,
    }
}

fn are_changes(changes: &[Assign]) -> bool {
    let [array, null, bytes, variable, number, empty] = changes else {
        return false;
    };
    array.column.items() == b"a".as_slice()
        && matches!(&array.value, Literal::ArrayText(text) if text.items() == b"[0:0]={1}".as_slice())
        && null.column.items() == b"null".as_slice()
        && matches!(&null.value, Literal::Null)
        && bytes.column.items() == b"b".as_slice()
        && matches!(&bytes.value, Literal::Bytes(b) if b.items() == b"A".as_slice())
        && variable.column.items() == b"c".as_slice()
        && matches!(&variable.value, Literal::Variable(name) if name.items() == b"_c".as_slice())
        && number.column.items() == b"d".as_slice()
        && matches!(&number.value, Literal::Number(9223372036854775807))
        && empty.column.items() == b"e".as_slice()
        && matches!(&empty.value, Literal::ArrayText(text) if text.items() == b"{}".as_slice())
}

#[test]
fn values_and_changes_are_read(rt: HostRuntime) -> Result<(), Fail> {
    let script = read_script(rt.alloc(), VALUES)?;
    let first = SessionNo::new(1).ok_or("no session")?;
    let [insert, update] = script.programs.lines(first) else {
        return Err(Fail::from("two lines were expected"));
    };
    assert!(rt;
        matches!(insert, Request::Insert(name, values) if name.items() == b"t".as_slice() && are_values(values.items()))
    );
    assert!(rt;
        matches!(update, Request::Update(name, -5, changes) if name.items() == b"t".as_slice() && are_changes(changes.items()))
    );
    Ok(())
}

/// The forms on rows, cursors and array variables, with numbers at the ends of their ranges.
const FORMS: &[u8] = b"A: delete t -9223372036854775808
A: get t 9223372036854775807
A: ids t
A: slice t 1 c -9223372036854775808 9223372036854775807
A: declare c t 0
A: fetch c d 0 -1
A: close c
P: array a 5
P: array a \\x{\xff
P: load a t -1 c
P: set a -2147483648 null
P: set a 2147483647 -2147483648
P: elem a 0
P: show a
";

fn are_row_forms(lines: &[Request]) -> bool {
    match lines {
        [
            Request::Delete(_, -9223372036854775808),
            Request::Get(_, 9223372036854775807),
            Request::Ids(table),
            Request::Slice(row, 1, part, -9223372036854775808, 9223372036854775807),
            Request::Declare(cursor, of, 0),
            Request::Fetch(from, column, 0, -1),
            Request::Close(closed),
        ] => {
            table.items() == b"t".as_slice()
                && row.items() == b"t".as_slice()
                && part.items() == b"c".as_slice()
                && cursor.items() == b"c".as_slice()
                && of.items() == b"t".as_slice()
                && from.items() == b"c".as_slice()
                && column.items() == b"d".as_slice()
                && closed.items() == b"c".as_slice()
        }
        _ => false,
    }
}

fn are_array_forms(lines: &[Request]) -> bool {
    match lines {
        [
            Request::Array(name, number),
            Request::Array(_, bytes),
            Request::Load(variable, table, -1, column),
            Request::Set(_, -2147483648, None),
            Request::Set(_, 2147483647, Some(-2147483648)),
            Request::Elem(_, 0),
            Request::Show(shown),
        ] => {
            name.items() == b"a".as_slice()
                && number.items() == b"5".as_slice()
                && bytes.items() == b"\\x{\xff".as_slice()
                && variable.items() == b"a".as_slice()
                && table.items() == b"t".as_slice()
                && column.items() == b"c".as_slice()
                && shown.items() == b"a".as_slice()
        }
        _ => false,
    }
}

#[test]
fn forms_on_rows_cursors_and_arrays_are_read(rt: HostRuntime) -> Result<(), Fail> {
    let script = read_script(rt.alloc(), FORMS)?;
    let first = SessionNo::new(1).ok_or("no session")?;
    let last = SessionNo::new(16).ok_or("no session")?;
    assert!(rt; are_row_forms(script.programs.lines(first)));
    assert!(rt; are_array_forms(script.programs.lines(last)));
    Ok(())
}
