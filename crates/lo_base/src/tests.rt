// What no clause says: printed texts, and each list type taken once at its item.
ghost use Rattle.std.specs.Prelude.{◌≡◌, ◌<◌};

use crate::{
    Assign, Assignments, Bytes, Cause, Cell, Cells, ColType, Column, ColumnList, Ids, ListOf,
    Literal, Literals, Name, NoMemory, Oids, Refusal, Request, Requests, RowList, SessionNo, Steps,
    Storage, Value, Values, is_name,
};
use std::alloc::Global;
use std::marker::Brand;
use std::process::Abort;
use std::sync::ledger::{Blank, Ledger};
use std::test::Fail;

// The table of all causes is an example that the checker computes; here a few are printed.
#[test]
fn refusals_print_their_codes_and_texts(rt: HostRuntime) -> Result<(), Fail> {
    for (cause, code, text) in [
        (Cause::NoBlock, "25P01", "no transaction block is open"),
        (
            Cause::NoDescriptor,
            "42704",
            "invalid large-object descriptor: -7",
        ),
        (
            Cause::RowTooBig,
            "54000",
            "row is too big: size -7, maximum size 8160",
        ),
    ] {
        let refusal = Refusal { cause, subject: -7 };
        let mut printed = Bytes::new(rt.alloc());
        refusal.text(&mut printed)?;
        assert_eq!(rt; refusal.code().as_str(), code);
        assert_eq!(rt; printed.items(), text.as_bytes());
    }
    Ok(())
}

// The list with one item, which is the only one then.
fn holds_one<T: Drop>(rt: &impl Abort, alloc: Global, item: T) -> Result<ListOf<T>, NoMemory> {
    let mut list = ListOf::new(alloc);
    assert!(rt; list.items().is_empty());
    list.push(item)?;
    assert_eq!(rt; list.items().len(), 1);
    Ok(list)
}

#[test]
fn lists_of_numbers_take_an_item(rt: HostRuntime) -> Result<(), Fail> {
    let bytes: Bytes = holds_one(&rt, rt.alloc(), 65)?;
    let oids: Oids = holds_one(&rt, rt.alloc(), 17000)?;
    let ids: Ids = holds_one(&rt, rt.alloc(), -1)?;
    assert_eq!(rt; bytes.items(), b"A".as_slice());
    assert_eq!(rt; oids.items(), [17000].as_slice());
    assert_eq!(rt; ids.items(), [-1].as_slice());
    Ok(())
}

#[test]
fn lists_of_values_take_an_item(rt: HostRuntime) -> Result<(), Fail> {
    let values: Values = holds_one(&rt, rt.alloc(), Value::Int(7))?;
    let _rows: RowList = holds_one(&rt, rt.alloc(), values)?;
    let _literals: Literals = holds_one(&rt, rt.alloc(), Literal::Null)?;
    let _cells: Cells = holds_one(&rt, rt.alloc(), Cell::Null)?;
    Ok(())
}

#[test]
fn lists_of_columns_take_an_item(rt: HostRuntime) -> Result<(), Fail> {
    let name: Name = holds_one(&rt, rt.alloc(), b't')?;
    let column = Column {
        name,
        kind: ColType::Bytea,
        storage: Storage::External,
    };
    let _columns: ColumnList = holds_one(&rt, rt.alloc(), column)?;
    Ok(())
}

#[test]
fn lists_of_requests_take_an_item(rt: HostRuntime) -> Result<(), Fail> {
    let assign = Assign {
        column: Name::new(rt.alloc()),
        value: Literal::Number(8),
    };
    let _assignments: Assignments = holds_one(&rt, rt.alloc(), assign)?;
    let _requests: Requests = holds_one(&rt, rt.alloc(), Request::LoGet(17000, 0, None))?;
    Ok(())
}

#[test]
fn lists_grow_by_slices_and_give_their_vectors(rt: HostRuntime) -> Result<(), Fail> {
    let mut bytes = Bytes::from_slice(rt.alloc(), b"ab")?;
    bytes.extend(b"cd")?;
    assert_eq!(rt; bytes.items(), b"abcd".as_slice());
    let again = Bytes::from_vec(bytes.into_vec());
    assert_eq!(rt; again.items(), b"abcd".as_slice());
    Ok(())
}

#[test]
fn names_have_1_to_63_bytes_and_a_right_first_one(rt: HostRuntime) {
    let longest = [b'a'; 63];
    let too_long = [b'a'; 64];
    assert!(rt; is_name(&longest));
    assert!(rt; !is_name(&too_long));
    for name in ["a", "z", "_", "_0", "a9", "id", "t_1"] {
        assert!(rt; is_name(name.as_bytes()), "{name}");
    }
    for name in [
        "", "0", "9a", "A", "Z", "aB", "a-b", "a b", " a", "`", "{", "a.b", "\u{e9}",
    ] {
        assert!(rt; !is_name(name.as_bytes()), "{name}");
    }
}

#[test]
fn sessions_are_numbered_1_to_16(rt: HostRuntime) {
    assert_eq!(rt; SessionNo::new(1).map(|s| s.place()), Some(0));
    assert_eq!(rt; SessionNo::new(16).map(|s| s.number()), Some(16));
    assert_eq!(rt; SessionNo::new(0), None);
    assert_eq!(rt; SessionNo::new(17), None);
}

fn count_two<L: Ledger>(blank: Blank)
    requires name { blank.name ≡ L.name }
    requires parts { blank.parts ≡ L.parts }
    requires some { 0 < blank.parts }
{
    let mut steps: Steps<L> = Steps::new(blank);
    steps.tick();
    steps.tick();
}

#[test]
fn a_caller_that_counts_nothing_makes_a_counter(rt: HostRuntime) {
    count_two::<Brand>(Blank::new(1));
    let _ = rt;
}
