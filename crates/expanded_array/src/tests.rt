//! Worked values, and each public call once.
use crate::*;
use lo_base::{Bytes, Cause, Denied, Refusal};
use std::alloc::{AllocError, Global};
use std::process::Abort;
use std::test::Fail;

/// An array with a null in it: the numbers 1, 2, two nulls and 5, from subscript 1.
const WITH_GAP: [u8; 40] = [
    1, 0, 0, 0, 32, 0, 0, 0, 23, 0, 0, 0, 5, 0, 0, 0, 1, 0, 0, 0, 19, 0, 0, 0, 0, 0, 0, 0, 1, 0, 0,
    0, 2, 0, 0, 0, 5, 0, 0, 0,
];

const ONE_TWO: [u8; 28] = [
    1, 0, 0, 0, 0, 0, 0, 0, 23, 0, 0, 0, 2, 0, 0, 0, 1, 0, 0, 0, 1, 0, 0, 0, 2, 0, 0, 0,
];

const EMPTY: [u8; 12] = [0, 0, 0, 0, 0, 0, 0, 0, 23, 0, 0, 0];

fn texts_as(rt: &impl Abort, array: &ArrayVar, out: &mut Bytes, text: &[u8]) -> Result<(), Fail> {
    let before = out.items().len();
    array.text(out)?;
    assert!(rt; before <= out.items().len());
    assert!(rt; &out.items()[before..] == text);
    Ok(())
}

#[test]
fn sets_and_prints(rt: HostRuntime) -> Result<(), Fail> {
    assert!(rt; is_flat(&ONE_TWO));
    let mut array = ArrayVar::from_flat(Bytes::from_slice(rt.alloc(), &ONE_TWO)?);
    let mut out = Bytes::new(rt.alloc());
    texts_as(&rt, &array, &mut out, b"{1,2}")?;
    assert_eq!(rt; array.get(2), Some(2));
    assert!(rt; array.set(5, Some(5)).is_ok());
    texts_as(&rt, &array, &mut out, b"{1,2,NULL,NULL,5}")?;
    let mut flat = [0; 40];
    assert_eq!(rt; array.flat_len(), 40);
    array.flatten_into(&mut flat);
    assert!(rt; flat == WITH_GAP);
    assert!(rt; array.set(0, Some(9)).is_ok());
    texts_as(&rt, &array, &mut out, b"[0:5]={9,1,2,NULL,NULL,5}")?;
    assert_eq!(rt; array.get(3), None);
    assert_eq!(rt; array.get(0), Some(9));
    assert_eq!(rt; array.get(6), None);
    Ok(())
}

/// A variable that begins flat or, where it is changed to begin with, expanded, answers alike.
#[test]
fn changes_empty(rt: HostRuntime) -> Result<(), Fail> {
    assert!(rt; is_flat(&EMPTY));
    let mut array = ArrayVar::from_flat(Bytes::from_slice(rt.alloc(), &EMPTY)?);
    let mut out = Bytes::new(rt.alloc());
    texts_as(&rt, &array, &mut out, b"{}")?;
    assert_eq!(rt; array.flat_len(), 12);
    let mut flat = [1; 12];
    array.flatten_into(&mut flat);
    assert!(rt; flat == EMPTY);
    let refused = array.set(i32::MAX, None);
    assert!(rt; refused == too_big(1_048_577));
    assert!(rt; array.set(5, Some(7)).is_ok());
    texts_as(&rt, &array, &mut out, b"[5:5]={7}")?;
    assert!(rt; array.set(5, None).is_ok());
    texts_as(&rt, &array, &mut out, b"[5:5]={NULL}")?;
    Ok(())
}

fn too_big_array(subject: i64) -> Denied {
    Denied::By(Refusal {
        cause: Cause::ArrayTooBig,
        subject,
    })
}

fn too_big(subject: i64) -> Result<(), Denied> {
    Err(too_big_array(subject))
}

/// The limit itself is allowed, one element more is not, and then nothing has changed.
#[test]
fn refuses_too_big(rt: HostRuntime) -> Result<(), Fail> {
    assert!(rt; is_flat(&WITH_GAP));
    let mut array = ArrayVar::from_flat(Bytes::from_slice(rt.alloc(), &WITH_GAP)?);
    assert!(rt; array.set(0, Some(-1)).is_ok());
    assert!(rt; array.set(1_048_577, Some(1)) == too_big(1_048_578));
    assert!(rt; array.set(1_048_576, Some(1)) == too_big(1_048_577));
    assert_eq!(rt; array.flat_len(), 44);
    assert!(rt; array.set(1_048_575, Some(1)).is_ok());
    assert_eq!(rt; array.get(1_048_575), Some(1));
    assert_eq!(rt; array.get(1_048_574), None);
    assert!(rt; array.set(-1, None) == too_big(1_048_577));
    Ok(())
}

/// Flat bytes, and what is not quite so.
#[test]
fn tells_flat_bytes(rt: HostRuntime) {
    let table: [(&[u8], bool); 24] = [
        (&[], false),
        (&EMPTY, true),
        (&[0, 0, 0, 0, 1, 0, 0, 0, 23, 0, 0, 0], false),
        (&[0, 0, 0, 0, 0, 0, 0, 0, 24, 0, 0, 0], false),
        (&[0, 0, 0, 0, 0, 0, 0, 0, 23, 0, 0, 0, 0], false),
        (&[0, 0, 0, 0, 0, 0, 0, 0, 23, 0, 0], false),
        (&ONE_TWO, true),
        // no element, an element cut short, a byte more, two dimensions, another type
        (
            &[1, 0, 0, 0, 0, 0, 0, 0, 23, 0, 0, 0, 0, 0, 0, 0, 1, 0, 0, 0],
            false,
        ),
        (
            &[
                1, 0, 0, 0, 0, 0, 0, 0, 23, 0, 0, 0, 1, 0, 0, 0, 1, 0, 0, 0, 1, 0, 0,
            ],
            false,
        ),
        (
            &[
                1, 0, 0, 0, 0, 0, 0, 0, 23, 0, 0, 0, 1, 0, 0, 0, 1, 0, 0, 0, 1, 0, 0, 0, 0,
            ],
            false,
        ),
        (
            &[
                2, 0, 0, 0, 0, 0, 0, 0, 23, 0, 0, 0, 1, 0, 0, 0, 1, 0, 0, 0, 1, 0, 0, 0,
            ],
            false,
        ),
        (
            &[
                1, 0, 0, 0, 0, 0, 0, 0, 20, 0, 0, 0, 1, 0, 0, 0, 1, 0, 0, 0, 1, 0, 0, 0,
            ],
            false,
        ),
        // last subscripts 2147483646 and 2147483647, the least lower bound
        (
            &[
                1, 0, 0, 0, 0, 0, 0, 0, 23, 0, 0, 0, 1, 0, 0, 0, 254, 255, 255, 127, 1, 0, 0, 0,
            ],
            true,
        ),
        (
            &[
                1, 0, 0, 0, 0, 0, 0, 0, 23, 0, 0, 0, 1, 0, 0, 0, 255, 255, 255, 127, 1, 0, 0, 0,
            ],
            false,
        ),
        (
            &[
                1, 0, 0, 0, 0, 0, 0, 0, 23, 0, 0, 0, 1, 0, 0, 0, 0, 0, 0, 128, 1, 0, 0, 0,
            ],
            true,
        ),
        (&WITH_GAP, true),
        // a null alone; a bitmap that says no null
        (
            &[
                1, 0, 0, 0, 32, 0, 0, 0, 23, 0, 0, 0, 1, 0, 0, 0, 1, 0, 0, 0, 0, 0, 0, 0, 0, 0, 0,
                0,
            ],
            true,
        ),
        (
            &[
                1, 0, 0, 0, 32, 0, 0, 0, 23, 0, 0, 0, 1, 0, 0, 0, 1, 0, 0, 0, 1, 0, 0, 0, 0, 0, 0,
                0, 1, 0, 0, 0,
            ],
            false,
        ),
        // a bit behind the last element, a bit of padding, data offsets without the length word and too far
        (
            &[
                1, 0, 0, 0, 32, 0, 0, 0, 23, 0, 0, 0, 1, 0, 0, 0, 1, 0, 0, 0, 2, 0, 0, 0, 0, 0, 0,
                0, 1, 0, 0, 0,
            ],
            false,
        ),
        (
            &[
                1, 0, 0, 0, 32, 0, 0, 0, 23, 0, 0, 0, 1, 0, 0, 0, 1, 0, 0, 0, 0, 0, 0, 0, 0, 0, 0,
                128,
            ],
            false,
        ),
        (
            &[
                1, 0, 0, 0, 28, 0, 0, 0, 23, 0, 0, 0, 1, 0, 0, 0, 1, 0, 0, 0, 0, 0, 0, 0, 0, 0, 0,
                0,
            ],
            false,
        ),
        (
            &[
                1, 0, 0, 0, 40, 0, 0, 0, 23, 0, 0, 0, 1, 0, 0, 0, 1, 0, 0, 0, 0, 0, 0, 0, 0, 0, 0,
                0,
            ],
            false,
        ),
        // an element missing, and one too many, behind a bitmap
        (
            &[
                1, 0, 0, 0, 32, 0, 0, 0, 23, 0, 0, 0, 2, 0, 0, 0, 1, 0, 0, 0, 1, 0, 0, 0, 0, 0, 0,
                0,
            ],
            false,
        ),
        (
            &[
                1, 0, 0, 0, 32, 0, 0, 0, 23, 0, 0, 0, 2, 0, 0, 0, 1, 0, 0, 0, 0, 0, 0, 0, 0, 0, 0,
                0, 1, 0, 0, 0,
            ],
            false,
        ),
    ];
    for (bytes, flat) in table {
        assert!(rt; is_flat(bytes) == flat, "{bytes:?}");
    }
}

/// Texts, and what is printed of the array that each spells.
#[test]
fn reads_texts(rt: HostRuntime) -> Result<(), Fail> {
    let table: [(&[u8], &[u8]); 9] = [
        (b"{}", b"{}"),
        (b"{1,2}", b"{1,2}"),
        (b"{null,NULL,nUlL}", b"{NULL,NULL,NULL}"),
        (b"{+5,-0,+0,007,-08}", b"{5,0,0,7,-8}"),
        (b"{-2147483648,2147483647}", b"{-2147483648,2147483647}"),
        (b"[1:2]={1,2}", b"{1,2}"),
        (b"[0:5]={9,1,2,NULL,NULL,5}", b"[0:5]={9,1,2,NULL,NULL,5}"),
        (
            b"[-2147483648:-2147483648]={7}",
            b"[-2147483648:-2147483648]={7}",
        ),
        (
            b"[2147483646:2147483646]={7}",
            b"[2147483646:2147483646]={7}",
        ),
    ];
    let mut out = Bytes::new(rt.alloc());
    for (text, printed) in table {
        match ArrayVar::from_text(rt.alloc(), text) {
            Ok(array) => texts_as(&rt, &array, &mut out, printed)?,
            Err(_) => assert!(rt; false, "{text:?}"),
        }
    }
    Ok(())
}

/// Texts that spell no array.
#[test]
fn refuses_texts(rt: HostRuntime) {
    let table: [&[u8]; 33] = [
        b"",
        b"{",
        b"}",
        b"1",
        b"{1,",
        b"{1,}",
        b"{,1}",
        b"{1,,2}",
        b"{ 1}",
        b"{1 }",
        b"{1} ",
        b" {1}",
        b"{+}",
        b"{-}",
        b"{--1}",
        b"{0x1}",
        b"{nul}",
        b"{\xff}",
        b"{{1}}",
        b"{2147483648}",
        b"{-2147483649}",
        b"[2:1]={}",
        b"[2:1]={1}",
        b"[0:0]={}",
        b"[1:3]={1,2}",
        b"[2147483647:2147483647]={1}",
        b"[2147483648:2147483648]={1}",
        b"[-2147483648:2147483647]={1}",
        b"[01:2]={1,2}",
        b"[+1:2]={1,2}",
        b"[-0:1]={1,2}",
        b"[1:2]{1,2}",
        b"[1:2]={1,2",
    ];
    for text in table {
        match ArrayVar::from_text(rt.alloc(), text) {
            Ok(_) => assert!(rt; false, "{text:?}"),
            Err(denied) => assert!(rt; denied == bad_array(), "{text:?}"),
        }
    }
}

fn bad_array() -> Denied {
    Denied::By(Refusal {
        cause: Cause::BadArray,
        subject: 0,
    })
}

/// The text of so many elements, of which the last is given and the others are 1.
fn long_text(alloc: Global, count: usize, last: &[u8]) -> Result<Vec<u8>, AllocError> {
    let mut text = Vec::from_slice(alloc, b"{")?;
    for _ in 1..count {
        text.extend_from_slice(b"1,")?;
    }
    text.extend_from_slice(last)?;
    text.push(b'}')?;
    Ok(text)
}

/// As many elements as there may be are read.
#[test]
fn reads_the_longest_text(rt: HostRuntime) -> Result<(), Fail> {
    let alloc = rt.alloc();
    match ArrayVar::from_text(alloc, &long_text(alloc, 1_048_576, b"7")?) {
        Ok(array) => {
            assert_eq!(rt; array.flat_len(), 4_194_324);
            assert_eq!(rt; array.get(1_048_576), Some(7));
        }
        Err(_) => assert!(rt; false),
    }
    Ok(())
}

fn check_too_long(
    rt: &impl Abort,
    alloc: Global,
    last: &[u8],
    refusal: Denied,
) -> Result<(), Fail> {
    match ArrayVar::from_text(alloc, &long_text(alloc, 1_048_577, last)?) {
        Ok(_) => assert!(rt; false),
        Err(denied) => assert!(rt; denied == refusal),
    }
    Ok(())
}

/// One element more is too many.
#[test]
fn refuses_a_longer_text(rt: HostRuntime) -> Result<(), Fail> {
    check_too_long(&rt, rt.alloc(), b"7", too_big_array(1_048_577))
}

/// But a malformed one among them is what counts.
#[test]
fn refuses_a_longer_malformed_text(rt: HostRuntime) -> Result<(), Fail> {
    check_too_long(&rt, rt.alloc(), b"x", bad_array())
}

/// An array that grows below its first element a hundred thousand times, and then by a gap.
#[test]
fn grows_below(rt: HostRuntime) -> Result<(), Fail> {
    assert!(rt; is_flat(&ONE_TWO));
    let mut array = ArrayVar::from_flat(Bytes::from_slice(rt.alloc(), &ONE_TWO)?);
    let mut sub: i32 = 1;
    for step in 0..100_000 {
        sub = sub.saturating_sub(1);
        assert!(rt; array.set(sub, Some(step)).is_ok());
    }
    assert!(rt; array.set(-300_000, None).is_ok());
    assert_eq!(rt; array.get(2), Some(2));
    assert_eq!(rt; array.get(0), Some(0));
    assert_eq!(rt; array.get(-99_999), Some(99_999));
    assert_eq!(rt; array.get(-100_000), None);
    assert!(rt; array.set(1_000_000, Some(5)) == too_big(1_300_001));
    assert!(rt; array.set(700_000, Some(5)).is_ok());
    assert_eq!(rt; array.get(-1), Some(1));
    assert_eq!(rt; array.get(700_000), Some(5));
    Ok(())
}

#[test]
fn laws_are_called() {
    flat_bytes_are_read();
    flat_bytes_tell();
    printed_text_spells();
    set_changes_one();
    text_spells_one();
    texts_are_read();
}

/// An array that was read answers as one that was flat.
#[test]
fn changes_what_was_read(rt: HostRuntime) -> Result<(), Fail> {
    let Ok(mut array) = ArrayVar::from_text(rt.alloc(), b"{1,2}") else {
        assert!(rt; false);
        return Ok(());
    };
    let mut out = Bytes::new(rt.alloc());
    assert_eq!(rt; array.flat_len(), 28);
    let mut flat = [0; 28];
    array.flatten_into(&mut flat);
    assert!(rt; flat == ONE_TWO);
    assert!(rt; array.set(0, Some(9)).is_ok());
    texts_as(&rt, &array, &mut out, b"[0:2]={9,1,2}")?;
    assert!(rt; array.set(1_048_577, Some(1)) == too_big(1_048_578));
    texts_as(&rt, &array, &mut out, b"[0:2]={9,1,2}")
}
