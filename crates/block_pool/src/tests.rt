// Reads at each place of a block, a pool that is full and one of 512 MiB, and what a block costs. The contracts
// say the rest.
ghost use Rattle.std.specs.Prelude.{◌≡◌, ◌<◌, ◌≤◌, length};

use crate::room::Room;
use crate::{Pool, PoolFull};
use lo_base::Steps;
use std::alloc::Global;
use std::marker::Brand;
use std::mem::size_of;
use std::process::Abort;
use std::sync::ledger::{Blank, Ledger};
use std::test::Fail;

// Reads a block of these bytes from each place on, into four bytes, and compares how many came and what stands there then.
fn reads<L: Ledger>(
    rt: &impl Abort,
    alloc: Global,
    bytes: &[u8],
    cases: &[(u32, usize, &[u8])],
    blank: Blank,
) -> Result<(), Fail>
    requires fits { length bytes.now ≤ 2048 }
    requires name { blank.name ≡ L.name }
    requires parts { blank.parts ≡ L.parts }
    requires some { 0 < blank.parts }
{
    let mut steps: Steps<L> = Steps::new(blank);
    let mut pool = Pool::new(alloc, 1)?;
    let block = pool.take(bytes).ok().ok_or("full")?;
    for (at, count, left) in cases {
        let mut out = [b'.'; 4];
        assert_eq!(rt;
            pool.read(&block, *at, &mut out, &mut steps),
            *count,
            "from {at}"
        );
        assert_eq!(rt; out.as_slice(), *left, "from {at}");
    }
    Ok(())
}

#[test]
fn a_read_stops_at_the_end_and_leaves_the_rest(rt: HostRuntime) -> Result<(), Fail> {
    let cases: [(u32, usize, &[u8]); 7] = [
        (0, 4, b"abcd"),
        (3, 4, b"defg"),
        (4, 3, b"efg."),
        (6, 1, b"g..."),
        (7, 0, b"...."),
        (8, 0, b"...."),
        (u32::MAX, 0, b"...."),
    ];
    reads::<Brand>(&rt, rt.alloc(), b"abcdefg", &cases, Blank::new(1))
}

#[test]
fn a_block_of_2048_bytes_is_read_to_its_end(rt: HostRuntime) -> Result<(), Fail> {
    let cases: [(u32, usize, &[u8]); 3] = [
        (2044, 4, b"xxxx"),
        (2047, 1, b"x..."),
        (2048, 0, b"...."),
    ];
    reads::<Brand>(&rt, rt.alloc(), &[b'x'; 2048], &cases, Blank::new(1))
}

// Two blocks, one of them given back and taken again.
fn takes_again<L: Ledger>(rt: &impl Abort, alloc: Global, blank: Blank) -> Result<(), Fail>
    requires name { blank.name ≡ L.name }
    requires parts { blank.parts ≡ L.parts }
    requires some { 0 < blank.parts }
{
    let mut steps: Steps<L> = Steps::new(blank);
    let mut pool = Pool::new(alloc, 2)?;
    let first = pool.take(b"").ok().ok_or("full")?;
    let second = pool.take(b"bb").ok().ok_or("full")?;
    assert_eq!(rt; pool.take(b"d").err(), Some(PoolFull));
    pool.give(first);
    assert_eq!(rt; (pool.used(), pool.free()), (1, 1));
    let again = pool.take(b"c").ok().ok_or("full")?;
    assert_eq!(rt; (pool.used(), pool.free()), (2, 0));
    assert_eq!(rt; (pool.len(&again), pool.len(&second)), (1, 2));
    let mut out = [b'.'; 3];
    assert_eq!(rt; pool.read(&second, 0, &mut out, &mut steps), 2);
    assert_eq!(rt; out.as_slice(), b"bb.".as_slice());
    Ok(())
}

#[test]
fn a_full_pool_takes_again_what_was_given(rt: HostRuntime) -> Result<(), Fail> {
    takes_again::<Brand>(&rt, rt.alloc(), Blank::new(1))
}

#[test]
fn a_pool_of_512_mib_takes_ten_thousand_blocks(rt: HostRuntime) -> Result<(), Fail> {
    let mut pool = Pool::new(rt.alloc(), 262_144)?;
    // Each of these is dropped, and stays in use.
    for _ in 0..10_000u32 {
        assert!(rt; pool.take(&[b'x'; 2048]).is_ok());
    }
    assert_eq!(rt; (pool.used(), pool.free()), (10_000, 252_144));
    Ok(())
}

fn crosses<T: Send + Sync>(_value: &T) {}

#[test]
fn a_pool_and_its_blocks_may_go_to_another_thread(rt: HostRuntime) -> Result<(), Fail> {
    let mut pool = Pool::new(rt.alloc(), 1)?;
    let block = pool.take(b"").ok().ok_or("full")?;
    crosses(&block);
    crosses(&pool);
    Ok(())
}

#[test]
fn a_block_costs_at_most_16_bytes_more_than_it_holds(rt: HostRuntime) {
    let cost = size_of::<Room>() + size_of::<u32>();
    assert!(rt; cost <= 2048 + 16, "{cost}");
}
