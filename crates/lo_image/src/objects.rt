//! The large objects of an image, with their blocks.
ghost use Rattle.std.specs.Prelude.{◌≡◌, ◌<◌, ◌≤◌, ◌+◌, ◌^◌, length, IfOk};
ghost use Rattle.std.specs.Int.{w32, w64};
ghost use Rattle.lo_opening.specs.Opening.{block_length, all_zero};
ghost use Rattle.lo_image.specs.Readers.{Gives, piece, number, tested};
ghost use Rattle.lo_image.specs.Reading.{block_defect, zero_defect, block_at, blocks_at, oid_defect, size_defect, count_defect, object_at, after_object, objects_at};

use crate::fault::{Defect, Stop};
use crate::fields::{fails, fixed_u16, piece_at, u32_at, u64_at};
use crate::place::{BlockPlace, ObjectPlace};
use lo_base::{Bytes, ListOf};
use lo_opening::{ObjectData, ObjectList, StoredBlocks};
use std::alloc::Global;

const BLOCK_BYTES: u64 = 2048;

fn block_length(size: u64, number: u32) -> u16
    ensures { result ≡ block_length size number }
{
    size.saturating_sub(BLOCK_BYTES * number as u64)
        .min(BLOCK_BYTES) as u16
}

fn all_zero(bytes: &[u8]) -> bool
    ensures { result ≡ all_zero bytes.now }
{
    bytes.iter().all(|b| *b == 0)
}

fn block_defect(size: u64, place: BlockPlace, number: u32) -> Option<Defect>
    ensures { result ≡ block_defect size place number }
{
    let begin = BLOCK_BYTES * number as u64;
    if size <= begin {
        Some(Defect::Mismatch)
    } else if place.left == 1 && begin + BLOCK_BYTES < size && place.held >= 0xffff_ffff {
        Some(Defect::Range)
    } else if (number as u64) < place.least {
        Some(Defect::Order)
    } else {
        None
    }
}

fn block_number_at(size: u64, place: BlockPlace, bytes: &[u8]) -> Result<(u32, &[u8]), Stop>
    ensures { Gives (λ x. (x.0, x.1.now)) result (tested (block_defect size place) (number w32) bytes.now) }
{
    let (number, rest) = u32_at(bytes)?;
    if let Some(kind) = block_defect(size, place, number) {
        return Err(fails(kind, bytes));
    }
    Ok((number, rest))
}

fn block_bytes_at(count: usize, bytes: &[u8]) -> Result<(&[u8], &[u8]), Stop>
    ensures { Gives (λ x. (x.0.now, x.1.now)) result (tested zero_defect (piece count) bytes.now) }
{
    let (found, rest) = piece_at(count, bytes)?;
    if all_zero(found) {
        return Err(fails(Defect::Range, bytes));
    }
    Ok((found, rest))
}

fn block_at(
    alloc: Global,
    size: u64,
    place: BlockPlace,
    bytes: &[u8],
) -> Result<((u32, Bytes), &[u8]), Stop>
    ensures { Gives (λ x. (x.0, x.1.now)) result (block_at size place bytes.now) }
{
    let (number, rest) = block_number_at(size, place, bytes)?;
    let length = block_length(size, number);
    let rest = fixed_u16(length, rest)?;
    let (found, rest) = block_bytes_at(length as usize, rest)?;
    Ok(((number, ListOf::from_slice(alloc, found)?), rest))
}

fn blocks_at(
    alloc: Global,
    size: u64,
    held: u64,
    count: u32,
    bytes: &[u8],
) -> Result<(StoredBlocks, &[u8]), Stop>
    requires { held + count < 2 ^ 32 }
    ensures read { Gives (λ x. (x.0, x.1.now)) result (blocks_at size held count bytes.now) }
    ensures count { IfOk result (λ x. length x.0 ≡ count) }
{
    let mut blocks = ListOf::new(alloc);
    let mut place = BlockPlace {
        least: 0,
        left: count,
        held: held + count as u64,
    };
    let mut rest = bytes;
    for _ in 0..count {
        let (block, after) = block_at(alloc, size, place, rest)?;
        place = BlockPlace {
            least: block.0 as u64 + 1,
            left: place.left - 1,
            held: place.held,
        };
        blocks.push(block)?;
        rest = after;
    }
    Ok((blocks, rest))
}

fn oid_defect(least: u64, oid: u32) -> Option<Defect>
    ensures { result ≡ oid_defect least oid }
{
    if oid == 0 {
        Some(Defect::Range)
    } else if (oid as u64) < least {
        Some(Defect::Order)
    } else {
        None
    }
}

fn oid_at(least: u64, bytes: &[u8]) -> Result<(u32, &[u8]), Stop>
    ensures { Gives (λ x. (x.0, x.1.now)) result (tested (oid_defect least) (number w32) bytes.now) }
{
    let (oid, rest) = u32_at(bytes)?;
    if let Some(kind) = oid_defect(least, oid) {
        return Err(fails(kind, bytes));
    }
    Ok((oid, rest))
}

const SIZE_LIMIT: u64 = 4398046509056;

fn size_at(bytes: &[u8]) -> Result<(u64, &[u8]), Stop>
    ensures read { Gives (λ x. (x.0, x.1.now)) result (tested size_defect (number w64) bytes.now) }
    ensures small { IfOk result (λ x. x.0 ≤ 4398046509056) }
{
    let (size, rest) = u64_at(bytes)?;
    if size > SIZE_LIMIT {
        return Err(fails(Defect::Range, bytes));
    }
    Ok((size, rest))
}

const BLOCKS_LIMIT: u64 = 0x1_0000_0000;

fn count_defect(size: u64, held: u64, count: u32) -> Option<Defect>
    requires { size ≤ 4398046509056 }
    ensures { result ≡ count_defect size held count }
{
    let tail: u64 = if count == 0 && size > 0 { 1 } else { 0 };
    if (count as u64) > (size + (BLOCK_BYTES - 1)) / BLOCK_BYTES {
        Some(Defect::Mismatch)
    } else if held.saturating_add(count as u64 + tail) >= BLOCKS_LIMIT {
        Some(Defect::Range)
    } else {
        None
    }
}

fn count_at(size: u64, held: u64, bytes: &[u8]) -> Result<(u32, &[u8]), Stop>
    requires { size ≤ 4398046509056 }
    ensures read { Gives (λ x. (x.0, x.1.now)) result (tested (count_defect size held) (number w32) bytes.now) }
    ensures fits { IfOk result (λ x. held + x.0 < 2 ^ 32) }
{
    let (count, rest) = u32_at(bytes)?;
    if let Some(kind) = count_defect(size, held, count) {
        return Err(fails(kind, bytes));
    }
    Ok((count, rest))
}

fn object_at(alloc: Global, place: ObjectPlace, bytes: &[u8]) -> Result<(ObjectData, &[u8]), Stop>
    ensures read { Gives (λ x. (x.0, x.1.now)) result (object_at place bytes.now) }
    ensures fits { IfOk result (λ x. place.held + length x.0.stored < 2 ^ 32) }
{
    let (oid, rest) = oid_at(place.least, bytes)?;
    let (size, rest) = size_at(rest)?;
    let (count, rest) = count_at(size, place.held, rest)?;
    let (stored, rest) = blocks_at(alloc, size, place.held, count, rest)?;
    Ok((ObjectData { oid, size, stored }, rest))
}

fn after_object(place: ObjectPlace, object: &ObjectData) -> ObjectPlace
    requires { place.held + length object.now.stored < 2 ^ 32 }
    ensures { result ≡ after_object place object.now }
{
    ObjectPlace {
        least: object.oid as u64 + 1,
        held: place.held + object.blocks_held(),
    }
}

/// So many objects, where `held` blocks are held by what stands before them.
pub fn objects_at(
    alloc: Global,
    held: u64,
    count: u64,
    bytes: &[u8],
) -> Result<(ObjectList, &[u8]), Stop>
    ensures read { Gives (λ x. (x.0, x.1.now)) result (objects_at held count bytes.now) }
    ensures count { IfOk result (λ x. length x.0 ≡ count) }
{
    let mut objects = ListOf::new(alloc);
    let mut place = ObjectPlace { least: 0, held };
    let mut rest = bytes;
    for _ in 0..count {
        let (object, after) = object_at(alloc, place, rest)?;
        place = after_object(place, &object);
        objects.push(object)?;
        rest = after;
    }
    Ok((objects, rest))
}
