//! An opening read from all of the bytes of its image.
ghost use Rattle.std.specs.Prelude.{◌≡◌, length, IfOk, Ok};
ghost use Rattle.std.specs.Int.{w16, w32, w64};
ghost use Rattle.lo_opening.specs.Opening.{OpeningData, IsOpening};
ghost use Rattle.lo_image.specs.Image.{image};
ghost use Rattle.lo_image.specs.Readers.{Gives, number, tested, both};
ghost use Rattle.lo_image.specs.Reading.{blocks_defect, counter_defect, tables_defect, tables_at, chunks_defect, chunks_in_tables, behind_tables, opening_at, image_at, placed, Answers};

use crate::fault::{BadImage, Defect, ImageError, Stop};
use crate::fields::{fails, magic_at, u16_at, u32_at, u64_at};
use crate::objects::objects_at;
use crate::place::{TableCells, TableCellsList};
use crate::tables::tables_at;
use crate::values::{chunks_in_tables, tables_values_at};
use lo_opening::{ObjectList, Opening, TableList};
use std::alloc::Global;

fn blocks_number_at(bytes: &[u8]) -> Result<(u32, &[u8]), Stop>
    ensures { Gives (λ x. (x.0, x.1.now)) result (tested blocks_defect (number w32) bytes.now) }
{
    let (number, rest) = u32_at(bytes)?;
    if !(1..=262144).contains(&number) {
        return Err(fails(Defect::Range, bytes));
    }
    Ok((number, rest))
}

fn counter_at(bytes: &[u8]) -> Result<(u64, &[u8]), Stop>
    ensures { Gives (λ x. (x.0, x.1.now)) result (tested counter_defect (number w64) bytes.now) }
{
    let (number, rest) = u64_at(bytes)?;
    if !(16384..=4294967296).contains(&number) {
        return Err(fails(Defect::Range, bytes));
    }
    Ok((number, rest))
}

fn tables_number_at(bytes: &[u8]) -> Result<(u16, &[u8]), Stop>
    ensures { Gives (λ x. (x.0, x.1.now)) result (tested tables_defect (number w16) bytes.now) }
{
    let (number, rest) = u16_at(bytes)?;
    if number > 1000 {
        return Err(fails(Defect::Range, bytes));
    }
    Ok((number, rest))
}

fn counted_tables_at(alloc: Global, bytes: &[u8]) -> Result<(TableCellsList, &[u8]), Stop>
    ensures { Gives (λ x. ((length x.0, x.0), x.1.now)) result
        (both (tested tables_defect (number w16)) tables_at bytes.now) }
{
    let (count, rest) = tables_number_at(bytes)?;
    tables_at(alloc, count, rest)
}

fn chunks_defect(tables: &[TableCells], count: u64) -> Option<Defect>
    ensures { result ≡ chunks_defect (chunks_in_tables tables.now) count }
{
    if count as u128 != chunks_in_tables(tables) {
        Some(Defect::Mismatch)
    } else if count >= 0x1_0000_0000 {
        Some(Defect::Range)
    } else {
        None
    }
}

/// The number of chunks.
fn chunks_number_at<'a>(tables: &[TableCells], bytes: &'a [u8]) -> Result<(u64, &'a [u8]), Stop>
    ensures { Gives (λ x. (x.0, x.1.now)) result
        (tested (chunks_defect (chunks_in_tables tables.now)) (number w64) bytes.now) }
{
    let (count, rest) = u64_at(bytes)?;
    if let Some(kind) = chunks_defect(tables, count) {
        return Err(fails(kind, bytes));
    }
    Ok((count, rest))
}

/// What stands behind the tables: the number of chunks, the tables with their values, and the objects.
#[derive(Drop)]
struct Behind {
    chunks: u64,
    tables: TableList,
    objects: ObjectList,
}

fn behind_tables(
    alloc: Global,
    tables: TableCellsList,
    bytes: &[u8],
) -> Result<(Behind, &[u8]), Stop>
    ensures { Gives (λ x. ((x.0.chunks, (x.0.tables, (length x.0.objects, x.0.objects))), x.1.now)) result
        (behind_tables tables bytes.now) }
{
    let (chunks, rest) = chunks_number_at(tables.items(), bytes)?;
    let (tables, rest) = tables_values_at(alloc, tables, rest)?;
    let (count, rest) = u64_at(rest)?;
    let (objects, rest) = objects_at(alloc, chunks, count, rest)?;
    Ok((
        Behind {
            chunks,
            tables,
            objects,
        },
        rest,
    ))
}

/// The fields of an opening, before their rules are known to hold.
#[derive(Drop)]
struct Parts {
    blocks: u32,
    counter: u64,
    tables: TableList,
    objects: ObjectList,
}

fn parts_at(alloc: Global, bytes: &[u8]) -> Result<(Parts, &[u8]), Stop>
    ensures { Gives (λ x. (
      record {
        blocks = x.0.blocks;
        counter = x.0.counter;
        tables = x.0.tables;
        objects = x.0.objects;
      },
      x.1.now,
    )) result (opening_at bytes.now) }
{
    let rest = magic_at(bytes)?;
    let (blocks, rest) = blocks_number_at(rest)?;
    let (counter, rest) = counter_at(rest)?;
    let (tables, rest) = counted_tables_at(alloc, rest)?;
    let (behind, rest) = behind_tables(alloc, tables, rest)?;
    Ok((
        Parts {
            blocks,
            counter,
            tables: behind.tables,
            objects: behind.objects,
        },
        rest,
    ))
}

#[tactic(auto, unfolding(crate::specs::Reading::image_at))]
fn image_at(alloc: Global, bytes: &[u8]) -> Result<Parts, Stop>
    ensures { Gives (λ x. record {
      blocks = x.blocks;
      counter = x.counter;
      tables = x.tables;
      objects = x.objects;
    }) result (image_at bytes.now) }
{
    let (parts, rest) = parts_at(alloc, bytes)?;
    if !rest.is_empty() {
        return Err(fails(Defect::Extra, rest));
    }
    Ok(parts)
}

fn opening_at(alloc: Global, bytes: &[u8]) -> Result<Opening, Stop>
    ensures { Gives (λ d. d) result (image_at bytes.now) }
{
    let parts = image_at(alloc, bytes)?;
    Ok(Opening {
        blocks: parts.blocks,
        counter: parts.counter,
        tables: parts.tables,
        objects: parts.objects,
    })
}

/// The opening of an image.
pub fn read_image(alloc: Global, bytes: &[u8]) -> Result<Opening, ImageError>
    // What is read has these bytes for its image.
    ensures found { IfOk result (λ d. bytes.now ≡ image d) }
    // The image of an opening is read, unless there is no memory.
    ensures only { (d : OpeningData) → IsOpening d → bytes.now ≡ image d → Answers result (Ok d) }
    // Which field is the first that does not hold, and where.
    ensures exact { Answers result (placed (length bytes.now) (image_at bytes.now)) }
{
    match opening_at(alloc, bytes) {
        Ok(opening) => Ok(opening),
        Err(Stop::Memory) => Err(ImageError::NoMemory),
        Err(Stop::At(fault)) => Err(ImageError::Bad(BadImage {
            offset: (bytes.len() - fault.left) as u64,
            kind: fault.kind,
        })),
    }
}
