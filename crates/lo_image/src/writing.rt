//! An image, written to a file in one pass.
ghost use Rattle.std.specs.Prelude.{◌≡◌, Some, IsTrue, OnOk, OnErr};
ghost use Rattle.lo_outside.specs.Faults.{HasCause};
ghost use Rattle.lo_outside.specs.Files.{SetsFile, unsynced};
ghost use Rattle.lo_opening.specs.Opening.{IsOpening};
ghost use Rattle.lo_image.specs.Image.{image, image_head};
ghost use Rattle.lo_image.specs.Writing.{written, Puts, LeavesFront, opening_of};

use crate::buffer::Buffer;
use crate::fields::MAGIC;
use crate::put_chunks::put_tables_chunks;
use crate::put_objects::put_objects;
use crate::put_tables::put_tables;
use crate::putting::{flush, put, put_u16, put_u32, put_u64};
use lo_opening::{ObjectData, Opening, TableData};
use lo_outside::{Failed, Files};

/// What stands before the tables.
fn put_head<F: Files>(
    buffer: &mut Buffer,
    files: &mut F,
    name: &str,
    blocks: u32,
    counter: u64,
    count: u16,
) -> Result<(), Failed>
    ensures { Puts (written F.Files files.old buffer.old)
        (written F.Files files.new buffer.new) name.now (image_head blocks counter count) result }
{
    put(buffer, files, name, MAGIC)?;
    put_u32(buffer, files, name, blocks)?;
    put_u64(buffer, files, name, counter)?;
    put_u16(buffer, files, name, count)
}

fn put_parts<F: Files>(
    buffer: &mut Buffer,
    files: &mut F,
    name: &str,
    blocks: u32,
    counter: u64,
    tables: &[TableData],
    objects: &[ObjectData],
) -> Result<(), Failed>
    requires { IsOpening (opening_of blocks counter tables.now objects.now) }
    ensures { Puts (written F.Files files.old buffer.old)
        (written F.Files files.new buffer.new) name.now
        (image (opening_of blocks counter tables.now objects.now)) result }
{
    put_head(buffer, files, name, blocks, counter, tables.len() as u16)?;
    let chunks = put_tables(buffer, files, name, tables)?;
    put_u64(buffer, files, name, chunks)?;
    put_tables_chunks(buffer, files, name, tables)?;
    put_u64(buffer, files, name, objects.len() as u64)?;
    put_objects(buffer, files, name, objects)
}

/// Writes the image of the opening to the file of that name, in place of one that is there. It is not
/// synced. No memory is taken: what waits to be appended lies in an array of 8192 bytes.
pub fn write_image<F: Files>(opening: &Opening, files: &mut F, name: &str) -> Result<(), Failed>
    // The file has exactly the image, and every other file is as before.
    ensures ok { IsTrue (F.tells files.old) → OnOk result
        (SetsFile (F.folder files.old) (F.folder files.new) name.now
        (Some (unsynced (image opening.now)))) }
    // A failed call leaves what stood under the name, or a front of the image.
    ensures err { IsTrue (F.tells files.old) → OnErr result
        (LeavesFront (F.folder files.old) (F.folder files.new) name.now (image opening.now)) }
    ensures tells { F.tells files.new ≡ F.tells files.old }
    ensures cause { HasCause (F.faults files.old) (F.faults files.new) result }
{
    let mut buffer = Buffer::new();
    let tables = opening.tables.items();
    let objects = opening.objects.items();
    files.create(name)?;
    put_parts(
        &mut buffer,
        files,
        name,
        opening.blocks,
        opening.counter,
        tables,
        objects,
    )?;
    flush(&mut buffer, files, name)
}
