//! The large objects of an opening, given to a file.
ghost use Rattle.std.specs.Prelude.{◌≡◌, All};
ghost use Rattle.lo_image.specs.Image.{block_form, blocks_form, object_form, objects_form};
ghost use Rattle.lo_image.specs.Writing.{written, Puts, IsShortBlock, IsShortObject};

use crate::buffer::Buffer;
use crate::putting::{put, put_u16, put_u32, put_u64};
use lo_base::Bytes;
use lo_opening::ObjectData;
use lo_outside::{Failed, Files};

fn put_block<F: Files>(
    buffer: &mut Buffer,
    files: &mut F,
    name: &str,
    block: &(u32, Bytes),
) -> Result<(), Failed>
    requires { IsShortBlock block.now }
    ensures { Puts (written F.Files files.old buffer.old)
        (written F.Files files.new buffer.new) name.now (block_form block.now) result }
{
    let bytes = block.1.items();
    put_u32(buffer, files, name, block.0)?;
    put_u16(buffer, files, name, bytes.len() as u16)?;
    put(buffer, files, name, bytes)
}

fn put_blocks<F: Files>(
    buffer: &mut Buffer,
    files: &mut F,
    name: &str,
    blocks: &[(u32, Bytes)],
) -> Result<(), Failed>
    requires { All IsShortBlock blocks.now }
    ensures { Puts (written F.Files files.old buffer.old)
        (written F.Files files.new buffer.new) name.now (blocks_form blocks.now) result }
{
    for block in blocks {
        put_block(buffer, files, name, block)?;
    }
    Ok(())
}

fn put_object<F: Files>(
    buffer: &mut Buffer,
    files: &mut F,
    name: &str,
    object: &ObjectData,
) -> Result<(), Failed>
    requires { IsShortObject object.now }
    ensures { Puts (written F.Files files.old buffer.old)
        (written F.Files files.new buffer.new) name.now (object_form object.now) result }
{
    let blocks = object.stored.items();
    put_u32(buffer, files, name, object.oid)?;
    put_u64(buffer, files, name, object.size)?;
    put_u32(buffer, files, name, blocks.len() as u32)?;
    put_blocks(buffer, files, name, blocks)
}

/// The objects, one behind the other.
pub(crate) fn put_objects<F: Files>(
    buffer: &mut Buffer,
    files: &mut F,
    name: &str,
    objects: &[ObjectData],
) -> Result<(), Failed>
    requires { All IsShortObject objects.now }
    ensures { Puts (written F.Files files.old buffer.old)
        (written F.Files files.new buffer.new) name.now (objects_form objects.now) result }
{
    for object in objects {
        put_object(buffer, files, name, object)?;
    }
    Ok(())
}
