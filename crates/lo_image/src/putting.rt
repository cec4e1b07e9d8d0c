//! Bytes and numbers that are given to a file, through a buffer. Each piece that is appended is full
//! but for the last.
ghost use Rattle.std.specs.Prelude.{◌≡◌, ◌<◌, [], length, OnOk};
ghost use Rattle.std.specs.Int.{w16, w32, w64, to_le_bytes};
ghost use Rattle.lo_image.specs.Writing.{written, Puts};

use crate::buffer::Buffer;
use lo_outside::{Failed, Files};

/// Appends what waits.
pub(crate) fn flush<F: Files>(buffer: &mut Buffer, files: &mut F, name: &str) -> Result<(), Failed>
    ensures puts { Puts (written F.Files files.old buffer.old)
        (written F.Files files.new buffer.new) name.now [] result }
    ensures empty { OnOk result (buffer.new ≡ []) }
{
    files.append(name, buffer.bytes())?;
    buffer.clear();
    Ok(())
}

/// Appends what waits where the buffer is full.
fn make_room<F: Files>(buffer: &mut Buffer, files: &mut F, name: &str) -> Result<(), Failed>
    ensures puts { Puts (written F.Files files.old buffer.old)
        (written F.Files files.new buffer.new) name.now [] result }
    ensures room { OnOk result (length buffer.new < 8192) }
{
    if buffer.is_full() {
        return flush(buffer, files, name);
    }
    Ok(())
}

/// Gives the bytes to the file.
pub(crate) fn put<F: Files>(
    buffer: &mut Buffer,
    files: &mut F,
    name: &str,
    bytes: &[u8],
) -> Result<(), Failed>
    ensures { Puts (written F.Files files.old buffer.old)
        (written F.Files files.new buffer.new) name.now bytes.now result }
{
    let mut rest = bytes;
    while !rest.is_empty() {
        make_room(buffer, files, name)?;
        let count = buffer.add_front(rest);
        rest = rest.split_at(count).1;
    }
    Ok(())
}

pub(crate) fn put_u16<F: Files>(
    buffer: &mut Buffer,
    files: &mut F,
    name: &str,
    number: u16,
) -> Result<(), Failed>
    ensures { Puts (written F.Files files.old buffer.old)
        (written F.Files files.new buffer.new) name.now (to_le_bytes w16 number) result }
{
    put(buffer, files, name, &number.to_le_bytes())
}

pub(crate) fn put_u32<F: Files>(
    buffer: &mut Buffer,
    files: &mut F,
    name: &str,
    number: u32,
) -> Result<(), Failed>
    ensures { Puts (written F.Files files.old buffer.old)
        (written F.Files files.new buffer.new) name.now (to_le_bytes w32 number) result }
{
    put(buffer, files, name, &number.to_le_bytes())
}

pub(crate) fn put_u64<F: Files>(
    buffer: &mut Buffer,
    files: &mut F,
    name: &str,
    number: u64,
) -> Result<(), Failed>
    ensures { Puts (written F.Files files.old buffer.old)
        (written F.Files files.new buffer.new) name.now (to_le_bytes w64 number) result }
{
    put(buffer, files, name, &number.to_le_bytes())
}
