//! The columns of a table, given to a file.
ghost use Rattle.std.specs.Prelude.{◌≡◌, ◌≤◌, All, length};
ghost use Rattle.lo_image.specs.Image.{name_form, type_code, storage_code, column_form, columns_form};
ghost use Rattle.lo_image.specs.Writing.{written, Puts, HasShortName};

use crate::buffer::Buffer;
use crate::putting::put;
use lo_base::{ColType, Column, Storage};
use lo_outside::{Failed, Files};

fn type_code(kind: ColType) -> u8
    ensures { result ≡ type_code kind }
{
    match kind {
        ColType::Int8 => 1,
        ColType::Oid => 2,
        ColType::Lo => 3,
        ColType::Bytea => 4,
        ColType::Int4Array => 5,
    }
}

fn storage_code(storage: Storage) -> u8
    ensures { result ≡ storage_code storage }
{
    match storage {
        Storage::Plain => b'p',
        Storage::External => b'e',
        Storage::Extended => b'x',
        Storage::Main => b'm',
    }
}

/// A name behind its length.
pub(crate) fn put_name<F: Files>(
    buffer: &mut Buffer,
    files: &mut F,
    name: &str,
    text: &[u8],
) -> Result<(), Failed>
    requires { length text.now ≤ 63 }
    ensures { Puts (written F.Files files.old buffer.old)
        (written F.Files files.new buffer.new) name.now (name_form text.now) result }
{
    put(buffer, files, name, &[text.len() as u8])?;
    put(buffer, files, name, text)
}

fn put_column<F: Files>(
    buffer: &mut Buffer,
    files: &mut F,
    name: &str,
    column: &Column,
) -> Result<(), Failed>
    requires { HasShortName column.now }
    ensures { Puts (written F.Files files.old buffer.old)
        (written F.Files files.new buffer.new) name.now (column_form column.now) result }
{
    let codes = [type_code(column.kind), storage_code(column.storage)];
    put_name(buffer, files, name, column.name.items())?;
    put(buffer, files, name, &codes)
}

/// The columns of a table, one behind the other.
pub(crate) fn put_columns<F: Files>(
    buffer: &mut Buffer,
    files: &mut F,
    name: &str,
    columns: &[Column],
) -> Result<(), Failed>
    requires { All HasShortName columns.now }
    ensures { Puts (written F.Files files.old buffer.old)
        (written F.Files files.new buffer.new) name.now (columns_form columns.now) result }
{
    for column in columns {
        put_column(buffer, files, name, column)?;
    }
    Ok(())
}
