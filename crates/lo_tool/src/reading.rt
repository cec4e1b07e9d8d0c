//! Reading a file whole. The size that is told first is a limit, and the reads say what the file holds.
ghost use Rattle.std.specs.Prelude.{◌≡◌, ◌≤◌, ◌<◌, ◌+◌, IsTrue, IfOk, IfErr, OnOk, take, length};
ghost use Rattle.lo_outside.specs.Files.{bytes_of};
ghost use Rattle.lo_tool.specs.Images.{BadImage, IsFree, IsKept, IsTaken};
ghost use Rattle.lo_tool.specs.Outside.{files_state};
ghost use Rattle.lo_tool.specs.Reading.{HasStopCause, IsStop, IsNoInput};
ghost use Rattle.lo_tool.specs.ScriptFile.{IsReadWithin, IsUnread};
ghost use Rattle.lo_tool.specs.Loops.{IsFront};

use crate::stop::Stop;
use crate::text::{bad_image_text, line_about};
use lo_base::Bytes;
use lo_image::{ImageError, read_image};
use lo_opening::Opening;
use lo_outside::Files;
use std::alloc::Global;

/// The most bytes of a script, and of a program.
pub const MOST_BYTES: u64 = 67_108_864;

/// How many bytes of a file are read at a time.
const PIECE: usize = 8192;

/// Reads a script, or a program, that is there and not too long, to its end.
pub fn read_script_file<F: Files>(alloc: Global, files: &mut F, name: &str) -> Result<Bytes, Stop>
    ensures ok { IfOk result (IsReadWithin (files_state F.Files files.old) name.now) }
    ensures err { IfErr result (IsStop (IsUnread (files_state F.Files files.old) name.now)) }
    ensures tells { F.tells files.new ≡ F.tells files.old }
    ensures folder { F.folder files.new ≡ F.folder files.old }
    ensures cause { HasStopCause (F.faults files.old) (F.faults files.new) result }
{
    let Some(size) = files.size(name)? else {
        return Err(Stop::BadInput(line_about(alloc, name, b"no such file")?));
    };
    if size > MOST_BYTES {
        return Err(Stop::BadInput(line_about(alloc, name, b"too long")?));
    }
    read_whole(alloc, files, name, size)
}

/// Reads the opening of an image that is there. The bytes are let go when it is read.
pub fn read_opening<F: Files>(alloc: Global, files: &mut F, name: &str) -> Result<Opening, Stop>
    ensures ok { IfOk result (IsKept (files_state F.Files files.old) name.now) }
    ensures err { IfErr result (IsStop (BadImage (files_state F.Files files.old) name.now)) }
    ensures tells { F.tells files.new ≡ F.tells files.old }
    ensures folder { F.folder files.new ≡ F.folder files.old }
    ensures cause { HasStopCause (F.faults files.old) (F.faults files.new) result }
{
    let Some(size) = files.size(name)? else {
        return Err(Stop::BadInput(line_about(alloc, name, b"no such file")?));
    };
    let bytes = read_whole(alloc, files, name, size)?;
    match read_image(alloc, bytes.items()) {
        Ok(opening) => Ok(opening),
        Err(ImageError::Bad(bad)) => {
            let what = bad_image_text(alloc, bad)?;
            Err(Stop::BadInput(line_about(alloc, name, what.items())?))
        }
        Err(ImageError::NoMemory) => Err(Stop::NoMemory),
    }
}

/// Looks whether no file of the name is there yet.
pub fn need_no_file<F: Files>(alloc: Global, files: &mut F, name: &str) -> Result<(), Stop>
    ensures ok { OnOk result (IsFree (files_state F.Files files.old) name.now) }
    ensures err { IfErr result (IsStop (IsTaken (files_state F.Files files.old) name.now)) }
    ensures tells { F.tells files.new ≡ F.tells files.old }
    ensures folder { F.folder files.new ≡ F.folder files.old }
    ensures cause { HasStopCause (F.faults files.old) (F.faults files.new) result }
{
    match files.size(name)? {
        None => Ok(()),
        Some(_size) => Err(Stop::BadInput(line_about(alloc, name, b"file exists")?)),
    }
}

/// Reads a file's bytes up to a size that was told, in pieces. A read that gives nothing before ends it.
fn read_whole<F: Files>(alloc: Global, files: &mut F, name: &str, size: u64) -> Result<Bytes, Stop>
    ensures told { IsTrue (F.tells files.old) →
        IfOk result (λ bytes. bytes ≡ take size (bytes_of (F.folder files.old name.now))) }
    ensures within { IfOk result (λ bytes. length bytes ≤ size) }
    ensures no_input { IfErr result IsNoInput }
    ensures tells { F.tells files.new ≡ F.tells files.old }
    ensures folder { F.folder files.new ≡ F.folder files.old }
    ensures cause { HasStopCause (F.faults files.old) (F.faults files.new) result }
{
    let mut bytes = Bytes::new(alloc);
    let mut piece = [0; PIECE];
    while (bytes.items().len() as u64) < size {
        if read_piece(files, name, size, &mut piece, &mut bytes)? == 0 {
            break;
        }
    }
    Ok(bytes)
}

/// Reads one more piece behind the bytes that are there, and answers its length, which is 0 only at the file's end.
fn read_piece<F: Files>(
    files: &mut F,
    name: &str,
    size: u64,
    piece: &mut [u8],
    bytes: &mut Bytes,
) -> Result<usize, Stop>
    requires room { 0 < length piece.old }
    requires more { length bytes.old < size }
    ensures within { IfOk result (λ n. length bytes.new ≤ size) }
    ensures grown { IfOk result (λ n. length bytes.new ≡ length bytes.old + n) }
    ensures front { IsTrue (F.tells files.old) →
        IsFront bytes.old (bytes_of (F.folder files.old name.now)) →
        OnOk result (IsFront bytes.new (bytes_of (F.folder files.old name.now))) }
    ensures end { IsTrue (F.tells files.old) →
        IfOk result (λ n. n ≡ 0 →
        length (bytes_of (F.folder files.old name.now)) ≤ length bytes.old) }
    ensures no_input { IfErr result IsNoInput }
    ensures tells { F.tells files.new ≡ F.tells files.old }
    ensures folder { F.folder files.new ≡ F.folder files.old }
    ensures cause { HasStopCause (F.faults files.old) (F.faults files.new) result }
{
    let at = bytes.items().len() as u64;
    let most = (piece.len() as u64).min(size - at) as usize;
    let n = files.read(name, at, &mut piece[..most])?;
    bytes.extend(&piece[..n])?;
    Ok(n)
}
