//! One field at the front of some bytes: its value and the bytes behind it, or why it does not hold.
ghost use Rattle.std.specs.Prelude.{◌≡◌, ◌<◌, ◌^◌, length, IfOk};
ghost use Rattle.std.specs.Int.{w16, w32, w64};
ghost use Rattle.lo_image.specs.declared.fault.Stop.TheVariants.{At};
ghost use Rattle.lo_image.specs.declared.fault.Defect.TheVariants.{Magic, Mismatch};
ghost use Rattle.lo_image.specs.Image.{magic};
ghost use Rattle.lo_image.specs.Readers.{Gives, piece, number, fixed, fixed_piece};
ghost use Rattle.lo_image.specs.Reading.{byte_at, counted_at};

use crate::fault::{Defect, Fault, Stop};

/// PGLOIMG1
pub(crate) const MAGIC: &[u8] = b"PGLOIMG1";

/// The field at the front of the bytes does not hold.
pub fn fails(kind: Defect, bytes: &[u8]) -> Stop
    ensures { result ≡ At (record { left = length bytes.now; kind = kind }) }
{
    Stop::At(Fault {
        left: bytes.len(),
        kind,
    })
}

pub fn piece_at(count: usize, bytes: &[u8]) -> Result<(&[u8], &[u8]), Stop>
    ensures { Gives (λ x. (x.0.now, x.1.now)) result (piece count bytes.now) }
{
    if bytes.len() < count {
        return Err(fails(Defect::Short, bytes));
    }
    Ok(bytes.split_at(count))
}

pub fn byte_at(bytes: &[u8]) -> Result<(u8, &[u8]), Stop>
    ensures { Gives (λ x. (x.0, x.1.now)) result (byte_at bytes.now) }
{
    let [byte, rest @ ..] = bytes else {
        return Err(fails(Defect::Short, bytes));
    };
    Ok((*byte, rest))
}

/// One byte with a length, and so many bytes: one field.
pub fn counted_at(bytes: &[u8]) -> Result<(&[u8], &[u8]), Stop>
    ensures { Gives (λ x. (x.0.now, x.1.now)) result (counted_at bytes.now) }
{
    let (count, rest) = byte_at(bytes)?;
    if rest.len() < count as usize {
        return Err(fails(Defect::Short, bytes));
    }
    piece_at(count as usize, rest)
}

pub fn u16_at(bytes: &[u8]) -> Result<(u16, &[u8]), Stop>
    ensures { Gives (λ x. (x.0, x.1.now)) result (number w16 bytes.now) }
{
    if bytes.len() < 2 {
        return Err(fails(Defect::Short, bytes));
    }
    let (front, rest) = bytes.split_at(2);
    Ok((u16::from_le_bytes([front[0], front[1]]), rest))
}

pub fn u32_at(bytes: &[u8]) -> Result<(u32, &[u8]), Stop>
    ensures { Gives (λ x. (x.0, x.1.now)) result (number w32 bytes.now) }
{
    if bytes.len() < 4 {
        return Err(fails(Defect::Short, bytes));
    }
    let (front, rest) = bytes.split_at(4);
    let number = u32::from_le_bytes([front[0], front[1], front[2], front[3]]);
    Ok((number, rest))
}

pub fn u64_at(bytes: &[u8]) -> Result<(u64, &[u8]), Stop>
    ensures { Gives (λ x. (x.0, x.1.now)) result (number w64 bytes.now) }
{
    if bytes.len() < 8 {
        return Err(fails(Defect::Short, bytes));
    }
    let (front, rest) = bytes.split_at(8);
    let number = u64::from_le_bytes([
        front[0], front[1], front[2], front[3], front[4], front[5], front[6], front[7],
    ]);
    Ok((number, rest))
}

pub fn fixed_u16(number: u16, bytes: &[u8]) -> Result<&[u8], Stop>
    ensures { Gives (λ x. x.now) result (fixed w16 number Mismatch bytes.now) }
{
    let (found, rest) = u16_at(bytes)?;
    if found != number {
        return Err(fails(Defect::Mismatch, bytes));
    }
    Ok(rest)
}

/// Four bytes that hold this number. A number of more than 32 bits is never found.
pub fn fixed_u32(number: u64, bytes: &[u8]) -> Result<&[u8], Stop>
    ensures read { Gives (λ x. x.now) result (fixed w32 number Mismatch bytes.now) }
    ensures few { IfOk result (λ x. number < 2 ^ 32) }
{
    let (found, rest) = u32_at(bytes)?;
    if found as u64 != number {
        return Err(fails(Defect::Mismatch, bytes));
    }
    Ok(rest)
}

/// Bytes that are fixed, and what is wrong where others stand there.
pub fn fixed_piece<'a>(text: &[u8], kind: Defect, bytes: &'a [u8]) -> Result<&'a [u8], Stop>
    ensures { Gives (λ x. x.now) result (fixed_piece text.now kind bytes.now) }
{
    let (found, rest) = piece_at(text.len(), bytes)?;
    if found != text {
        return Err(fails(kind, bytes));
    }
    Ok(rest)
}

pub fn magic_at(bytes: &[u8]) -> Result<&[u8], Stop>
    ensures { Gives (λ x. x.now) result (fixed_piece magic Magic bytes.now) }
{
    fixed_piece(MAGIC, Defect::Magic, bytes)
}
