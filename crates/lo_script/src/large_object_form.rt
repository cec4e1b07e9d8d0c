// The forms of requests on large objects: the reader of each takes its arguments token by token.
ghost use Rattle.lo_base.specs.declared.request.Request.TheVariants.{LoCreat, LoCreate, LoOpen};
ghost use Rattle.lo_base.specs.declared.request.Request.TheVariants.{LoClose, LoRead, LoWrite};
ghost use Rattle.lo_base.specs.declared.request.Request.TheVariants.{LoLseek, LoLseek64, LoTell};
ghost use Rattle.lo_base.specs.declared.request.Request.TheVariants.{LoTell64, LoTruncate};
ghost use Rattle.lo_base.specs.declared.request.Request.TheVariants.{LoTruncate64, LoUnlink, LoPut};
ghost use Rattle.lo_base.specs.declared.request.Request.TheVariants.{LoFromBytea};
ghost use Rattle.lo_machine.specs.Spelled.{bytes_limit};
ghost use Rattle.lo_script.specs.Answer.{Reads};
ghost use Rattle.lo_script.specs.Form.{form_in, large_object_forms, descriptor_forms, get_of};
ghost use Rattle.lo_script.specs.Reader.{one_token, two_tokens, three_tokens};
ghost use Rattle.lo_script.specs.Token.{oid_of, int4_of, int8_of, bytes_of};

use crate::error::LineError;
use crate::form::complete;
use crate::token::{Token, Tokens};
use lo_base::Request;
use std::alloc::Global;

/// The most bytes of a request.
pub const BYTES_LIMIT: usize = 16777216;

/// A request on large objects, from the token after its word on.
pub fn read_large_object_form(
    alloc: Global,
    word: &Token,
    tokens: &mut Tokens,
) -> Result<Request, LineError>
    ensures { Reads (form_in large_object_forms word.now.text.now word.now.column
        tokens.old.column tokens.old.tokens) result }
{
    if word.is(b"lo_creat") {
        read_creat(tokens)
    } else if word.is(b"lo_create") {
        read_create(tokens)
    } else if word.is(b"lo_open") {
        read_open(tokens)
    } else if word.is(b"lo_unlink") {
        read_unlink(tokens)
    } else if word.is(b"lo_get") {
        read_get(tokens)
    } else if word.is(b"lo_put") {
        read_put(alloc, tokens)
    } else if word.is(b"lo_from_bytea") {
        read_from_bytea(alloc, tokens)
    } else {
        read_descriptor_form(alloc, word, tokens)
    }
}

/// A request on an open large object, from its descriptor on.
fn read_descriptor_form(
    alloc: Global,
    word: &Token,
    tokens: &mut Tokens,
) -> Result<Request, LineError>
    ensures { Reads (form_in descriptor_forms word.now.text.now word.now.column
        tokens.old.column tokens.old.tokens) result }
{
    if word.is(b"lo_close") {
        read_close(tokens)
    } else if word.is(b"lo_read") {
        read_read(tokens)
    } else if word.is(b"lo_write") {
        read_write(alloc, tokens)
    } else if word.is(b"lo_lseek") {
        read_lseek(tokens)
    } else if word.is(b"lo_lseek64") {
        read_lseek64(tokens)
    } else if word.is(b"lo_tell") {
        read_tell(tokens)
    } else if word.is(b"lo_tell64") {
        read_tell64(tokens)
    } else if word.is(b"lo_truncate") {
        read_truncate(tokens)
    } else if word.is(b"lo_truncate64") {
        read_truncate64(tokens)
    } else {
        Err(word.refused())
    }
}

/// `lo_creat INT4`, from the mode on.
fn read_creat(tokens: &mut Tokens) -> Result<Request, LineError>
    ensures { Reads (one_token int4_of LoCreat tokens.old.column tokens.old.tokens) result }
{
    let mode = tokens.next()?.int4()?;
    complete(tokens, Request::LoCreat(mode))
}

/// `lo_create OID`, from the object's number on.
fn read_create(tokens: &mut Tokens) -> Result<Request, LineError>
    ensures { Reads (one_token oid_of LoCreate tokens.old.column tokens.old.tokens) result }
{
    let oid = tokens.next()?.oid()?;
    complete(tokens, Request::LoCreate(oid))
}

/// `lo_open OID MODE`, from the object's number on.
fn read_open(tokens: &mut Tokens) -> Result<Request, LineError>
    ensures { Reads (two_tokens oid_of int4_of LoOpen tokens.old.column tokens.old.tokens) result }
{
    let oid = tokens.next()?.oid()?;
    let mode = tokens.next()?.int4()?;
    complete(tokens, Request::LoOpen(oid, mode))
}

/// `lo_close FD`, from the descriptor on.
fn read_close(tokens: &mut Tokens) -> Result<Request, LineError>
    ensures { Reads (one_token int4_of LoClose tokens.old.column tokens.old.tokens) result }
{
    let fd = tokens.next()?.int4()?;
    complete(tokens, Request::LoClose(fd))
}

/// `lo_read FD COUNT`, from the descriptor on.
fn read_read(tokens: &mut Tokens) -> Result<Request, LineError>
    ensures { Reads (two_tokens int4_of int4_of LoRead tokens.old.column tokens.old.tokens) result }
{
    let fd = tokens.next()?.int4()?;
    let count = tokens.next()?.int4()?;
    complete(tokens, Request::LoRead(fd, count))
}

/// `lo_write FD BYTES`, from the descriptor on.
fn read_write(alloc: Global, tokens: &mut Tokens) -> Result<Request, LineError>
    ensures { Reads (two_tokens int4_of (bytes_of bytes_limit) LoWrite
        tokens.old.column tokens.old.tokens) result }
{
    let fd = tokens.next()?.int4()?;
    let bytes = tokens.next()?.bytes(alloc, BYTES_LIMIT)?;
    complete(tokens, Request::LoWrite(fd, bytes))
}

/// `lo_lseek FD INT4 WHENCE`, from the descriptor on.
fn read_lseek(tokens: &mut Tokens) -> Result<Request, LineError>
    ensures { Reads (three_tokens int4_of int4_of int4_of LoLseek
        tokens.old.column tokens.old.tokens) result }
{
    let fd = tokens.next()?.int4()?;
    let offset = tokens.next()?.int4()?;
    let whence = tokens.next()?.int4()?;
    complete(tokens, Request::LoLseek(fd, offset, whence))
}

/// `lo_lseek64 FD INT8 WHENCE`, from the descriptor on.
fn read_lseek64(tokens: &mut Tokens) -> Result<Request, LineError>
    ensures { Reads (three_tokens int4_of int8_of int4_of LoLseek64
        tokens.old.column tokens.old.tokens) result }
{
    let fd = tokens.next()?.int4()?;
    let offset = tokens.next()?.int8()?;
    let whence = tokens.next()?.int4()?;
    complete(tokens, Request::LoLseek64(fd, offset, whence))
}

/// `lo_tell FD`, from the descriptor on.
fn read_tell(tokens: &mut Tokens) -> Result<Request, LineError>
    ensures { Reads (one_token int4_of LoTell tokens.old.column tokens.old.tokens) result }
{
    let fd = tokens.next()?.int4()?;
    complete(tokens, Request::LoTell(fd))
}

/// `lo_tell64 FD`, from the descriptor on.
fn read_tell64(tokens: &mut Tokens) -> Result<Request, LineError>
    ensures { Reads (one_token int4_of LoTell64 tokens.old.column tokens.old.tokens) result }
{
    let fd = tokens.next()?.int4()?;
    complete(tokens, Request::LoTell64(fd))
}

/// `lo_truncate FD INT4`, from the descriptor on.
fn read_truncate(tokens: &mut Tokens) -> Result<Request, LineError>
    ensures { Reads (two_tokens int4_of int4_of LoTruncate
        tokens.old.column tokens.old.tokens) result }
{
    let fd = tokens.next()?.int4()?;
    let size = tokens.next()?.int4()?;
    complete(tokens, Request::LoTruncate(fd, size))
}

/// `lo_truncate64 FD INT8`, from the descriptor on.
fn read_truncate64(tokens: &mut Tokens) -> Result<Request, LineError>
    ensures { Reads (two_tokens int4_of int8_of LoTruncate64
        tokens.old.column tokens.old.tokens) result }
{
    let fd = tokens.next()?.int4()?;
    let size = tokens.next()?.int8()?;
    complete(tokens, Request::LoTruncate64(fd, size))
}

/// `lo_unlink OID`, from the object's number on.
fn read_unlink(tokens: &mut Tokens) -> Result<Request, LineError>
    ensures { Reads (one_token oid_of LoUnlink tokens.old.column tokens.old.tokens) result }
{
    let oid = tokens.next()?.oid()?;
    complete(tokens, Request::LoUnlink(oid))
}

/// `lo_get OID`, which is all bytes of the object, or `lo_get OID INT8 LENGTH`, from the object's number on.
fn read_get(tokens: &mut Tokens) -> Result<Request, LineError>
    ensures { Reads (get_of tokens.old.column tokens.old.tokens) result }
{
    let oid = tokens.next()?.oid()?;
    if tokens.is_at_end() {
        return Ok(Request::LoGet(oid, 0, None));
    }
    let offset = tokens.next()?.int8()?;
    let length = tokens.next()?.int4()?;
    complete(tokens, Request::LoGet(oid, offset, Some(length)))
}

/// `lo_put OID INT8 BYTES`, from the object's number on.
fn read_put(alloc: Global, tokens: &mut Tokens) -> Result<Request, LineError>
    ensures { Reads (three_tokens oid_of int8_of (bytes_of bytes_limit) LoPut
        tokens.old.column tokens.old.tokens) result }
{
    let oid = tokens.next()?.oid()?;
    let offset = tokens.next()?.int8()?;
    let bytes = tokens.next()?.bytes(alloc, BYTES_LIMIT)?;
    complete(tokens, Request::LoPut(oid, offset, bytes))
}

/// `lo_from_bytea OID BYTES`, from the object's number on.
fn read_from_bytea(alloc: Global, tokens: &mut Tokens) -> Result<Request, LineError>
    ensures { Reads (two_tokens oid_of (bytes_of bytes_limit) LoFromBytea
        tokens.old.column tokens.old.tokens) result }
{
    let oid = tokens.next()?.oid()?;
    let bytes = tokens.next()?.bytes(alloc, BYTES_LIMIT)?;
    complete(tokens, Request::LoFromBytea(oid, bytes))
}
