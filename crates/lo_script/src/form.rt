// The forms of requests: the word is found here, and one reader for each form takes its arguments token by token. Forms on large
// objects are in large_object_form.rt, those on tables in table_form.rt, those on array variables in array_form.rt, those of
// clean-ups in sweep_form.rt. A new form is one arm and one reader, one line of the tables of forms in specs/, and its printed form in specs/Spelling.antt.
ghost use Rattle.lo_base.specs.declared.request.Request.TheVariants.{Savepoint, Release};
ghost use Rattle.lo_script.specs.Answer.{Reads};
ghost use Rattle.lo_script.specs.Form.{form_in, other_forms, request_of};
ghost use Rattle.lo_script.specs.Form.{rollback_of};
ghost use Rattle.lo_script.specs.Reader.{no_token, one_token};
ghost use Rattle.lo_script.specs.Token.{name_of};

use crate::error::LineError;
use crate::large_object_form::read_large_object_form;
use crate::sweep_form::{read_sweep_form, read_vacuumlo};
use crate::table_form::read_table_form;
use crate::token::{Token, Tokens};
use lo_base::Request;
use std::alloc::Global;

/// The request that the tokens spell, inside a clean-up of its session or outside. Reading stops at the first token that is
/// not allowed there.
pub fn read_request(
    alloc: Global,
    in_sweep: bool,
    tokens: &mut Tokens,
) -> Result<Request, LineError>
    ensures { Reads (request_of in_sweep tokens.old.column tokens.old.tokens) result }
{
    let word = tokens.next()?;
    if in_sweep {
        read_sweep_form(&word, tokens)
    } else if word.begins(b"lo_") {
        read_large_object_form(alloc, &word, tokens)
    } else {
        read_other_form(alloc, &word, tokens)
    }
}

/// A request on no large object, from the token after its word on.
fn read_other_form(alloc: Global, word: &Token, tokens: &mut Tokens) -> Result<Request, LineError>
    ensures { Reads (form_in other_forms word.now.text.now word.now.column
        tokens.old.column tokens.old.tokens) result }
{
    if word.is(b"begin") {
        complete(tokens, Request::Begin)
    } else if word.is(b"commit") {
        complete(tokens, Request::Commit)
    } else if word.is(b"rollback") {
        read_rollback(alloc, tokens)
    } else if word.is(b"savepoint") {
        read_savepoint(alloc, tokens)
    } else if word.is(b"release") {
        read_release(alloc, tokens)
    } else if word.is(b"vacuum") {
        complete(tokens, Request::Vacuum)
    } else if word.is(b"vacuumlo") {
        read_vacuumlo(tokens)
    } else {
        read_table_form(alloc, word, tokens)
    }
}

/// The request, whose tokens were all taken.
pub fn complete(tokens: &Tokens, request: Request) -> Result<Request, LineError>
    ensures { Reads (no_token request tokens.now.column tokens.now.tokens) result }
{
    tokens.end()?;
    Ok(request)
}

/// `rollback` or `rollback to NAME`, from the second token on.
fn read_rollback(alloc: Global, tokens: &mut Tokens) -> Result<Request, LineError>
    ensures { Reads (rollback_of tokens.old.column tokens.old.tokens) result }
{
    if tokens.is_at_end() {
        return Ok(Request::Rollback);
    }
    tokens.next()?.keyword(b"to")?;
    let name = tokens.next()?.name(alloc)?;
    complete(tokens, Request::RollbackTo(name))
}

/// `savepoint NAME`, from the name on.
fn read_savepoint(alloc: Global, tokens: &mut Tokens) -> Result<Request, LineError>
    ensures { Reads (one_token name_of Savepoint tokens.old.column tokens.old.tokens) result }
{
    let name = tokens.next()?.name(alloc)?;
    complete(tokens, Request::Savepoint(name))
}

/// `release NAME`, from the name on.
fn read_release(alloc: Global, tokens: &mut Tokens) -> Result<Request, LineError>
    ensures { Reads (one_token name_of Release tokens.old.column tokens.old.tokens) result }
{
    let name = tokens.next()?.name(alloc)?;
    complete(tokens, Request::Release(name))
}
