// The forms of requests on array variables: the reader of each takes its arguments token by token.
ghost use Rattle.lo_base.specs.declared.request.Request.TheVariants.{Array, Load, Set, Elem, Show};
ghost use Rattle.lo_script.specs.Answer.{Reads};
ghost use Rattle.lo_script.specs.ArrayForm.{array_forms};
ghost use Rattle.lo_script.specs.Form.{form_in};
ghost use Rattle.lo_script.specs.Reader.{one_token, two_tokens, three_tokens, four_tokens};
ghost use Rattle.lo_script.specs.Token.{int4_of, int8_of, name_of};
ghost use Rattle.lo_script.specs.ValueToken.{array_text_of, element_of};

use crate::error::LineError;
use crate::form::complete;
use crate::token::{Token, Tokens};
use lo_base::Request;
use std::alloc::Global;

/// A request on array variables, from the token after its word on.
pub fn read_array_form(
    alloc: Global,
    word: &Token,
    tokens: &mut Tokens,
) -> Result<Request, LineError>
    ensures { Reads (form_in array_forms word.now.text.now word.now.column
        tokens.old.column tokens.old.tokens) result }
{
    if word.is(b"array") {
        read_array(alloc, tokens)
    } else if word.is(b"load") {
        read_load(alloc, tokens)
    } else if word.is(b"set") {
        read_set(alloc, tokens)
    } else if word.is(b"elem") {
        read_elem(alloc, tokens)
    } else if word.is(b"show") {
        read_show(alloc, tokens)
    } else {
        Err(word.refused())
    }
}

/// `array NAME ARRAYTEXT`, from the variable on.
fn read_array(alloc: Global, tokens: &mut Tokens) -> Result<Request, LineError>
    ensures { Reads (two_tokens name_of array_text_of Array
        tokens.old.column tokens.old.tokens) result }
{
    let name = tokens.next()?.name(alloc)?;
    let text = tokens.next()?.array_text(alloc)?;
    complete(tokens, Request::Array(name, text))
}

/// `load NAME NAME ID NAME`, from the variable on.
fn read_load(alloc: Global, tokens: &mut Tokens) -> Result<Request, LineError>
    ensures { Reads (four_tokens name_of name_of int8_of name_of Load
        tokens.old.column tokens.old.tokens) result }
{
    let name = tokens.next()?.name(alloc)?;
    let table = tokens.next()?.name(alloc)?;
    let id = tokens.next()?.int8()?;
    let column = tokens.next()?.name(alloc)?;
    complete(tokens, Request::Load(name, table, id, column))
}

/// `set NAME SUB NUMBERORNULL`, from the variable on.
fn read_set(alloc: Global, tokens: &mut Tokens) -> Result<Request, LineError>
    ensures { Reads (three_tokens name_of int4_of element_of Set
        tokens.old.column tokens.old.tokens) result }
{
    let name = tokens.next()?.name(alloc)?;
    let sub = tokens.next()?.int4()?;
    let element = tokens.next()?.element()?;
    complete(tokens, Request::Set(name, sub, element))
}

/// `elem NAME SUB`, from the variable on.
fn read_elem(alloc: Global, tokens: &mut Tokens) -> Result<Request, LineError>
    ensures { Reads (two_tokens name_of int4_of Elem tokens.old.column tokens.old.tokens) result }
{
    let name = tokens.next()?.name(alloc)?;
    let sub = tokens.next()?.int4()?;
    complete(tokens, Request::Elem(name, sub))
}

/// `show NAME`, from the variable on.
fn read_show(alloc: Global, tokens: &mut Tokens) -> Result<Request, LineError>
    ensures { Reads (one_token name_of Show tokens.old.column tokens.old.tokens) result }
{
    let name = tokens.next()?.name(alloc)?;
    complete(tokens, Request::Show(name))
}
