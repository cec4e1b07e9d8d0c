// The forms of clean-ups: their beginning, and the lines that stand inside one. Whether a session is inside a clean-up is told by
// its last request.
ghost use Rattle.std.specs.Prelude.{◌≡◌};
ghost use Rattle.lo_script.specs.Answer.{Reads};
ghost use Rattle.lo_script.specs.Form.{form_in};
ghost use Rattle.lo_script.specs.SweepForm.{sweep_forms, vacuumlo_of, is_in_sweep, leaves_open};

use crate::error::LineError;
use crate::form::complete;
use crate::token::{Token, Tokens};
use lo_base::Request;

/// `vacuumlo LIMIT` or `vacuumlo -n LIMIT`, from the second token on.
pub fn read_vacuumlo(tokens: &mut Tokens) -> Result<Request, LineError>
    ensures { Reads (vacuumlo_of tokens.old.column tokens.old.tokens) result }
{
    let token = tokens.next()?;
    if token.is(b"-n") {
        let limit = tokens.next()?.limit()?;
        complete(tokens, Request::Vacuumlo(true, limit))
    } else {
        let limit = token.limit()?;
        complete(tokens, Request::Vacuumlo(false, limit))
    }
}

/// A request inside a clean-up, from the token after its word on.
pub fn read_sweep_form(word: &Token, tokens: &Tokens) -> Result<Request, LineError>
    ensures { Reads (form_in sweep_forms word.now.text.now word.now.column
        tokens.now.column tokens.now.tokens) result }
{
    if word.is(b"step") {
        complete(tokens, Request::Step)
    } else if word.is(b"finish") {
        complete(tokens, Request::Finish)
    } else {
        Err(word.refused())
    }
}

/// Whether a session that has these lines so far is inside a clean-up.
pub fn is_in_sweep(lines: &[Request]) -> bool
    ensures { result ≡ is_in_sweep lines.now }
{
    match lines.last() {
        Some(last) => leaves_open(last),
        None => false,
    }
}

/// Whether a session is inside a clean-up behind the request.
fn leaves_open(request: &Request) -> bool
    ensures { result ≡ leaves_open request.now }
{
    matches!(request, Request::Vacuumlo(..) | Request::Step)
}
