// A script as a whole: its lines, and whose they are. What a line spells is in form.rt and token.rt. Lines are split as
// `lines` of specs/Script.antt says, so an end of line is nowhere else looked at.
ghost use Rattle.std.specs.Prelude.{◌≡◌, ◌<◌, ◌∷◌, length, Some, None, IfOk, IfErr, ℕ};
ghost use Rattle.std.specs.Str.Lines.{lines, strip_carriage_return};
ghost use Rattle.lo_machine.specs.Program.{program_of};
ghost use Rattle.lo_machine.specs.Run.{IsOrderOf};
ghost use Rattle.lo_script.specs.declared.script.Marking.TheVariants.{Unmarked};
ghost use Rattle.lo_script.specs.Answer.{IsBad, NamesFirstBad, NamesFirstBadBy, Reads};
ghost use Rattle.lo_script.specs.Script.{script_of, script_by, script_with, program_in};
ghost use Rattle.lo_script.specs.Script.{entry_by, ends_in_sweep, is_request_line};
ghost use Rattle.lo_script.specs.Script.{IsAlone, IsFinished};

use crate::error::{LineError, ScriptError};
use crate::form::read_request;
use crate::sweep_form::is_in_sweep;
use crate::token::{Tokens, cut};
use lo_base::{Request, SESSIONS, SessionNo};
use lo_machine::{Programs, Schedule};
use std::alloc::Global;

/// A script that was read: what a run is started with.
#[derive(Drop)]
pub struct Script {
    /// The requests of each session, in the order of its lines.
    pub programs: Programs,
    /// The session of each request line, in the order of the lines.
    pub order: Schedule,
}

/// Whether lines begin with the mark of their session. Where they do not, all are of session 1. Contracts name it.
#[derive(Clone, Copy)]
pub enum Marking {
    Marked,
    Unmarked,
}

/// Reads a script: one request a line, after the mark of its session, such as `B:`. Reading stops at the
/// first line outside the grammar, which the error names with the column in it. Where a clean-up lacks its
/// `finish`, that is column 1 of the line after the last.
pub fn read_script(alloc: Global, bytes: &[u8]) -> Result<Script, ScriptError>
    ensures ok { IfOk result (λ s. script_of bytes.now ≡ Some (script_with s.programs s.order)) }
    ensures order { IfOk result (λ s. IsOrderOf s.programs s.order) }
    ensures sweeps { IfOk result (λ s. (session : ℕ) → IsFinished (program_of s.programs session)) }
    ensures bad { IfErr result (λ e. IsBad e → script_of bytes.now ≡ None) }
    ensures first { IfErr result (NamesFirstBad bytes.now) }
{
    read_text(alloc, bytes, Marking::Marked)
}

/// Reads the program of one session: one request a line, with no mark, and otherwise as in a script. It is
/// that of session 1, and the other sessions have no lines.
#[tactic(auto, using(crate::proofs::ProgramTexts::alone_read))]
pub fn read_program(alloc: Global, bytes: &[u8]) -> Result<Script, ScriptError>
    ensures ok { IfOk result (λ s. program_in bytes.now ≡ Some (program_of s.programs 1)) }
    ensures script { IfOk result (λ s.
        script_by Unmarked bytes.now ≡ Some (script_with s.programs s.order)) }
    ensures alone { IfOk result (λ s. IsAlone s.programs) }
    ensures order { IfOk result (λ s. IsOrderOf s.programs s.order) }
    ensures sweeps { IfOk result (λ s. (session : ℕ) → IsFinished (program_of s.programs session)) }
    ensures bad { IfErr result (λ e. IsBad e → program_in bytes.now ≡ None) }
    ensures first { IfErr result (NamesFirstBadBy Unmarked bytes.now) }
{
    read_text(alloc, bytes, Marking::Unmarked)
}

/// Reads lines with marks or without.
#[tactic(auto, using(crate::proofs::FirstBadLines::skipped_read))]
fn read_text(alloc: Global, bytes: &[u8], marking: Marking) -> Result<Script, ScriptError>
    ensures ok { IfOk result (λ s.
        script_by marking bytes.now ≡ Some (script_with s.programs s.order)) }
    ensures order { IfOk result (λ s. IsOrderOf s.programs s.order) }
    ensures sweeps { IfOk result (λ s. (session : ℕ) → IsFinished (program_of s.programs session)) }
    ensures bad { IfErr result (λ e. IsBad e → script_by marking bytes.now ≡ None) }
    ensures first { IfErr result (NamesFirstBadBy marking bytes.now) }
{
    let mut programs = Programs::new(alloc)?;
    let mut order = Schedule::new(alloc);
    let mut rest = bytes;
    let mut number = 0;
    while !rest.is_empty() {
        let (line, after) = first_line(rest);
        rest = after;
        number += 1;
        if is_request_line(line) {
            let (s, request) = match read_line(alloc, marking, &programs, line) {
                Ok(entry) => entry,
                Err(e) => return Err(e.in_line(number)),
            };
            programs.push(s, request)?;
            order.push(s)?;
        }
    }
    if ends_in_sweep(&programs) {
        return Err(LineError::Bad(1).in_line(number + 1));
    }
    Ok(Script { programs, order })
}

/// The session and the request of a line behind the lines that were read.
fn read_line(
    alloc: Global,
    marking: Marking,
    programs: &Programs,
    line: &[u8],
) -> Result<(SessionNo, Request), LineError>
    ensures { Reads (entry_by marking programs.now line.now) result }
{
    let mut tokens = Tokens::of(line);
    let s = match marking {
        Marking::Marked => tokens.next()?.session()?,
        Marking::Unmarked => only_session(),
    };
    let in_sweep = is_in_sweep(programs.lines(s));
    Ok((s, read_request(alloc, in_sweep, &mut tokens)?))
}

/// The session of all lines that have no mark.
fn only_session() -> SessionNo
    ensures { result ≡ 1 }
{
    let Some(s) = SessionNo::new(1) else {
        unreachable!();
    };
    s
}

/// Whether a session is inside a clean-up behind its last line.
fn ends_in_sweep(programs: &Programs) -> bool
    ensures { result ≡ ends_in_sweep programs.now }
{
    for number in 1..=SESSIONS {
        let Some(s) = SessionNo::new(number) else {
            continue;
        };
        if is_in_sweep(programs.lines(s)) {
            return true;
        }
    }
    false
}

/// Whether the line is neither empty nor a comment.
fn is_request_line(line: &[u8]) -> bool
    ensures { result ≡ is_request_line line.now }
{
    line.first().is_some_and(|b| *b != b'#')
}

/// The first line, without its end, and what follows it.
fn first_line(text: &[u8]) -> (&[u8], &[u8])
    requires { 0 < length text.now }
    ensures lines { lines text.now ≡ result.0.now ∷ lines result.1.now }
    ensures shorter { length result.1.now < length text.now }
{
    let (line, after) = cut(text, b'\n');
    match after {
        Some(after) => (without_return(line), after),
        None => (line, &[]),
    }
}

/// The line without the one carriage return at its end, if it has one.
fn without_return(line: &[u8]) -> &[u8]
    ensures { result.now ≡ strip_carriage_return line.now }
{
    match line {
        [front @ .., b'\r'] => front,
        _ => line,
    }
}
