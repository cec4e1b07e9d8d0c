//! Programs in files, and their run by threads.
ghost use Rattle.std.specs.Prelude.{◌≡◌, ◌≤◌, All, IfErr, IfOk, length, map, string_bytes};
ghost use Rattle.lo_machine.specs.Served.{IsServed};
ghost use Rattle.lo_opening.specs.Meaning.{opening_of};
ghost use Rattle.lo_script.specs.declared.script.Marking.TheVariants.{Unmarked};
ghost use Rattle.lo_tool.specs.Outside.{files_state};
ghost use Rattle.lo_tool.specs.Reading.{HasStopCause, IsStop};
ghost use Rattle.lo_tool.specs.ScriptFile.{BadScript};
ghost use Rattle.lo_tool.specs.Threads.{HasBadProgram, IsProgramIn, RunsInSomeOrder};
ghost use Rattle.lo_tool.specs.ThreadsWork.{ReadsPrograms};

use crate::cleaning::first_session;
use crate::playing::{Ran, text_of};
use crate::reading::read_script_file;
use crate::stop::Stop;
use crate::text::bad_grammar_line;
use crate::words::MOST_PROGRAMS;
use lo_base::{NoMemory, Requests, SessionNo};
use lo_machine::{Programs, Running};
use lo_opening::Opening;
use lo_outside::{Files, Gate};
use lo_script::{ScriptError, read_program};
use lo_turn::run_threads;
use std::alloc::Global;
use std::marker::Sync;
use std::thread::Threads;

/// Reads programs in the order of their files, each before the next file is looked at. The first is session 1's, and so on.
pub fn read_programs<F: Files>(
    alloc: Global,
    files: &mut F,
    names: &[String],
) -> Result<Programs, Stop>
    requires { length names.now ≤ MOST_PROGRAMS }
    ensures ok { IfOk result
        (ReadsPrograms (files_state F.Files files.old) (map string_bytes names.now)) }
    ensures err { IfErr result
        (IsStop (HasBadProgram (files_state F.Files files.old) (map string_bytes names.now))) }
    ensures tells { F.tells files.new ≡ F.tells files.old }
    ensures folder { F.folder files.new ≡ F.folder files.old }
    ensures cause { HasStopCause (F.faults files.old) (F.faults files.new) result }
{
    let mut programs = Programs::new(alloc)?;
    for place in 0..names.len() {
        let Some(s) = SessionNo::new(place as u8 + 1) else {
            unreachable!()
        };
        let program = read_program_file(alloc, files, names[place].as_str())?;
        programs.place(s, program);
    }
    Ok(programs)
}

/// Reads the program of a file that is there, not too long and in the grammar.
fn read_program_file<F: Files>(alloc: Global, files: &mut F, name: &str) -> Result<Requests, Stop>
    ensures ok { IfOk result (IsProgramIn (files_state F.Files files.old) name.now) }
    ensures served { IfOk result (λ program. All IsServed program) }
    ensures err { IfErr result
        (IsStop (BadScript Unmarked (files_state F.Files files.old) name.now)) }
    ensures tells { F.tells files.new ≡ F.tells files.old }
    ensures folder { F.folder files.new ≡ F.folder files.old }
    ensures cause { HasStopCause (F.faults files.old) (F.faults files.new) result }
{
    let bytes = read_script_file(alloc, files, name)?;
    match read_program(alloc, bytes.items()) {
        Ok(mut script) => Ok(script.programs.take(first_session())),
        Err(ScriptError::Bad(bad)) => Err(Stop::BadInput(bad_grammar_line(alloc, name, bad)?)),
        Err(ScriptError::NoMemory) => Err(Stop::NoMemory),
    }
}

/// Runs programs on a database, each in a thread. The text is that of the replies in the order in which they came.
pub fn run_in_threads<R: Threads + Sync, G: Gate + Sync>(
    rt: &R,
    alloc: Global,
    opening: Opening,
    programs: Programs,
    gate: &G,
) -> Result<Ran, NoMemory>
    ensures { IfOk result (λ ran.
        RunsInSomeOrder (opening_of opening) programs ran.text (opening_of ran.opening)) }
{
    let running = Running::start(alloc, opening, programs)?;
    let ran = run_threads(rt, alloc, running, gate)?;
    let finished = ran.finish()?;
    Ok(Ran {
        text: text_of(alloc, finished.replies.items())?,
        opening: finished.opening,
    })
}
