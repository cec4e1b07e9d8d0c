//! From the bytes of a script to the text of its run, and the database that it leaves.
ghost use Rattle.std.specs.Prelude.{◌≡◌, IfOk};
ghost use Rattle.lo_machine.specs.Committed.{committed_opening};
ghost use Rattle.lo_machine.specs.Run.{IsOrderOf, IsWholeFrom, end_from, replies_from, start_from};
ghost use Rattle.lo_opening.specs.Meaning.{opening_of};
ghost use Rattle.lo_script.specs.ReplyText.{lines_of};
ghost use Rattle.lo_script.specs.Script.{script_with};
ghost use Rattle.lo_tool.specs.Reading.{RunsBytes};
ghost use Rattle.lo_tool.specs.ScriptFile.{PlaysTo, schedule_on};

use crate::stop::Stop;
use crate::text::bad_grammar_line;
use lo_base::{Bytes, NoMemory, Reply, SessionNo};
use lo_machine::{Finished, Running, orders_are_whole};
use lo_opening::Opening;
use lo_script::{Script, ScriptError, read_script, reply_text};
use std::alloc::Global;

/// The text of a run, one line for each reply in the order of the schedule, and the database that is committed at its end.
#[derive(Drop)]
pub struct Ran {
    pub text: Bytes,
    pub opening: Opening,
}

/// Runs a script's bytes on a database. The name is that of the script's file.
pub fn run_script(alloc: Global, opening: Opening, name: &str, bytes: &[u8]) -> Result<Ran, Stop>
    ensures { RunsBytes opening name.now bytes.now result }
{
    let script = match read_script(alloc, bytes) {
        Ok(script) => script,
        Err(ScriptError::Bad(bad)) => {
            return Err(Stop::BadInput(bad_grammar_line(alloc, name, bad)?));
        }
        Err(ScriptError::NoMemory) => return Err(Stop::NoMemory),
    };
    let finished = play(alloc, opening, script)?;
    Ok(Ran {
        text: text_of(alloc, finished.replies.items())?,
        opening: finished.opening,
    })
}

/// Runs a script on a database, to its end.
fn play(alloc: Global, opening: Opening, script: Script) -> Result<Finished, NoMemory>
    requires { IsOrderOf script.programs script.order }
    ensures whole { IsWholeFrom script.programs (start_from (opening_of opening))
        (schedule_on (opening_of opening) (script_with script.programs script.order)) }
    ensures plays { IfOk result (PlaysTo (opening_of opening) script.programs
        (schedule_on (opening_of opening) (script_with script.programs script.order))) }
{
    orders_are_whole();
    play_order(alloc, opening, script)
}

/// Does the next line of each session of the order, one after the other. A `finish` takes as many advances as its clean-up needs.
fn play_order(alloc: Global, opening: Opening, script: Script) -> Result<Finished, NoMemory>
    requires { IsOrderOf script.programs script.order }
    ensures { IfOk result (PlaysTo (opening_of opening) script.programs
        (schedule_on (opening_of opening) (script_with script.programs script.order))) }
{
    let mut running = Running::start(alloc, opening, script.programs)?;
    for s in script.order.items() {
        running.do_line(*s)?;
    }
    running.finish()
}

/// The lines of replies.
pub fn text_of(alloc: Global, replies: &[(SessionNo, Reply)]) -> Result<Bytes, NoMemory>
    ensures { IfOk result (λ text. text ≡ lines_of replies.now) }
{
    let mut text = Bytes::new(alloc);
    for (s, reply) in replies {
        reply_text(*s, reply, &mut text)?;
    }
    Ok(text)
}
