//! The command `vacuumlo`: a clean-up by session 1 on a database of its own, from its list to its report. Which act comes next is
//! orphan_sweep's, and the engine does it. (Manual, vacuumlo.)
ghost use Rattle.std.specs.Prelude.{◌≡◌, ◌≤◌, [], IfOk, OnOk};
ghost use Rattle.lo_opening.specs.Meaning.{opening_of};
ghost use Rattle.lo_tool.specs.CleanUp.{CleansUp};
ghost use Rattle.lo_tool.specs.CleanUpWork.{HasDone, IsAtReport};

use crate::cleaning_text::{say_listed, say_removal, say_scanned};
use crate::playing::Ran;
use crate::words::{CleanUp, MOST_LIMIT};
use lo_base::{Bytes, NoMemory, Request, SessionNo};
use lo_machine::{Programs, Running, is_before_report, sweeps_remove_what_no_scan_found};
use lo_opening::Opening;
use std::alloc::Global;

/// Runs a clean-up on a database to its report. The text is what it tells of itself.
pub fn clean_up(alloc: Global, opening: Opening, options: CleanUp) -> Result<Ran, NoMemory>
    requires { options.limit ≤ MOST_LIMIT }
    ensures { IfOk result (λ ran.
        CleansUp (opening_of opening) options ran.text (opening_of ran.opening)) }
{
    let s = first_session();
    let mut text = Bytes::new(alloc);
    let mut running = begin(alloc, opening, options)?;
    if options.verbose {
        say_listed(running.rest(s).len() as u64, &mut text)?;
    }
    do_acts(&mut running, options, &mut text)?;
    say_removal(options, running.rest(s), &mut text)?;
    running.advance(s)?;
    sweeps_remove_what_no_scan_found();
    let finished = running.finish()?;
    Ok(Ran {
        text,
        opening: finished.opening,
    })
}

/// The run of a clean-up that has made its list and nothing else.
fn begin(alloc: Global, opening: Opening, options: CleanUp) -> Result<Running, NoMemory>
    requires { options.limit ≤ MOST_LIMIT }
    ensures { IfOk result (λ running.
        HasDone (opening_of opening) options running []) }
{
    let s = first_session();
    let mut programs = Programs::new(alloc)?;
    programs.push(s, Request::Vacuumlo(options.dry, options.limit))?;
    programs.push(s, Request::Finish)?;
    let mut running = Running::start(alloc, opening, programs)?;
    running.advance(s)?;
    Ok(running)
}

/// Does the acts before the report, and tells of each scan.
fn do_acts(running: &mut Running, options: CleanUp, text: &mut Bytes) -> Result<(), NoMemory>
    requires { HasDone running.old.opening options running.old [] }
    ensures { OnOk result (
        IsAtReport running.old.opening options running.new text.old text.new) }
{
    let s = first_session();
    while is_before_report(running.act(s)) {
        if options.verbose {
            say_scanned(running.act(s), text)?;
        }
        running.advance(s)?;
    }
    Ok(())
}

/// Session 1, which does what a command asks of a database.
pub fn first_session() -> SessionNo
    ensures { result ≡ 1 }
{
    let Some(s) = SessionNo::new(1) else {
        unreachable!()
    };
    s
}
