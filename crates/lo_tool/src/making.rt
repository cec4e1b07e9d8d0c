//! What each command makes of its files: the text that it prints, and the database that it saves. No file changes here. A new
//! command has one arm in `make` and one function.
ghost use Rattle.std.specs.Prelude.{◌≡◌, ◌≤◌, IfErr, IfOk, length, map, string_bytes};
ghost use Rattle.lo_machine.specs.Served.{IsServed};
ghost use Rattle.lo_opening.specs.Meaning.{opening_of};
ghost use Rattle.lo_opening.specs.Opening.{IsOpening};
ghost use Rattle.lo_tool.specs.Command.{Init, IsInRange, ListObjects, RemoveOrphans, RunScript, RunScriptOn, RunThreads, UnlinkObject, command_meant};
ghost use Rattle.lo_tool.specs.Objects.{IsGranted};
ghost use Rattle.lo_tool.specs.Outside.{files_state};
ghost use Rattle.lo_tool.specs.Reading.{HasStopCause, IsRequestStop, Makes};

use crate::cleaning::{clean_up, first_session};
use crate::made::{Made, Saving};
use crate::playing::run_script;
use crate::reading::{need_no_file, read_opening, read_script_file};
use crate::stop::Stop;
use crate::text::{objects_text, refusal_line, unlinked_text};
use crate::threading::{read_programs, run_in_threads};
use crate::words::{CleanUp, Command, MOST_LIMIT, MOST_PROGRAMS, USUAL_BLOCKS};
use lo_base::{Bytes, Oid, Reply, Request};
use lo_machine::Engine;
use lo_opening::Opening;
use lo_outside::{Files, Gate};
use std::alloc::Global;
use std::marker::Sync;
use std::thread::Threads;

/// Makes all that a command prints and saves.
pub fn make<'a, R: Threads + Sync, F: Files, G: Gate + Sync>(
    rt: &R,
    alloc: Global,
    files: &mut F,
    command: Command<'a>,
    gate: &G,
) -> Result<Made<'a>, Stop>
    requires pool { IsInRange command }
    ensures makes { Makes (command_meant command.entry) (files_state F.Files files.old) result }
    ensures cause { HasStopCause (F.faults files.old) (F.faults files.new) result }
    ensures folder { F.folder files.new ≡ F.folder files.old }
    ensures tells { F.tells files.new ≡ F.tells files.old }
{
    match command {
        Command::Init { image, blocks } => make_empty(alloc, files, image, blocks),
        Command::RunScript { file } => run_file(alloc, files, file),
        Command::RunScriptOn { image, file } => run_on(alloc, files, image, file),
        Command::Threads { image, names } => run_all(rt, alloc, files, image, names, gate),
        Command::CleanUp { image, options } => clean(alloc, files, image, options),
        Command::List { image } => list(alloc, files, image),
        Command::Unlink { image, oid } => unlink(alloc, files, image, oid),
    }
}

/// An empty database, to be saved where no file of its name is there.
fn make_empty<'a, F: Files>(
    alloc: Global,
    files: &mut F,
    image: &'a str,
    blocks: u32,
) -> Result<Made<'a>, Stop>
    requires least { 1 ≤ blocks }
    requires most { blocks ≤ 262144 }
    ensures makes { Makes (Init image.now blocks) (files_state F.Files files.old) result }
    ensures cause { HasStopCause (F.faults files.old) (F.faults files.new) result }
    ensures folder { F.folder files.new ≡ F.folder files.old }
    ensures tells { F.tells files.new ≡ F.tells files.old }
{
    need_no_file(alloc, files, image)?;
    Ok(Made {
        text: Bytes::new(alloc),
        saved: Some(Saving {
            image,
            opening: Opening::empty(alloc, blocks),
        }),
    })
}

/// The text of the run of a script's file on an empty database.
fn run_file<'a, F: Files>(alloc: Global, files: &mut F, file: &'a str) -> Result<Made<'a>, Stop>
    ensures makes { Makes (RunScript file.now) (files_state F.Files files.old) result }
    ensures cause { HasStopCause (F.faults files.old) (F.faults files.new) result }
    ensures folder { F.folder files.new ≡ F.folder files.old }
    ensures tells { F.tells files.new ≡ F.tells files.old }
{
    let bytes = read_script_file(alloc, files, file)?;
    let empty = Opening::empty(alloc, USUAL_BLOCKS);
    let ran = run_script(alloc, empty, file, bytes.items())?;
    Ok(Made {
        text: ran.text,
        saved: None,
    })
}

/// The text of the run of a script's file on the database of an image, and what is committed at its end.
fn run_on<'a, F: Files>(
    alloc: Global,
    files: &mut F,
    image: &'a str,
    file: &str,
) -> Result<Made<'a>, Stop>
    ensures makes { Makes (RunScriptOn image.now file.now) (files_state F.Files files.old) result }
    ensures cause { HasStopCause (F.faults files.old) (F.faults files.new) result }
    ensures folder { F.folder files.new ≡ F.folder files.old }
    ensures tells { F.tells files.new ≡ F.tells files.old }
{
    let opening = read_opening(alloc, files, image)?;
    let bytes = read_script_file(alloc, files, file)?;
    let ran = run_script(alloc, opening, file, bytes.items())?;
    keeps_rules(&ran.opening);
    Ok(Made {
        text: ran.text,
        saved: Some(Saving {
            image,
            opening: ran.opening,
        }),
    })
}

/// The text of the run of programs by threads on the database of an image, and what is committed at its end.
fn run_all<'a, R: Threads + Sync, F: Files, G: Gate + Sync>(
    rt: &R,
    alloc: Global,
    files: &mut F,
    image: &'a str,
    names: &[String],
    gate: &G,
) -> Result<Made<'a>, Stop>
    requires { length names.now ≤ MOST_PROGRAMS }
    ensures makes { Makes (RunThreads image.now (map string_bytes names.now))
        (files_state F.Files files.old) result }
    ensures cause { HasStopCause (F.faults files.old) (F.faults files.new) result }
    ensures folder { F.folder files.new ≡ F.folder files.old }
    ensures tells { F.tells files.new ≡ F.tells files.old }
{
    let opening = read_opening(alloc, files, image)?;
    let programs = read_programs(alloc, files, names)?;
    let ran = run_in_threads(rt, alloc, opening, programs, gate)?;
    keeps_rules(&ran.opening);
    Ok(Made {
        text: ran.text,
        saved: Some(Saving {
            image,
            opening: ran.opening,
        }),
    })
}

/// The removal of what no column of an image names. A dry one saves nothing.
fn clean<'a, F: Files>(
    alloc: Global,
    files: &mut F,
    image: &'a str,
    options: CleanUp,
) -> Result<Made<'a>, Stop>
    requires { options.limit ≤ MOST_LIMIT }
    ensures makes { Makes (RemoveOrphans image.now options) (files_state F.Files files.old) result }
    ensures cause { HasStopCause (F.faults files.old) (F.faults files.new) result }
    ensures folder { F.folder files.new ≡ F.folder files.old }
    ensures tells { F.tells files.new ≡ F.tells files.old }
{
    let opening = read_opening(alloc, files, image)?;
    let ran = clean_up(alloc, opening, options)?;
    keeps_rules(&ran.opening);
    Ok(Made {
        text: ran.text,
        saved: if options.dry {
            None
        } else {
            Some(Saving {
                image,
                opening: ran.opening,
            })
        },
    })
}

/// The objects of an image with their sizes.
fn list<'a, F: Files>(alloc: Global, files: &mut F, image: &'a str) -> Result<Made<'a>, Stop>
    ensures makes { Makes (ListObjects image.now) (files_state F.Files files.old) result }
    ensures cause { HasStopCause (F.faults files.old) (F.faults files.new) result }
    ensures folder { F.folder files.new ≡ F.folder files.old }
    ensures tells { F.tells files.new ≡ F.tells files.old }
{
    let opening = read_opening(alloc, files, image)?;
    keeps_rules(&opening);
    Ok(Made {
        text: objects_text(alloc, opening.objects.items())?,
        saved: None,
    })
}

/// The removal of an object of an image.
fn unlink<'a, F: Files>(
    alloc: Global,
    files: &mut F,
    image: &'a str,
    oid: Oid,
) -> Result<Made<'a>, Stop>
    ensures makes { Makes (UnlinkObject image.now oid) (files_state F.Files files.old) result }
    ensures cause { HasStopCause (F.faults files.old) (F.faults files.new) result }
    ensures folder { F.folder files.new ≡ F.folder files.old }
    ensures tells { F.tells files.new ≡ F.tells files.old }
{
    let opening = read_opening(alloc, files, image)?;
    let left = do_request(alloc, &opening, &Request::LoUnlink(oid))?;
    keeps_rules(&left);
    Ok(Made {
        text: unlinked_text(alloc, oid)?,
        saved: Some(Saving {
            image,
            opening: left,
        }),
    })
}

/// Does one request of session 1 on a database, and answers what is committed then.
fn do_request(alloc: Global, opening: &Opening, request: &Request) -> Result<Opening, Stop>
    requires { IsServed request.now }
    ensures ok { IfOk result (λ left.
        IsGranted (opening_of opening.now) request.now (opening_of left)) }
    ensures err { IfErr result (IsRequestStop (opening_of opening.now) request.now) }
{
    let s = first_session();
    let mut engine = Engine::start(alloc, opening)?;
    let reply = engine.step(s, request)?;
    if let Reply::Refused(refusal) = &reply {
        return Err(Stop::Refused(refusal_line(alloc, refusal)?));
    }
    Ok(engine.committed(opening.blocks)?)
}

/// That an opening keeps the rules of its fields, as its type does. No code runs but a look at a field.
fn keeps_rules(opening: &Opening)
    ensures { IsOpening opening.now }
{
    let _ = &opening.tables;
}
