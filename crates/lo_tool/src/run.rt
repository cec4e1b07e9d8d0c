//! The top call: what the words ask for is made, then saved, then printed. Its clauses stay as they are for every command.
ghost use Rattle.std.specs.Prelude.{◌≡◌, ◌≢◌, map, string_bytes};
ghost use Rattle.lo_tool.specs.Finishing.{Finishes};
ghost use Rattle.lo_tool.specs.Outside.{outside, files_state, TellsAsBefore, IsFaultless, Failing};
ghost use Rattle.lo_tool.specs.Reading.{made_of};
ghost use Rattle.lo_tool.specs.Status.{IsDone, IsRefused, IsUsage, IsRefusedInput, IsFault, IsNoMemory, IsRunnable, EndsWell, Leaves};

use crate::made::Made;
use crate::making::make;
use crate::printing::{complain, print, report_fault};
use crate::saving::{new_name, save};
use crate::stop::Stop;
use crate::text::USAGE;
use crate::words::command_of;
use lo_outside::{Failed, Files, Gate, Sink};
use std::alloc::Global;
use std::marker::Sync;
use std::thread::Threads;

/// How a command ended. The number is the program's exit status.
#[derive(Clone, Copy, Debug, PartialEq, Eq)]
pub enum Status {
    /// All that the words ask for is done and printed.
    Done = 0,
    /// A reply that the command rests on is a refusal.
    Refused = 1,
    /// The words are no command.
    Usage = 2,
    /// A file cannot be used.
    BadInput = 3,
    /// A file, standard output or standard error failed.
    Fault = 4,
    /// There was not memory enough. Nothing is printed.
    NoMemory = 5,
}

/// Does what the words after the program's name say. All that a command prints and saves is made before a file changes; then the
/// image is saved, and then the text is printed.
pub fn run<R: Threads + Sync, F: Files, O: Sink, G: Gate + Sync>(
    rt: &R,
    alloc: Global,
    words: &[String],
    files: &mut F,
    out: &mut O,
    err: &mut O,
    gate: &G,
) -> Status
    ensures done { result ≡ Status.Done → IsDone (map string_bytes words.now)
        (outside F.Files O.Sink files.old out.old err.old)
        (outside F.Files O.Sink files.new out.new err.new) }
    ensures usage { result ≡ Status.Usage → IsUsage (map string_bytes words.now)
        (outside F.Files O.Sink files.old out.old err.old)
        (outside F.Files O.Sink files.new out.new err.new) }
    ensures bad_input { result ≡ Status.BadInput → IsRefusedInput (map string_bytes words.now)
        (outside F.Files O.Sink files.old out.old err.old)
        (outside F.Files O.Sink files.new out.new err.new) }
    ensures fault { result ≡ Status.Fault → IsFault (map string_bytes words.now)
        (outside F.Files O.Sink files.old out.old err.old)
        (outside F.Files O.Sink files.new out.new err.new) }
    ensures no_memory { result ≡ Status.NoMemory → IsNoMemory (map string_bytes words.now)
        (outside F.Files O.Sink files.old out.old err.old)
        (outside F.Files O.Sink files.new out.new err.new) }
    ensures refused { result ≡ Status.Refused → IsRefused (map string_bytes words.now)
        (outside F.Files O.Sink files.old out.old err.old)
        (outside F.Files O.Sink files.new out.new err.new) }

    // Where a count of faults rose, no other answer comes.
    ensures faultless { result ≢ Status.Fault → IsFaultless
        (outside F.Files O.Sink files.old out.old err.old)
        (outside F.Files O.Sink files.new out.new err.new) }

    // A command that has all it needs is done or refused, or memory is wanting.
    ensures complete { IsRunnable (map string_bytes words.now) (files_state F.Files files.old) →
        (Failing (outside F.Files O.Sink files.old out.old err.old)
        (outside F.Files O.Sink files.new out.new err.new) → ⊥) →
        EndsWell result }
    ensures tells { TellsAsBefore
        (outside F.Files O.Sink files.old out.old err.old)
        (outside F.Files O.Sink files.new out.new err.new) }
{
    run_words(rt, alloc, words, files, out, err, gate)
}

fn run_words<R: Threads + Sync, F: Files, O: Sink, G: Gate + Sync>(
    rt: &R,
    alloc: Global,
    words: &[String],
    files: &mut F,
    out: &mut O,
    err: &mut O,
    gate: &G,
) -> Status
    ensures leaves { Leaves (map string_bytes words.now)
        (outside F.Files O.Sink files.old out.old err.old)
        (outside F.Files O.Sink files.new out.new err.new) result }
    ensures tells { TellsAsBefore
        (outside F.Files O.Sink files.old out.old err.old)
        (outside F.Files O.Sink files.new out.new err.new) }
{
    let Some(command) = command_of(words) else {
        return complain(err, USAGE.as_bytes(), Status::Usage);
    };
    match make(rt, alloc, files, command, gate) {
        Ok(made) => finish(alloc, &made, files, out, err),
        Err(Stop::BadInput(line)) => complain(err, line.items(), Status::BadInput),
        Err(Stop::Refused(line)) => complain(err, line.items(), Status::Refused),
        Err(Stop::Fault) => report_fault(err),
        Err(Stop::NoMemory) => Status::NoMemory,
    }
}

/// Saves what a command made, if it saves, and then prints its text.
fn finish<F: Files, O: Sink>(
    alloc: Global,
    made: &Made<'_>,
    files: &mut F,
    out: &mut O,
    err: &mut O,
) -> Status
    ensures ends { Finishes (made_of made.now)
        (outside F.Files O.Sink files.old out.old err.old)
        (outside F.Files O.Sink files.new out.new err.new) result }
    ensures tells { TellsAsBefore
        (outside F.Files O.Sink files.old out.old err.old)
        (outside F.Files O.Sink files.new out.new err.new) }
{
    let Some(saving) = &made.saved else {
        return print(made.text.items(), out, err);
    };
    let Ok(name) = new_name(alloc, saving.image) else {
        return Status::NoMemory;
    };
    match save(saving, name.as_str(), files) {
        Ok(()) => print(made.text.items(), out, err),
        Err(Failed) => report_fault(err),
    }
}
