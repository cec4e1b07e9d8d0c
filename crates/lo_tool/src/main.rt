//! `lo_tool`: large objects as PostgreSQL has them, on the command line.
#![tactic(auto)]

mod cleaning;
mod cleaning_text;
mod made;
mod making;
mod playing;
mod printing;
mod reading;
mod run;
mod saving;
mod stop;
#[cfg(test)]
mod tests;
mod text;
mod threading;
mod words;

use lo_base::NoMemory;
use lo_outside::{HostFiles, HostSink, OpenGate};
use run::{Status, run};
use std::alloc::Global;
use std::env;
use std::io::ErrorKind;
use std::process::ExitCode;
use std::rt::Env;

/// The words after the program's name. None where the system gives words that are no text: they are no command.
fn given_words<R: Env + Alloc<A = Global>>(rt: &R) -> Result<Vec<String>, NoMemory> {
    let mut all = Vec::new(rt.alloc());
    match env::args(rt) {
        Ok(given) => {
            for word in given.skip(1) {
                all.push(word)?;
            }
        }
        Err(e) if e.kind() == ErrorKind::OutOfMemory => return Err(NoMemory),
        Err(_) => {}
    }
    Ok(all)
}

fn main(rt: HostRuntime) -> ExitCode {
    let Ok(words) = given_words(&rt) else {
        return ExitCode::from(Status::NoMemory as u8);
    };
    let mut files = HostFiles::new(&rt);
    let mut out = HostSink::out(rt.stdout());
    let mut err = HostSink::err(rt.stderr());
    let status = run(
        &rt,
        rt.alloc(),
        &words,
        &mut files,
        &mut out,
        &mut err,
        &OpenGate,
    );
    ExitCode::from(status as u8)
}
