//! Printing a text or a line whole. Nothing follows a failure but the fault line.
ghost use Rattle.std.specs.Prelude.{◌≡◌, ◌++◌, IsTrue, OnOk, OnErr};
ghost use Rattle.lo_base.specs.Appended.{AddsFront};
ghost use Rattle.lo_outside.specs.Faults.{HasCause};
ghost use Rattle.lo_tool.specs.Outside.{sink_state};
ghost use Rattle.lo_tool.specs.Printing.{Complains, Prints};
ghost use Rattle.lo_tool.specs.Texts.{fault_line};

use crate::run::Status;
use crate::text::FAULT;
use lo_outside::{Failed, Sink};

/// Prints the text of a command that is done. Where standard output fails, that is said on standard error.
pub fn print<O: Sink>(text: &[u8], out: &mut O, err: &mut O) -> Status
    ensures prints { Prints text.now (sink_state O.Sink out.old) (sink_state O.Sink out.new)
        (sink_state O.Sink err.old) (sink_state O.Sink err.new) result }
    ensures tells { O.tells out.new ≡ O.tells out.old }
    ensures err_tells { O.tells err.new ≡ O.tells err.old }
{
    match write_whole(out, text) {
        Ok(()) => Status::Done,
        Err(Failed) => report_fault(err),
    }
}

/// Says on standard error why a command was not done.
pub fn complain<O: Sink>(err: &mut O, line: &[u8], status: Status) -> Status
    ensures complains { Complains line.now status
        (sink_state O.Sink err.old) (sink_state O.Sink err.new) result }
    ensures tells { O.tells err.new ≡ O.tells err.old }
{
    match write_whole(err, line) {
        Ok(()) => status,
        Err(Failed) => Status::Fault,
    }
}

/// Says on standard error that something failed, as far as standard error takes it.
pub fn report_fault<O: Sink>(err: &mut O) -> Status
    ensures complains { Complains fault_line Status.Fault
        (sink_state O.Sink err.old) (sink_state O.Sink err.new) result }
    ensures tells { O.tells err.new ≡ O.tells err.old }
{
    complain(err, FAULT.as_bytes(), Status::Fault)
}

/// Writes a whole text, by as many calls as the sink asks for.
pub fn write_whole<O: Sink>(sink: &mut O, text: &[u8]) -> Result<(), Failed>
    ensures whole { IsTrue (O.tells sink.old) →
        OnOk result (O.taken sink.new ≡ O.taken sink.old ++ text.now) }
    ensures front { IsTrue (O.tells sink.old) →
        OnErr result (AddsFront (O.taken sink.old) (O.taken sink.new) text.now) }
    ensures tells { O.tells sink.new ≡ O.tells sink.old }
    ensures cause { HasCause (O.faults sink.old) (O.faults sink.new) result }
{
    let mut at = 0;
    while at < text.len() {
        at += sink.write(&text[at..])?;
    }
    Ok(())
}
