//! The streams of the system. This is the trusted edge: nothing is claimed of what becomes of the bytes.
ghost use Rattle.std.specs.Prelude.{◌≡◌};

use crate::files::Failed;
use crate::sink::Sink;
use std::io;
use std::io::{Stderr, Stdout, Write};
use std::marker::Model;

/// Standard output or standard error, as one type.
#[derive(Drop)]
pub enum Standard {
    /// Standard output.
    Output(Stdout),
    /// Standard error.
    Error(Stderr),
}

impl Write for Standard {
    fn write(&mut self, buf: &[u8]) -> io::Result<usize> {
        match self {
            Standard::Output(stdout) => stdout.write(buf),
            Standard::Error(stderr) => stderr.write(buf),
        }
    }

    fn flush(&mut self) -> io::Result<()> {
        match self {
            Standard::Output(stdout) => stdout.flush(),
            Standard::Error(stderr) => stderr.flush(),
        }
    }
}

/// A stream of the system as a sink. A stream that takes nothing of a piece with bytes has failed.
#[derive(Drop)]
pub struct HostSink<W: Write> {
    stream: W,
    faults: u64,
}

impl<W: Write> Model for HostSink<W> {
    ghost use Rattle.std.specs.Prelude.{ℕ};

    ghost Value = { ℕ };

    ghost view = { λ sink. sink.faults };
}

impl<W: Write> HostSink<W> {
    /// The sink that writes to that stream. No call has failed.
    pub fn new(stream: W) -> HostSink<W>
        ensures { result ≡ 0 }
    {
        HostSink { stream, faults: 0 }
    }
}

impl HostSink<Standard> {
    /// Standard output.
    pub fn out(stdout: Stdout) -> HostSink<Standard>
        ensures { result ≡ 0 }
    {
        HostSink::new(Standard::Output(stdout))
    }

    /// Standard error.
    pub fn err(stderr: Stderr) -> HostSink<Standard>
        ensures { result ≡ 0 }
    {
        HostSink::new(Standard::Error(stderr))
    }
}

impl<W: Write> Sink for HostSink<W> {
    ghost use Rattle.std.specs.Prelude.{false, []};

    ghost tells = { λ _. false };

    ghost taken = { λ _. [] };

    ghost faults = { λ sink. sink };

    fn write(&mut self, piece: &[u8]) -> Result<usize, Failed> {
        match self.stream.write(piece) {
            Ok(n) if n > 0 || piece.is_empty() => Ok(n),
            _ => {
                self.faults = self.faults.saturating_add(1);
                Err(Failed)
            }
        }
    }
}
