//! A script with the reply that is to come to each of its lines, written side by side.
use super::{check_all, done};
use std::alloc::{AllocError, Global};
use std::marker::Sync;
use std::process::Abort;
use std::test::Fail;
use std::thread::Threads;

/// Each session with an object of its own.
pub(super) const SESSIONS: [(&str, &str); 16] = [
    ("A", "17001"),
    ("B", "17002"),
    ("C", "17003"),
    ("D", "17004"),
    ("E", "17005"),
    ("F", "17006"),
    ("G", "17007"),
    ("H", "17008"),
    ("I", "17009"),
    ("J", "17010"),
    ("K", "17011"),
    ("L", "17012"),
    ("M", "17013"),
    ("N", "17014"),
    ("O", "17015"),
    ("P", "17016"),
];

/// A script and its whole output, which are written side by side.
#[derive(Drop)]
pub(super) struct Dialogue {
    script: String,
    printed: String,
}

impl Dialogue {
    /// No line yet.
    pub(super) fn new(alloc: Global) -> Dialogue {
        Dialogue {
            script: String::new(alloc),
            printed: String::new(alloc),
        }
    }

    /// A request of a session, in pieces, and the reply that is to come.
    pub(super) fn add(
        &mut self,
        letter: &str,
        request: &[&str],
        reply: &str,
    ) -> Result<(), AllocError> {
        self.script.push_str(letter)?;
        self.script.push_str(": ")?;
        for piece in request {
            self.script.push_str(*piece)?;
        }
        self.script.push_str("\n")?;
        for piece in [letter, ": ", reply, "\n"] {
            self.printed.push_str(piece)?;
        }
        Ok(())
    }

    /// Runs the script, and compares all that it prints.
    pub(super) fn check<R: Abort + Threads + Sync>(
        &self,
        rt: &R,
        alloc: Global,
    ) -> Result<(), Fail> {
        let case = done(self.script.as_str(), 1000, self.printed.as_str());
        check_all(rt, alloc, &[case])
    }
}

/// Runs the lines, each with its session and the reply that is to come.
pub(super) fn check_dialogue<R: Abort + Threads + Sync>(
    rt: &R,
    alloc: Global,
    lines: &[(&str, &str, &str)],
) -> Result<(), Fail> {
    let mut dialogue = Dialogue::new(alloc);
    for (letter, request, reply) in lines {
        dialogue.add(*letter, &[*request], *reply)?;
    }
    dialogue.check(rt, alloc)
}
