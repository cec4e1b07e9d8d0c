//! The files of the system. This is the trusted edge: nothing is claimed of what they hold, so keep it a few lines over std.
ghost use Rattle.std.specs.Prelude.{◌≡◌, ◌≤◌, length, IfOk};
ghost use Rattle.lo_outside.specs.Faults.{HasCause};

use crate::files::{Failed, Files};
use std::alloc::Global;
use std::fs::{OpenFile, OpenOptions};
use std::io::{ErrorKind, Read, Seek, SeekFrom, Write};
use std::marker::Model;
use std::{fs, io};

/// The files of the system, by their paths. The file that was read last stays open, so that reading a file in pieces opens
/// it once: until another is read, a size is asked for, or a file is changed. So does the file that was last appended to,
/// until another is, or a file is created or renamed.
#[derive(Drop)]
pub struct HostFiles<'a, R: std::rt::Files + Alloc<A = Global>> {
    runtime: &'a R,
    last: Option<Opened<R::File>>,
    growing: Option<Opened<R::File>>,
    faults: u64,
}

/// An open file, and the name that it was opened by, if there was memory for that.
#[derive(Drop)]
struct Opened<T: Drop> {
    name: Option<String>,
    file: T,
}

impl<T: Drop> Opened<T> {
    fn is_named(&self, name: &str) -> bool {
        match &self.name {
            Some(own) => own.as_str() == name,
            None => false,
        }
    }
}

impl<'a, R: std::rt::Files + Alloc<A = Global>> Model for HostFiles<'a, R> {
    ghost use Rattle.std.specs.Prelude.{ℕ};

    ghost Value = { ℕ };

    ghost view = { λ files. files.faults };
}

impl<'a, R: std::rt::Files + Alloc<A = Global>> HostFiles<'a, R> {
    /// The files that the runtime reaches. No call has failed, and no file is open.
    pub fn new(runtime: &'a R) -> HostFiles<'a, R>
        ensures { result ≡ 0 }
    {
        HostFiles {
            runtime,
            last: None,
            growing: None,
            faults: 0,
        }
    }

    /// Counts a call that failed.
    fn counted(&mut self, done: io::Result<()>) -> Result<(), Failed>
        ensures { HasCause self.old self.new result }
    {
        if done.is_err() {
            self.faults = self.faults.saturating_add(1);
            return Err(Failed);
        }
        Ok(())
    }

    /// Keeps the file open that was changed, or counts a call that failed.
    fn kept(&mut self, done: io::Result<Opened<R::File>>) -> Result<(), Failed>
        ensures { HasCause self.old self.new result }
    {
        match done {
            Ok(opened) => {
                self.growing = Some(opened);
                Ok(())
            }
            Err(e) => self.counted(Err(e)),
        }
    }
}

/// Opens a file. Where there is no memory for its name, the next read opens it anew.
fn open_named<R: std::rt::Files + Alloc<A = Global>>(
    runtime: &R,
    name: &str,
) -> io::Result<Opened<R::File>> {
    let file = fs::open(runtime, name)?;
    let name = String::from_str(runtime.alloc(), name).ok();
    Ok(Opened { name, file })
}

/// The open file if it has that name, and else another.
fn reopened<R: std::rt::Files + Alloc<A = Global>>(
    runtime: &R,
    opened: Opened<R::File>,
    name: &str,
) -> io::Result<Opened<R::File>> {
    if opened.is_named(name) {
        Ok(opened)
    } else {
        open_named(runtime, name)
    }
}

/// Reads once at an offset of a file, the one that is open if it has that name.
fn read_at<R: std::rt::Files + Alloc<A = Global>>(
    runtime: &R,
    last: Option<Opened<R::File>>,
    name: &str,
    at: u64,
    out: &mut [u8],
) -> io::Result<(usize, Opened<R::File>)>
    ensures { IfOk result (λ read. read.0 ≤ length out.old) }
{
    let mut opened = match last {
        Some(opened) => reopened(runtime, opened, name)?,
        None => open_named(runtime, name)?,
    };
    opened.file.seek(SeekFrom::Start(at))?;
    let n = opened.file.read(out)?;
    Ok((n, opened))
}

/// The file to append to, the one that is open if it has that name.
fn growing<R: std::rt::Files + Alloc<A = Global>>(
    runtime: &R,
    open: Option<Opened<R::File>>,
    name: &str,
) -> io::Result<Opened<R::File>> {
    if let Some(opened) = open {
        if opened.is_named(name) {
            return Ok(opened);
        }
    }
    let mut options = OpenOptions::new();
    options.append(true);
    let file = options.open(runtime, name)?;
    let name = String::from_str(runtime.alloc(), name).ok();
    Ok(Opened { name, file })
}

/// Adds a piece at the end of a file that is there, and gives the file back open.
fn append_to<R: std::rt::Files + Alloc<A = Global>>(
    runtime: &R,
    open: Option<Opened<R::File>>,
    name: &str,
    piece: &[u8],
) -> io::Result<Opened<R::File>> {
    let mut opened = growing(runtime, open, name)?;
    opened.file.write_all(piece)?;
    Ok(opened)
}

/// Brings a file that is there to the disk, and gives it back open.
fn sync_to<R: std::rt::Files + Alloc<A = Global>>(
    runtime: &R,
    open: Option<Opened<R::File>>,
    name: &str,
) -> io::Result<Opened<R::File>> {
    let opened = growing(runtime, open, name)?;
    opened.file.sync_all()?;
    Ok(opened)
}

impl<'a, R: std::rt::Files + Alloc<A = Global>> Files for HostFiles<'a, R> {
    ghost use Rattle.std.specs.Prelude.{false, None};

    ghost tells = { λ _. false };

    ghost folder = { λ _ _. None };

    ghost faults = { λ files. files };

    fn size(&mut self, name: &str) -> Result<Option<u64>, Failed> {
        self.last = None;
        match fs::metadata(self.runtime, name) {
            Ok(found) => Ok(Some(found.len())),
            Err(e) if e.kind() == ErrorKind::NotFound => Ok(None),
            Err(_) => {
                self.faults = self.faults.saturating_add(1);
                Err(Failed)
            }
        }
    }

    fn read(&mut self, name: &str, at: u64, out: &mut [u8]) -> Result<usize, Failed> {
        match read_at(self.runtime, self.last.take(), name, at, out) {
            Ok((n, opened)) => {
                self.last = Some(opened);
                Ok(n)
            }
            Err(e) if e.kind() == ErrorKind::NotFound => Ok(0),
            Err(_) => {
                self.faults = self.faults.saturating_add(1);
                Err(Failed)
            }
        }
    }

    fn create(&mut self, name: &str) -> Result<(), Failed> {
        self.last = None;
        self.growing = None;
        let done = fs::create(self.runtime, name).map(drop);
        self.counted(done)
    }

    fn append(&mut self, name: &str, piece: &[u8]) -> Result<(), Failed> {
        self.last = None;
        let done = append_to(self.runtime, self.growing.take(), name, piece);
        self.kept(done)
    }

    fn sync(&mut self, name: &str) -> Result<(), Failed> {
        let done = sync_to(self.runtime, self.growing.take(), name);
        self.kept(done)
    }

    fn rename(&mut self, from: &str, to: &str) -> Result<(), Failed> {
        self.last = None;
        self.growing = None;
        let done = fs::rename(self.runtime, from, to);
        self.counted(done)
    }
}
