// Programs: one list of requests for each session. The type keeps which requests can stand in them.
ghost use Rattle.std.specs.Prelude.{◌≡◌, ◌-◌, List, [], ◌∷◌, ◌++◌, replicate, All, IfOk, OnOk, OnErr, slice_set};
ghost use Rattle.lo_machine.specs.Program.{program_of};
ghost use Rattle.lo_machine.specs.Served.{IsServed, AreServed};

use lo_base::{ListOf, NoMemory, Request, Requests, SESSIONS, SessionNo};
use std::alloc::Global;
use std::marker::Model;
use std::mem;

/// A program for each session, from session 1 on: the requests that scripts can spell, in the session's order.
#[derive(Debug, Drop)]
pub struct Programs {
    alloc: Global,
    lists: Vec<Requests>,
}

impl Model for Programs {
    ghost use Rattle.std.specs.Prelude.{◌≡◌, List, All, length};
    ghost use Rattle.lo_base.specs.declared.request.Request.{Request as Line};
    ghost use Rattle.lo_machine.specs.Served.{IsServed};

    ghost Value = { List (List Line) };

    ghost view = { λ p. p.lists.items };

    ghost invariant = { λ p. (length p.lists.items ≡ 16) × All (λ lines. All IsServed lines) p.lists.items };
}

impl Programs {
    /// Sixteen empty programs.
    pub fn new(alloc: Global) -> Result<Programs, NoMemory>
        ensures { IfOk result (λ programs. programs ≡ replicate 16 []) }
    {
        let mut lists = Vec::with_capacity(alloc, SESSIONS as usize)?;
        for _session in 0..SESSIONS {
            lists.push(ListOf::new(alloc))?;
        }
        Ok(Programs { alloc, lists })
    }

    /// Adds a request at the end of the session's program.
    pub fn push(&mut self, s: SessionNo, request: Request) -> Result<(), NoMemory>
        requires { IsServed request }
        ensures ok { OnOk result (self.new ≡ slice_set self.old (s - 1) (program_of self.old s ++ request ∷ [])) }
        ensures err { OnErr result (self.new ≡ self.old) }
    {
        self.lists[s.place()].push(request)
    }

    /// The session's program.
    pub fn lines(&self, s: SessionNo) -> &[Request]
        ensures lines { result.now ≡ program_of self.now s }
        ensures served { All IsServed result.now }
    {
        self.lists[s.place()].items()
    }

    /// That all requests are among those served so far. No code runs but a look at the lists.
    pub fn served(&self)
        ensures { AreServed self.now }
    {
        let _ = &self.lists;
    }

    /// Hands out the session's program and leaves it empty.
    pub fn take(&mut self, s: SessionNo) -> Requests
        ensures taken { result ≡ program_of self.old s }
        ensures left { self.new ≡ slice_set self.old (s - 1) [] }
        ensures served { All IsServed result }
    {
        mem::replace(&mut self.lists[s.place()], ListOf::new(self.alloc))
    }

    /// Puts a program in place of the session's.
    pub fn place(&mut self, s: SessionNo, lines: Requests)
        requires { All IsServed lines }
        ensures { self.new ≡ slice_set self.old (s - 1) lines }
    {
        self.lists[s.place()] = lines;
    }
}
