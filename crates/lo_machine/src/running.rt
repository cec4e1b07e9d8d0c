// A run: programs, the schedule so far, the replies, and the engine. The type keeps that replaying gives the replies; the
// engine is called in one place, `advance`.
ghost use Rattle.std.specs.Prelude.{◌≡◌, ◌+◌, ◌<◌, ◌-◌, ◌^◌, ℕ, [], IsTrue, IsFalse, IfOk, OnOk, OnErr};
ghost use Rattle.lo_opening.specs.Meaning.{opening_of};
ghost use Rattle.lo_machine.specs.Committed.{committed_opening};
ghost use Rattle.lo_machine.specs.Engine.{IsEngine, StandsFor};
ghost use Rattle.lo_machine.specs.Replay.{Play, HasLine, Replays, IsPlayed, Advances, DoesLine, moment_of};
ghost use Rattle.lo_machine.specs.Run.{lines_after, stays_at_line};
ghost use Rattle.lo_machine.specs.State.{State};
ghost use Rattle.lo_machine.specs.SweepLaw.{IsSweepOf, KeepsSweepLaw, Sweeping};
ghost use Rattle.lo_machine.specs.SweepRows.{act_of, is_before_report, rest_before_report};
ghost use Rattle.lo_machine.specs.Sweeping.{sweeps_of};

use crate::engine::Engine;
use crate::programs::Programs;
use lo_base::{ListOf, NoMemory, Oid, Reply, Request, SESSIONS, SessionNo};
use lo_opening::Opening;
use orphan_sweep::SweepAct;
use std::alloc::Global;
use std::marker::Model;

/// The session of each advance, in the order made.
pub type Schedule = ListOf<SessionNo>;

/// The reply to each advance, with its session.
pub type Replies = ListOf<(SessionNo, Reply)>;

/// More advances than a memory has room for.
const MOST_ADVANCES: usize = (1 << 62) - 1;

/// Programs that are being run. Replaying them over the schedule so far gives the replies so far, and the engine stands
/// for the state at its end.
#[derive(Drop)]
pub struct Running {
    opening: Opening,
    programs: Programs,
    /// For each session how many lines of its program are done.
    lines_done: Vec<usize>,
    schedule: Vec<SessionNo>,
    replies: Vec<(SessionNo, Reply)>,
    engine: Engine,
}

/// What a run leaves: the database that is committed at its end, its schedule and its replies.
#[derive(Drop)]
pub struct Finished {
    pub opening: Opening,
    pub schedule: Schedule,
    pub replies: Replies,
}

impl Model for Running {
    ghost use Rattle.lo_machine.specs.Replay.{Play};

    ghost Value = { Play };

    ghost use Rattle.lo_machine.specs.Running.{play_of, IsReplay};

    ghost view = { play_of };

    ghost invariant = { IsReplay };
}

impl Running {
    /// Programs before their first advance, on the database of an opening.
    pub fn start(alloc: Global, opening: Opening, programs: Programs) -> Result<Running, NoMemory>
        ensures { IfOk result (λ run. run ≡ record {
          opening = opening_of opening;
          programs = programs;
          schedule = [];
          replies = [];
        }) }
    {
        let mut lines_done = Vec::new(alloc);
        lines_done.resize(SESSIONS as usize, 0)?;
        let engine = Engine::start(alloc, &opening)?;
        Ok(Running {
            opening,
            programs,
            lines_done,
            schedule: Vec::new(alloc),
            replies: Vec::new(alloc),
            engine,
        })
    }

    /// Whether the session has no line left.
    pub fn is_done(&self, s: SessionNo) -> bool
        ensures done { IsTrue result → ¬ HasLine self.now s }
        ensures left { IsFalse result → HasLine self.now s }
    {
        self.lines_done[s.place()] >= self.programs.lines(s).len()
    }

    /// The number of the session's next line in its program, from 1: one more than the program's length where the session
    /// is done.
    pub fn line(&self, s: SessionNo) -> u64
        ensures { result ≡ (moment_of self.now).lines_done s + 1 }
    {
        let lines = self.programs.lines(s);
        let done = self.lines_done[s.place()];
        prove!(done <= lines.len());
        done as u64 + 1
    }

    /// The act of the session's clean-up that comes next. It is `Idle` where none is before its report.
    pub fn act(&self, s: SessionNo) -> &SweepAct
        ensures { result.now ≡ act_of (moment_of self.now).state s }
    {
        self.engine.act(s)
    }

    /// The list of the session's clean-up less what its scans found so far. It is empty where none is before its report.
    pub fn rest(&self, s: SessionNo) -> &[Oid]
        ensures { result.now ≡ rest_before_report (sweeps_of (moment_of self.now).state s) }
    {
        self.engine.rest(s)
    }

    /// The replies so far, each with its session.
    pub fn replies(&self) -> &[(SessionNo, Reply)]
        ensures { result.now ≡ self.now.replies }
    {
        &self.replies
    }

    /// Does the session's next request, which is its next line, or one act of a `finish`. After want of memory all is as before, and the line can be tried again.
    pub fn advance(&mut self, s: SessionNo) -> Result<(), NoMemory>
        requires { HasLine self.old s }
        ensures ok { OnOk result (Advances s self.old self.new) }
        ensures err { OnErr result (self.new ≡ self.old) }
        // Whatever the schedule, each clean-up that is under way where its session advances keeps the law of clean-ups.
        ensures sweeps { OnOk result ((w : Sweeping) → IsSweepOf self.old w →
            KeepsSweepLaw self.old w) }
    {
        if self.schedule.len() >= MOST_ADVANCES {
            return Err(NoMemory);
        }
        let place = s.place();
        let done = self.lines_done[place];
        let request = &self.programs.lines(s)[done];
        let over = lines_after(&self.engine, s, request, done);
        self.schedule.reserve(1)?;
        self.replies.reserve(1)?;
        let reply = self.engine.step(s, request)?;
        self.schedule.push_reserved(s);
        self.replies.push_reserved((s, reply));
        self.lines_done[place] = over;
        Ok(())
    }

    /// Does the session's next line: one advance, or for a `finish` one for each act up to its clean-up's report. After want of
    /// memory some of them may be done.
    pub fn do_line(&mut self, s: SessionNo) -> Result<(), NoMemory>
        requires { HasLine self.old s }
        ensures { OnOk result (DoesLine s self.old self.new) }
    {
        let line = self.line(s);
        loop {
            self.advance(s)?;
            if self.line(s) != line {
                return Ok(());
            }
        }
    }

    /// The committed database, the schedule and the replies of the whole run. Blocks that are open are undone.
    pub fn finish(self) -> Result<Finished, NoMemory>
        ensures opening { IfOk result (λ end. opening_of end.opening
            ≡ committed_opening self.opening.blocks (moment_of self).state) }
        ensures schedule { IfOk result (λ end. end.schedule ≡ self.schedule) }
        ensures replies { IfOk result (λ end. end.replies ≡ self.replies) }
        ensures replays { Replays self }
        ensures played { IsPlayed self }
    {
        let run = &self;
        let opening = run.engine.committed(run.opening.blocks)?;
        Ok(Finished {
            opening,
            schedule: ListOf::from_vec(self.schedule),
            replies: ListOf::from_vec(self.replies),
        })
    }
}

/// How many lines of the session's program are done after its next request, where so many are done before it.
fn lines_after(engine: &Engine, s: SessionNo, request: &Request, done: usize) -> usize
    requires sound { IsEngine engine.now }
    requires few { done < 2 ^ 64 - 1 }
    ensures { (st : State) (count : ℕ → ℕ) → StandsFor engine.now st → done ≡ count s →
        result ≡ lines_after st s request.now count s }
{
    if stays_at_line(engine, s, request) {
        done
    } else {
        done + 1
    }
}

/// Whether a request is a `finish` whose act stands before its clean-up's report, after which the session stays at its line.
fn stays_at_line(engine: &Engine, s: SessionNo, request: &Request) -> bool
    requires sound { IsEngine engine.now }
    ensures { (st : State) → StandsFor engine.now st →
        result ≡ stays_at_line st s request.now }
{
    matches!(request, Request::Finish) && is_before_report(engine.act(s))
}

/// Whether an act stands before its clean-up's report.
pub fn is_before_report(act: &SweepAct) -> bool
    ensures { result ≡ is_before_report act.now }
{
    !matches!(act, SweepAct::Report | SweepAct::Idle)
}
