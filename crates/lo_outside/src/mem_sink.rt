//! A sink in memory, for tests and for proofs that speak of what was printed. Only `new` takes memory.
ghost use Rattle.std.specs.Prelude.{◌≡◌, ◌≤◌, ◌<◌, ◌↔◌, length, IsTrue, IsErr, IfOk};
ghost use Rattle.lo_outside.specs.Faults.{HasCause};
ghost use Rattle.lo_outside.specs.MemSink.{empty_sink, write_fails, write_count, after_write, sink_with_plan};

use crate::fault_plan::FaultPlan;
use crate::files::Failed;
use crate::sink::Sink;
use lo_base::NoMemory;
use std::alloc::Global;
use std::marker::Model;

/// A sink in memory, whose calls fail as they are told to. It takes all its memory when it is made.
#[derive(Drop)]
pub struct MemSink {
    taken: Vec<u8>,
    room: usize,
    most: usize,
    plan: FaultPlan,
}

impl Model for MemSink {
    ghost use Rattle.std.specs.Prelude.{◌≤◌, length, vec_capacity};
    ghost use Rattle.lo_outside.specs.MemSink.{MemTaken};

    ghost Value = { MemTaken };

    ghost view = { λ s. record {
      taken = s.taken.items;
      room = s.room;
      most = s.most;
      plan = s.plan;
    } };

    ghost invariant = { λ s.
        (1 ≤ s.most) × (length s.taken.items ≤ s.room) × (s.room ≤ vec_capacity s.taken) };
}

impl MemSink {
    /// A sink with room for `room` bytes in all, of which one call takes at most `most`.
    pub fn new(alloc: Global, room: u64, most: u64) -> Result<MemSink, NoMemory>
        requires { 1 ≤ most }
        ensures { IfOk result (λ sink. sink ≡ empty_sink room most) }
    {
        Ok(MemSink {
            taken: Vec::with_capacity(alloc, room as usize)?,
            room: room as usize,
            most: most as usize,
            plan: FaultPlan::new(alloc),
        })
    }

    /// Hands over the numbers of the calls of `Sink` that are to fail, in place of those handed over before. The calls
    /// are counted from 1 from here on.
    pub fn fail(&mut self, calls: Vec<u64>)
        ensures { self.new ≡ sink_with_plan calls.items self.old }
    {
        self.plan.hand_over(calls);
    }

    /// All the bytes taken so far.
    pub fn taken(&self) -> &[u8]
        ensures { result.now ≡ self.now.taken }
    {
        self.taken.as_slice()
    }
}

impl Sink for MemSink {
    ghost use Rattle.std.specs.Prelude.{true};

    ghost tells = { λ _. true };

    ghost taken = { λ s. s.taken };

    ghost faults = { λ s. s.plan.faults };

    fn write(&mut self, piece: &[u8]) -> Result<usize, Failed>
        ensures failed { IsErr result ↔ IsTrue (write_fails piece.now self.old) }
        ensures count { IfOk result (λ n. n ≡ write_count piece.now self.old) }
        ensures some { IfOk result (λ n. 0 < length piece.now → 0 < n) }
        ensures taken { self.new ≡ after_write piece.now self.old }
        ensures cause { HasCause self.old.plan.faults self.new.plan.faults result }
    {
        let free = self.room - self.taken.len();
        self.plan.answer(free == 0 && !piece.is_empty())?;
        let n = piece.len().min(self.most).min(free);
        self.taken.extend_from_slice(&piece[..n]).unwrap();
        Ok(n)
    }
}
