ghost use Rattle.std.specs.Prelude.{◌≡◌, ◌≤◌, ◌<◌, ◌++◌, ℕ, Bool, List, length, take, IsTrue, IfOk, OnErr};
ghost use Rattle.lo_outside.specs.Faults.{HasCause};

use crate::files::Failed;

/// Takes bytes one after another, as standard output does.
pub trait Sink {
    /// Whether it is told what was taken.
    ghost tells: { Self → Bool };

    /// All the bytes taken so far, where that is told.
    ghost taken: { Self → List ℕ };

    /// How often a call has failed: 64 bits, and at the last value it stands still.
    ghost faults: { Self → ℕ };

    /// Takes a front of the piece, at least one byte of a piece that has any, and answers how many bytes that was.
    fn write(&mut self, piece: &[u8]) -> Result<usize, Failed>
        ensures within { IfOk result (λ n. n ≤ length piece.now) }
        ensures some { IfOk result (λ n. 0 < length piece.now → 0 < n) }
        ensures took { IsTrue (tells self.old) →
            IfOk result (λ n. taken self.new ≡ taken self.old ++ take n piece.now) }
        ensures failed { IsTrue (tells self.old) → OnErr result (taken self.new ≡ taken self.old) }
        ensures tells { tells self.new ≡ tells self.old }
        ensures cause { HasCause (faults self.old) (faults self.new) result };
}
