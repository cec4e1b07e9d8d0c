ghost use Rattle.std.specs.Prelude.{◌≡◌, ◌+◌, ◌≤◌, ◌↔◌, IsSome, IfSome};

use std::marker::Model;

/// How many sessions there can be.
pub const SESSIONS: u8 = 16;

/// The number of a session, from 1 to `SESSIONS`. Scripts write it as a letter, `A` for 1.
#[derive(Clone, Copy, Debug, PartialEq, Eq, PartialOrd, Ord)]
pub struct SessionNo {
    number: u8,
}

impl Model for SessionNo {
    ghost use Rattle.std.specs.Prelude.{ℕ, ◌≤◌};

    ghost Value = { ℕ };

    ghost view = { λ s. s.number };

    ghost invariant = { λ s. (1 ≤ s.number) × (s.number ≤ 16) };

    ghost inverse = { λ n. record { number = n } };
}

impl SessionNo {
    /// The session of that number, or nothing for 0 and for numbers above `SESSIONS`.
    pub fn new(n: u8) -> Option<SessionNo>
        ensures valid { IsSome result ↔ ((1 ≤ n) × (n ≤ SESSIONS)) }
        ensures number { IfSome result (λ s. s ≡ n) }
    {
        if n == 0 || n > SESSIONS {
            return None;
        }
        Some(SessionNo { number: n })
    }

    pub fn number(self) -> u8
        ensures same { result ≡ self }
        ensures range { (1 ≤ result) × (result ≤ SESSIONS) }
    {
        self.number
    }

    /// The session's place in a list of one entry a session, from 0.
    pub fn place(self) -> usize
        ensures place { result + 1 ≡ self }
        ensures within { result + 1 ≤ SESSIONS }
    {
        self.number as usize - 1
    }
}
