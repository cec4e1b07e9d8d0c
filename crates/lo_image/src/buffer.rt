//! Bytes that wait to be written. They lie in an array, so no call takes memory.
ghost use Rattle.std.specs.Prelude.{◌≡◌, ◌-◌, nat_le, ◌++◌, [], length, take, min};

use std::marker::Model;

/// How many bytes are written at a time.
pub(crate) const PIECE: usize = 8192;

#[derive(Drop)]
pub(crate) struct Buffer {
    bytes: [u8; PIECE],
    fill: usize,
}

impl Model for Buffer {
    ghost use Rattle.std.specs.Prelude.{◌≡◌, ◌≤◌, ℕ, List, length, take};

    ghost Value = { List ℕ };

    ghost view = { λ b. take b.fill b.bytes };

    ghost invariant = { λ b. (length b.bytes ≡ 8192) × (b.fill ≤ 8192) };
}

impl Buffer {
    pub(crate) fn new() -> Buffer
        ensures { result ≡ [] }
    {
        Buffer {
            bytes: [0; PIECE],
            fill: 0,
        }
    }

    pub(crate) fn bytes(&self) -> &[u8]
        ensures { result.now ≡ self.now }
    {
        &self.bytes[..self.fill]
    }

    pub(crate) fn is_full(&self) -> bool
        ensures { result ≡ nat_le 8192 (length self.now) }
    {
        self.fill >= PIECE
    }

    pub(crate) fn clear(&mut self)
        ensures { self.new ≡ [] }
    {
        self.fill = 0;
    }

    /// Adds as many bytes from the front of the piece as have room, and answers how many they are.
    pub(crate) fn add_front(&mut self, piece: &[u8]) -> usize
        ensures count { result ≡ min (length piece.now) (8192 - length self.old) }
        ensures added { self.new ≡ self.old ++ take result piece.now }
    {
        let count = piece.len().min(PIECE - self.fill);
        let end = self.fill + count;
        self.bytes[self.fill..end].copy_from_slice(&piece[..count]);
        self.fill = end;
        count
    }
}
