// The memory of one block. Its bytes are touched here alone; callers see what it holds.
ghost use Rattle.std.specs.Prelude.{◌≡◌, ◌≤◌, Some, None, length};
ghost use Rattle.block_pool.specs.Blocks.{bytes_of};

use std::marker::Model;

/// How many bytes a block holds at most.
pub(crate) const BLOCK_BYTES: usize = 2048;

/// The memory of one block: how many of its bytes are held, or nothing where the block is free.
#[derive(Drop)]
pub(crate) struct Room {
    held: Option<u16>,
    bytes: [u8; BLOCK_BYTES],
}

impl Model for Room {
    ghost use Rattle.std.specs.Prelude.{◌≡◌, ◌≤◌, ℕ, List, Option, length, take};
    ghost use Rattle.std.specs.Option.{option_map, ForSome};

    ghost Value = { Option (List ℕ) };

    ghost view = { λ r. option_map (λ n. take n r.bytes) r.held };

    ghost invariant = { λ r. (length r.bytes ≡ 2048) × ForSome r.held (λ n. n ≤ 2048) };
}

impl Room {
    pub(crate) fn free() -> Room
        ensures { result ≡ None }
    {
        Room {
            held: None,
            bytes: [0; BLOCK_BYTES],
        }
    }

    /// Copies the bytes into the room, which holds just these then.
    pub(crate) fn fill(&mut self, bytes: &[u8])
        requires { length bytes.now ≤ 2048 }
        ensures { self.new ≡ Some bytes.now }
    {
        self.bytes[..bytes.len()].copy_from_slice(bytes);
        self.held = Some(bytes.len() as u16);
    }

    pub(crate) fn clear(&mut self)
        ensures { self.new ≡ None }
    {
        self.held = None;
    }

    /// The bytes that are held, none where the block is free.
    pub(crate) fn bytes(&self) -> &[u8]
        ensures bytes { result.now ≡ bytes_of self.now }
        ensures within { length result.now ≤ 2048 }
    {
        match self.held {
            Some(n) => &self.bytes[..n as usize],
            None => &[],
        }
    }
}
