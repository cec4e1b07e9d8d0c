//! The memory for one file of a folder in memory. No call but `new` takes any.
ghost use Rattle.std.specs.Prelude.{◌≡◌, ◌+◌, ◌-◌, ◌≤◌, ◌++◌, length, take, drop, min, false, position, IfOk};
ghost use Rattle.std.specs.Str.{bytes_eq};
ghost use Rattle.lo_outside.specs.Place.{empty_place, has_name, with_name, with_bytes, with_piece, in_sync};

use lo_base::NoMemory;
use std::alloc::Global;
use std::marker::Model;

/// The longest name of a file, in bytes.
pub(crate) const NAME_ROOM: usize = 255;

/// Memory for one file: its name, and as many bytes as it was made for.
#[derive(Drop)]
pub(crate) struct Place {
    name: Vec<u8>,
    bytes: Vec<u8>,
    synced: bool,
    room: usize,
}

impl Model for Place {
    ghost use Rattle.std.specs.Prelude.{◌≤◌, length, vec_capacity};
    ghost use Rattle.lo_outside.specs.Place.{Held};

    ghost Value = { Held };

    ghost view = { λ p. record {
      named = record {
        name = p.name.items;
        file = record { bytes = p.bytes.items; synced = p.synced };
      };
      room = p.room;
    } };

    ghost invariant = { λ p. (255 ≤ vec_capacity p.name)
        × (length p.bytes.items ≤ p.room) × (p.room ≤ vec_capacity p.bytes) };
}

impl Place {
    pub(crate) fn new(alloc: Global, room: usize) -> Result<Place, NoMemory>
        ensures { IfOk result (λ place. place ≡ empty_place room) }
    {
        Ok(Place {
            name: Vec::with_capacity(alloc, NAME_ROOM)?,
            bytes: Vec::with_capacity(alloc, room)?,
            synced: false,
            room,
        })
    }

    pub(crate) fn is_named(&self, name: &[u8]) -> bool
        ensures { result ≡ bytes_eq self.now.named.name name.now }
    {
        self.name.as_slice() == name
    }

    pub(crate) fn len(&self) -> usize
        ensures { result ≡ length self.now.named.file.bytes }
    {
        self.bytes.len()
    }

    /// How many more bytes have room.
    pub(crate) fn free(&self) -> usize
        ensures { length self.now.named.file.bytes + result ≡ self.now.room }
    {
        self.room - self.bytes.len()
    }

    /// Gives the place to a file of that name.
    pub(crate) fn set_name(&mut self, name: &[u8])
        requires { length name.now ≤ 255 }
        ensures { self.new ≡ with_name name.now self.old }
    {
        self.name.clear();
        self.name.extend_from_slice(name).unwrap();
    }

    /// Sets the file's bytes, which are not synced then.
    pub(crate) fn set_bytes(&mut self, bytes: &[u8])
        requires { length bytes.now ≤ self.old.room }
        ensures { self.new ≡ with_bytes bytes.now self.old }
    {
        self.bytes.clear();
        self.bytes.extend_from_slice(bytes).unwrap();
        self.synced = false;
    }

    /// Adds bytes at the end of the file, which is not synced then.
    pub(crate) fn add(&mut self, piece: &[u8])
        requires { length self.old.named.file.bytes + length piece.now ≤ self.old.room }
        ensures { self.new ≡ with_piece piece.now self.old }
    {
        self.bytes.extend_from_slice(piece).unwrap();
        self.synced = false;
    }

    /// Marks the file as synced.
    pub(crate) fn sync(&mut self)
        ensures { self.new ≡ in_sync self.old }
    {
        self.synced = true;
    }

    /// Copies the bytes from `at` on to the front of `out`, as many as there are and as fit.
    pub(crate) fn read(&self, at: u64, out: &mut [u8]) -> usize
        ensures count { result ≡ min (length out.old) (length self.now.named.file.bytes - at) }
        ensures filled { out.new ≡ take result (drop at self.now.named.file.bytes)
            ++ drop result out.old }
    {
        let start = self.bytes.len().min(at as usize);
        copy_front(&self.bytes[start..], out)
    }
}

/// Copies to the front of `to` as many bytes as there are and as fit.
fn copy_front(from: &[u8], to: &mut [u8]) -> usize
    ensures count { result ≡ min (length to.old) (length from.now) }
    ensures copied { to.new ≡ take result from.now ++ drop result to.old }
{
    let n = to.len().min(from.len());
    to[..n].copy_from_slice(&from[..n]);
    n
}

/// The index of the place of the file of that name.
pub(crate) fn position_of(places: &[Place], name: &[u8]) -> Option<usize>
    ensures { result ≡ position (has_name name.now) places.now }
{
    places.iter().position(|place| place.is_named(name))
}
