//! An array in its flat bytes, with the places of its parts.
ghost use Rattle.std.specs.Prelude.{◌≡◌, ◌+◌, ◌<◌, None, false, length, slice_index_or, IfOk};
ghost use Rattle.expanded_array.specs.Array.{Array, IsHeld, element_at};
ghost use Rattle.expanded_array.specs.Flat.{IsFlat, flat_bytes};
ghost use Rattle.expanded_array.specs.Layout.{array_of, elements_in};
ghost use Rattle.expanded_array.specs.Kept.{IsRead, Reads, expanded_array, flat_array, flat_elements, flat_flags, place_of};

use crate::elements::Elements;
use crate::expanded::{Expanded, index_of};
use crate::layout::{int4_at, is_present, rank, start_in, word_at};
use std::alloc::AllocError;

/// Flat bytes whose header has been read.
#[derive(Debug, Drop)]
pub struct FlatArray {
    pub bytes: Vec<u8>,
    /// The lower bound.
    pub lower: i32,
    /// The number of elements.
    pub count: usize,
    /// The place of the first element's bytes.
    pub start: usize,
}

/// The lower bound, the number of elements, and the place of the first element's bytes.
fn fields(bytes: &[u8]) -> (i32, usize, usize)
    requires { IsFlat bytes.now }
    ensures read { Reads bytes.now result.0 result.1 result.2 }
    ensures array { (a : Array) → IsHeld a → bytes.now ≡ flat_bytes a →
        array_of result.0 (elements_in bytes.now result.1 result.2) ≡ a }
{
    if word_at(bytes, 0) == 0 {
        return (1, 0, 12);
    }
    (
        int4_at(bytes, 16),
        word_at(bytes, 12) as usize,
        start_in(bytes),
    )
}

impl FlatArray {
    /// The array of flat bytes, which it keeps.
    pub fn read(bytes: Vec<u8>) -> FlatArray
        requires { IsFlat bytes.items }
        ensures read { IsRead result }
        ensures array { (a : Array) → IsHeld a → bytes.items ≡ flat_bytes a → flat_array result ≡ a }
    {
        let (lower, count, start) = fields(&bytes);
        FlatArray {
            bytes,
            lower,
            count,
            start,
        }
    }

    /// Whether the element at an index is not null.
    fn is_present(&self, index: usize) -> bool
        requires read { IsRead self.now }
        requires within { index < self.now.count }
        ensures { result ≡ slice_index_or (flat_flags self.now) index false }
    {
        is_present(&self.bytes, self.count, self.start, index)
    }

    /// The place of the first number that belongs to an element at or behind an index.
    fn place_of(&self, index: usize) -> usize
        requires read { IsRead self.now }
        requires within { index < self.now.count }
        ensures { result ≡ place_of self.now index }
    {
        self.start + 4 * rank(&self.bytes, self.count, self.start, index)
    }

    /// The element at a subscript.
    pub fn get(&self, sub: i32) -> Option<i32>
        requires { IsRead self.now }
        ensures { result ≡ element_at (flat_array self.now) sub }
    {
        let index = index_of(sub, self.lower, self.count)?;
        self.element(index)
    }

    /// The length of the bytes.
    pub fn flat_len(&self) -> u32
        requires { IsRead self.now }
        ensures { result ≡ length (flat_bytes (flat_array self.now)) }
    {
        self.bytes.len() as u32
    }

    /// Copies the bytes.
    pub fn flatten_into(&self, out: &mut [u8])
        requires read { IsRead self.now }
        requires len { length out.old ≡ length (flat_bytes (flat_array self.now)) }
        ensures { out.new ≡ flat_bytes (flat_array self.now) }
    {
        out.copy_from_slice(&self.bytes);
    }

    /// The element at an index.
    fn element(&self, index: usize) -> Option<i32>
        requires read { IsRead self.now }
        requires within { index < self.now.count }
        ensures { result ≡ slice_index_or (flat_elements self.now) index None }
    {
        if self.is_present(index) {
            Some(int4_at(&self.bytes, self.place_of(index)))
        } else {
            None
        }
    }

    /// The element at an index whose number, if it has one, is at a place, and the place of the number after it.
    pub fn next(&self, index: usize, place: usize) -> (Option<i32>, usize)
        requires read { IsRead self.now }
        requires within { index < self.now.count }
        requires place { place ≡ place_of self.now index }
        ensures element { result.0 ≡ slice_index_or (flat_elements self.now) index None }
        ensures place { result.1 ≡ place_of self.now (index + 1) }
    {
        if self.is_present(index) {
            (Some(int4_at(&self.bytes, place)), place + 4)
        } else {
            (None, place)
        }
    }

    /// The elements in a list.
    fn elements(&self) -> Result<Vec<Option<i32>>, AllocError>
        requires { IsRead self.now }
        ensures { IfOk result (λ v. v.items ≡ flat_elements self.now) }
    {
        let mut elements = Vec::with_capacity(*self.bytes.allocator(), self.count)?;
        let mut place = self.start;
        for index in 0..self.count {
            let (element, after) = self.next(index, place);
            elements.push(element)?;
            place = after;
        }
        Ok(elements)
    }

    /// The array in a list of its elements.
    pub fn expand(&self) -> Result<Expanded, AllocError>
        requires { IsRead self.now }
        ensures { IfOk result (λ e. expanded_array e ≡ flat_array self.now) }
    {
        let elements = self.elements()?;
        Ok(Expanded {
            lower: self.lower,
            elements: Elements::from_vec(elements),
        })
    }
}
