//! An array as a list of its elements.
ghost use Rattle.std.specs.Prelude.{◌≡◌, ◌+◌, ◌-◌, ◌*◌, ◌<◌, ◌≤◌, pos, None, OnOk, OnErr, ◌++◌, length, take};
ghost use Rattle.expanded_array.specs.Array.{IsHeld, array_set, element_at, excess, index_in, limit};
ghost use Rattle.expanded_array.specs.Flat.{flat_bytes, word, numbers, presence, number_of_flags, bitmap, bitmap_len, header, data_offset, padding, int4_type};
ghost use Rattle.expanded_array.specs.Layout.{header_len, sparse_start, first_place};
ghost use Rattle.expanded_array.specs.Kept.{expanded_array, excess_of, size_after};
ghost use Rattle.std.specs.Option.{option_map};

use crate::elements::Elements;
use crate::layout::{HEADER_LEN, INT4_TYPE, LAST_LIMIT, LIMIT, bitmap_len, sparse_start};
use std::alloc::AllocError;

/// The elements of an array that has been changed.
#[derive(Debug, Drop)]
pub struct Expanded {
    /// The lower bound. It means nothing where there are no elements.
    pub lower: i32,
    pub elements: Elements,
}

/// The index of a subscript among so many elements, where it is within the bounds.
pub fn index_of(sub: i32, lower: i32, count: usize) -> Option<usize>
    requires { count ≤ limit }
    ensures { result ≡ index_in sub lower count }
{
    usize::try_from(i64::from(sub) - i64::from(lower))
        .ok()
        .filter(|index| *index < count)
}

/// Writes bytes from a place on, and answers the place behind them.
fn put(out: &mut [u8], place: usize, piece: &[u8]) -> usize
    requires { place + length piece.now ≤ length out.old }
    ensures end { result ≡ place + length piece.now }
    ensures front { take result out.new ≡ take place out.old ++ piece.now }
{
    let end = place + piece.len();
    out[place..end].copy_from_slice(piece);
    end
}

/// The bits of at most 8 elements, the lowest first, set where they are not null.
#[tactic(auto, using(crate::proofs::Packing::presence_small))]
fn presence_byte(elements: &[Option<i32>]) -> u8
    requires { length elements.now ≤ 8 }
    ensures { result ≡ number_of_flags (presence elements.now) }
{
    match elements {
        [] => 0,
        [first, rest @ ..] => u8::from(first.is_some()) + 2 * presence_byte(rest),
    }
}

/// Writes the bitmap of the elements, and answers the place behind it.
fn put_bitmap(out: &mut [u8], place: usize, elements: &[Option<i32>]) -> usize
    requires few { length elements.now ≤ limit }
    requires room { place + bitmap_len (length elements.now) ≤ length out.old }
    ensures end { result ≡ place + bitmap_len (length elements.now) }
    ensures front { take result out.new ≡ take place out.old ++ bitmap (presence elements.now) }
{
    let mut end = place;
    for index in 0..bitmap_len(elements.len()) {
        let first = 8 * index;
        let last = elements.len().min(first + 8);
        end = put(out, end, &[presence_byte(&elements[first..last])]);
    }
    end
}

/// Writes the elements that are not null, and answers the place behind them.
fn put_numbers(out: &mut [u8], place: usize, elements: &[Option<i32>]) -> usize
    requires { place + length (numbers elements.now) ≤ length out.old }
    ensures end { result ≡ place + length (numbers elements.now) }
    ensures front { take result out.new ≡ take place out.old ++ numbers elements.now }
{
    let mut end = place;
    for element in elements {
        if let Some(number) = element {
            end = put(out, end, &number.to_le_bytes());
        }
    }
    end
}

/// Writes the header of an array with elements, and answers the place behind it.
fn put_header(out: &mut [u8], offset: u32, count: u32, lower: i32) -> usize
    requires { header_len ≤ length out.old }
    ensures end { result ≡ header_len }
    ensures front { take header_len out.new ≡ header offset count lower }
{
    let end = put(out, 0, &1u32.to_le_bytes());
    let end = put(out, end, &offset.to_le_bytes());
    let end = put(out, end, &INT4_TYPE.to_le_bytes());
    let end = put(out, end, &count.to_le_bytes());
    put(out, end, &lower.to_le_bytes())
}

/// How many elements are not null.
fn present(elements: &[Option<i32>]) -> usize
    ensures len { 4 * result ≡ length (numbers elements.now) }
    ensures few { result ≤ length elements.now }
{
    let mut present = 0;
    for element in elements {
        if element.is_some() {
            present += 1;
        }
    }
    present
}

/// The place of the first element's bytes.
fn first_place(count: usize, present: usize) -> usize
    requires { count ≤ limit }
    ensures { result ≡ first_place count present }
{
    if count == 0 {
        12
    } else if present == count {
        HEADER_LEN
    } else {
        sparse_start(count)
    }
}

fn flatten_empty(out: &mut [u8])
    requires { length out.old ≡ 12 }
    ensures { out.new ≡ word 0 ++ word 0 ++ word int4_type }
{
    let end = put(out, 0, &0u32.to_le_bytes());
    let end = put(out, end, &0u32.to_le_bytes());
    put(out, end, &INT4_TYPE.to_le_bytes());
}

fn flatten_plain(out: &mut [u8], lower: i32, elements: &[Option<i32>])
    requires few { length elements.now ≤ limit }
    requires len { length out.old ≡ header_len + length (numbers elements.now) }
    ensures { out.new ≡ header 0 (length elements.now) lower ++ numbers elements.now }
{
    let place = put_header(out, 0, elements.len() as u32, lower);
    put_numbers(out, place, elements);
}

fn flatten_sparse(out: &mut [u8], lower: i32, elements: &[Option<i32>])
    requires few { length elements.now ≤ limit }
    requires len { length out.old ≡ sparse_start (length elements.now) + length (numbers elements.now) }
    ensures { out.new ≡ header (data_offset (length elements.now)) (length elements.now) lower
        ++ (bitmap (presence elements.now) ++ (padding (length elements.now) ++ numbers elements.now)) }
{
    let start = sparse_start(elements.len());
    let place = put_header(out, start as u32 + 4, elements.len() as u32, lower);
    let place = put_bitmap(out, place, elements);
    let place = put(out, place, &[0; 8][..start - place]);
    put_numbers(out, place, elements);
}

/// The number of elements of an array with these bounds once a subscript is set.
fn size_after(sub: i32, lower: i32, count: usize) -> i64
    requires { count ≤ limit }
    ensures { result ≡ pos (size_after sub lower count) }
{
    if count == 0 {
        return 1;
    }
    let above = i64::from(sub) - i64::from(lower);
    if above < 0 {
        count as i64 - above
    } else if above < count as i64 {
        count as i64
    } else {
        above + 1
    }
}

/// Where setting a subscript would leave too many elements, their number; beyond the last subscript, one more than the limit.
pub fn excess_of(sub: i32, lower: i32, count: usize) -> Option<i64>
    requires { count ≤ limit }
    ensures { result ≡ option_map (λ n. pos n) (excess_of sub lower count) }
{
    if i64::from(sub) > LAST_LIMIT {
        return Some(LIMIT as i64 + 1);
    }
    let size = size_after(sub, lower, count);
    if size > LIMIT as i64 {
        Some(size)
    } else {
        None
    }
}

impl Expanded {
    /// The element at a subscript.
    pub fn get(&self, sub: i32) -> Option<i32>
        requires { IsHeld (expanded_array self.now) }
        ensures { result ≡ element_at (expanded_array self.now) sub }
    {
        let elements = self.elements.as_slice();
        let index = index_of(sub, self.lower, elements.len())?;
        elements[index]
    }

    /// The length of the flat bytes.
    pub fn flat_len(&self) -> u32
        requires { IsHeld (expanded_array self.now) }
        ensures { result ≡ length (flat_bytes (expanded_array self.now)) }
    {
        let elements = self.elements.as_slice();
        let present = present(elements);
        (first_place(elements.len(), present) + 4 * present) as u32
    }

    /// Writes the flat bytes.
    pub fn flatten_into(&self, out: &mut [u8])
        requires held { IsHeld (expanded_array self.now) }
        requires len { length out.old ≡ length (flat_bytes (expanded_array self.now)) }
        ensures { out.new ≡ flat_bytes (expanded_array self.now) }
    {
        let elements = self.elements.as_slice();
        if elements.is_empty() {
            flatten_empty(out);
        } else if present(elements) == elements.len() {
            flatten_plain(out, self.lower, elements);
        } else {
            flatten_sparse(out, self.lower, elements);
        }
    }

    /// Sets the element at a subscript. Where there is no memory, nothing changes.
    pub fn set(&mut self, sub: i32, value: Option<i32>) -> Result<(), AllocError>
        requires held { IsHeld (expanded_array self.old) }
        requires fits { excess (expanded_array self.old) sub ≡ None }
        ensures ok { OnOk result (expanded_array self.new ≡ array_set (expanded_array self.old) sub value) }
        ensures err { OnErr result (expanded_array self.new ≡ expanded_array self.old) }
    {
        if self.elements.as_slice().is_empty() {
            self.elements.set_above(0, value)?;
            self.lower = sub;
            return Ok(());
        }
        let above = i64::from(sub) - i64::from(self.lower);
        if above < 0 {
            self.elements.set_below(-above as usize, value)?;
            self.lower = sub;
            Ok(())
        } else {
            self.elements.set_above(above as usize, value)
        }
    }
}
