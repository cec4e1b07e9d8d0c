//! The variable: an array kept flat until its first change.
ghost use Rattle.std.specs.Prelude.{◌≡◌, ◌+◌, ◌<◌, ◌≤◌, ◌++◌, pos, None, length, slice_index_or, IfErr, IfOk, OnOk, OnErr};
ghost use Rattle.std.specs.Option.{option_map};
ghost use Rattle.expanded_array.specs.Answer.{IsSetDenial};
ghost use Rattle.expanded_array.specs.Kept.{IsKept, expanded_array, kept_array, kept_place};
ghost use Rattle.expanded_array.specs.Spelling.{IsTextDenial, ReadsAgain, Spells};
ghost use Rattle.expanded_array.specs.Text.{array_text, bounds_of, joined};
ghost use Rattle.lo_base.specs.Appended.{AddsFront};
ghost use Rattle.expanded_array.specs.Array.{Array, Bounded, IsHeld, array_set, element_at, elements_of, excess, limit};
ghost use Rattle.expanded_array.specs.Flat.{IsFlat, flat_bytes};

use crate::expanded::{Expanded, excess_of};
use crate::flat_array::FlatArray;
use crate::reading::read_text;
use crate::text::{push_bounds, push_next};
use lo_base::{Bytes, Cause, Denied, NoMemory, Refusal};
use std::alloc::{AllocError, Global};
use std::marker::Model;

#[derive(Debug, Drop)]
enum Kept {
    Flat(FlatArray),
    Elements(Expanded),
}

impl Kept {
    /// The number of elements that setting a subscript would leave, where it is too many.
    fn excess(&self, sub: i32) -> Option<i64>
        requires { IsKept self.now }
        ensures { result ≡ option_map (λ n. pos n) (excess (kept_array self.now) sub) }
    {
        match self {
            Kept::Flat(flat) => excess_of(sub, flat.lower, flat.count),
            Kept::Elements(expanded) => {
                let elements = expanded.elements.as_slice();
                excess_of(sub, expanded.lower, elements.len())
            }
        }
    }

    /// Sets the element at a subscript. Where there is no memory, nothing changes.
    fn set(&mut self, sub: i32, value: Option<i32>) -> Result<(), AllocError>
        requires kept { IsKept self.old }
        requires fits { excess (kept_array self.old) sub ≡ None }
        ensures kept { IsKept self.new }
        ensures ok { OnOk result (kept_array self.new ≡ array_set (kept_array self.old) sub value) }
        ensures err { OnErr result (kept_array self.new ≡ kept_array self.old) }
    {
        match self {
            Kept::Flat(flat) => {
                let mut expanded = flat.expand()?;
                expanded.set(sub, value)?;
                *self = Kept::Elements(expanded);
                Ok(())
            }
            Kept::Elements(expanded) => expanded.set(sub, value),
        }
    }
}

impl Kept {
    /// The lower bound, which means nothing where there are no elements, and the number of elements.
    fn bounds(&self) -> (i32, usize)
        requires { IsKept self.now }
        ensures few { result.1 ≤ limit }
        ensures count { result.1 ≡ length (elements_of (kept_array self.now)) }
        ensures lower { 0 < result.1 → kept_array self.now ≡ Bounded result.0 (elements_of (kept_array self.now)) }
    {
        match self {
            Kept::Flat(flat) => (flat.lower, flat.count),
            Kept::Elements(expanded) => {
                let elements = expanded.elements.as_slice();
                (expanded.lower, elements.len())
            }
        }
    }

    /// The place where the elements are read from.
    fn first_place(&self) -> usize
        requires { IsKept self.now }
        ensures { result ≡ kept_place self.now 0 }
    {
        match self {
            Kept::Flat(flat) => flat.start,
            Kept::Elements(_) => 0,
        }
    }

    /// The element at an index that is read from a place, and the place of the next one.
    fn next(&self, index: usize, place: usize) -> (Option<i32>, usize)
        requires kept { IsKept self.now }
        requires within { index < length (elements_of (kept_array self.now)) }
        requires place { place ≡ kept_place self.now index }
        ensures element { result.0 ≡ slice_index_or (elements_of (kept_array self.now)) index None }
        ensures place { result.1 ≡ kept_place self.now (index + 1) }
    {
        match self {
            Kept::Flat(flat) => flat.next(index, place),
            Kept::Elements(expanded) => (expanded.elements.as_slice()[index], 0),
        }
    }

    /// Appends the bounds, unless there are no elements or the lower one is 1.
    fn push_bounds(&self, out: &mut Bytes) -> Result<(), NoMemory>
        requires { IsKept self.now }
        ensures ok { OnOk result (out.new ≡ out.old ++ bounds_of (kept_array self.now)) }
        ensures err { OnErr result (AddsFront out.old out.new (bounds_of (kept_array self.now))) }
    {
        let (lower, count) = self.bounds();
        if count == 0 {
            return Ok(());
        }
        push_bounds(out, lower, count)
    }

    /// Appends the elements, joined by commas.
    fn push_elements(&self, out: &mut Bytes) -> Result<(), NoMemory>
        requires { IsKept self.now }
        ensures ok { OnOk result (out.new ≡ out.old ++ joined (elements_of (kept_array self.now))) }
        ensures err { OnErr result (AddsFront out.old out.new (joined (elements_of (kept_array self.now)))) }
    {
        let (_, count) = self.bounds();
        let mut place = self.first_place();
        for index in 0..count {
            let (element, after) = self.next(index, place);
            let Ok(()) = push_next(out, index, element) else {
                return Err(NoMemory);
            };
            place = after;
        }
        Ok(())
    }

    /// Appends the text.
    fn push_text(&self, out: &mut Bytes) -> Result<(), NoMemory>
        requires { IsKept self.now }
        ensures ok { OnOk result (out.new ≡ out.old ++ array_text (kept_array self.now)) }
        ensures err { OnErr result (AddsFront out.old out.new (array_text (kept_array self.now))) }
    {
        let Ok(()) = self.push_bounds(out) else {
            return Err(NoMemory);
        };
        let Ok(()) = out.extend(b"{") else {
            return Err(NoMemory);
        };
        let Ok(()) = self.push_elements(out) else {
            return Err(NoMemory);
        };
        out.extend(b"}")
    }
}

/// An array of int4 with one dimension, of at most 1,048,576 elements. It is kept in flat bytes until it is first changed.
#[derive(Debug, Drop)]
pub struct ArrayVar {
    kept: Kept,
}

impl Model for ArrayVar {
    ghost use Rattle.expanded_array.specs.Array.{Array};

    ghost Value = { Array };

    ghost use Rattle.expanded_array.specs.Kept.{kept_array, IsKept};

    ghost view = { λ v. kept_array v.kept };

    ghost invariant = { λ v. IsKept v.kept };
}

impl ArrayVar {
    /// The array that a text spells, kept in flat bytes. `BadArray` where it spells none, `ArrayTooBig` with their number
    /// where it spells one of more than 1,048,576 elements. Elements are counted before memory is taken for them.
    #[tactic(auto, using(crate::proofs::Uniqueness::reads_again))]
    pub fn from_text(alloc: Global, text: &[u8]) -> Result<ArrayVar, Denied>
        ensures spelled { IfOk result (λ a. Spells text.now a) }
        ensures held { IfOk result (λ a. IsHeld a) }
        ensures denied { IfErr result (IsTextDenial text.now) }
        ensures again { (a : Array) → IsHeld a → text.now ≡ array_text a → ReadsAgain a result }
    {
        read_array(alloc, text)
    }

    /// The array of flat bytes, which it keeps.
    pub fn from_flat(flat: Bytes) -> ArrayVar
        requires { IsFlat flat }
        ensures held { IsHeld result }
        ensures array { (a : Array) → IsHeld a → flat ≡ flat_bytes a → result ≡ a }
    {
        ArrayVar {
            kept: Kept::Flat(FlatArray::read(flat.into_vec())),
        }
    }

    /// The element at a subscript: null where it is null or outside the bounds.
    pub fn get(&self, sub: i32) -> Option<i32>
        ensures { result ≡ element_at self.now sub }
    {
        match &self.kept {
            Kept::Flat(flat) => flat.get(sub),
            Kept::Elements(expanded) => expanded.get(sub),
        }
    }

    /// The length of the flat bytes: at most 4,325,392, which an array of 1,048,576 elements with one null has.
    pub fn flat_len(&self) -> u32
        ensures len { result ≡ length (flat_bytes self.now) }
        ensures few { result ≤ 4325392 }
    {
        match &self.kept {
            Kept::Flat(flat) => flat.flat_len(),
            Kept::Elements(expanded) => expanded.flat_len(),
        }
    }

    /// Writes the flat bytes (PostgreSQL source, utils/array.h) into as many bytes as `flat_len` says. Takes no memory.
    pub fn flatten_into(&self, out: &mut [u8])
        requires { length out.old ≡ length (flat_bytes self.now) }
        ensures written { out.new ≡ flat_bytes self.now }
        ensures flat { IsFlat out.new }
    {
        match &self.kept {
            Kept::Flat(flat) => flat.flatten_into(out),
            Kept::Elements(expanded) => expanded.flatten_into(out),
        }
    }

    /// Sets the element at a subscript, to null too. Outside the bounds it extends the array, with nulls in the gap; in the empty
    /// array that subscript becomes the lower bound. `ArrayTooBig` names the number of elements that would be too many, and
    /// 1,048,577 for a subscript beyond 2,147,483,646. After an error nothing has changed.
    pub fn set(&mut self, sub: i32, value: Option<i32>) -> Result<(), Denied>
        ensures held { IsHeld self.new }
        ensures ok { OnOk result (self.new ≡ array_set self.old sub value) }
        ensures fits { OnOk result (excess self.old sub ≡ None) }
        ensures denied { IfErr result (IsSetDenial (excess self.old sub)) }
        ensures err { OnErr result (self.new ≡ self.old) }
    {
        if let Some(size) = self.kept.excess(sub) {
            return Err(Denied::By(Refusal {
                cause: Cause::ArrayTooBig,
                subject: size,
            }));
        }
        match self.kept.set(sub, value) {
            Ok(()) => Ok(()),
            Err(_) => Err(Denied::NoMemory),
        }
    }

    /// Appends the text. Where there is no memory, a front of it may have been appended.
    pub fn text(&self, out: &mut Bytes) -> Result<(), NoMemory>
        ensures ok { OnOk result (out.new ≡ out.old ++ array_text self.now) }
        ensures err { OnErr result (AddsFront out.old out.new (array_text self.now)) }
    {
        self.kept.push_text(out)
    }
}

/// An array in flat bytes.
fn flattened(alloc: Global, expanded: &Expanded) -> Result<ArrayVar, AllocError>
    requires { IsHeld (expanded_array expanded.now) }
    ensures { IfOk result (λ a. a ≡ expanded_array expanded.now) }
{
    let mut flat = vec![in alloc; 0u8; expanded.flat_len() as usize]?;
    expanded.flatten_into(&mut flat);
    Ok(ArrayVar::from_flat(Bytes::from_vec(flat)))
}

fn read_array(alloc: Global, text: &[u8]) -> Result<ArrayVar, Denied>
    ensures spelled { IfOk result (λ a. Spells text.now a) }
    ensures held { IfOk result (λ a. IsHeld a) }
    ensures denied { IfErr result (IsTextDenial text.now) }
{
    let expanded = read_text(alloc, text)?;
    match flattened(alloc, &expanded) {
        Ok(array) => Ok(array),
        Err(_) => Err(Denied::NoMemory),
    }
}
