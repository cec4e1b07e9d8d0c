//! A list of elements that grows at both ends, each in amortized constant time for an element.
ghost use Rattle.std.specs.Prelude.{◌≡◌, ◌+◌, ◌-◌, ◌*◌, ◌<◌, ◌≤◌, ◌++◌, pos, negsuc, None, length, replicate, IfOk, OnOk, OnErr};
ghost use Rattle.expanded_array.specs.Array.{elements_set, limit};

use std::alloc::AllocError;
use std::marker::Model;

/// The elements of an array. Contracts see them as a list.
#[derive(Debug, Drop)]
pub struct Elements {
    // How many places before the first element are free. They hold nulls.
    free: usize,
    // The free places, and behind them the elements.
    items: Vec<Option<i32>>,
}

impl Model for Elements {
    ghost use Rattle.std.specs.Prelude.{◌≡◌, ◌++◌, ℤ, List, Option, None, drop, replicate};

    ghost Value = { List (Option ℤ) };

    ghost view = { λ e. drop e.free e.items.items };

    ghost invariant = { λ e. e.items.items ≡ replicate e.free None ++ drop e.free e.items.items };
}

impl Elements {
    /// The elements of a list, which it keeps.
    pub fn from_vec(items: Vec<Option<i32>>) -> Elements
        ensures { result ≡ items.items }
    {
        Elements { free: 0, items }
    }

    pub fn as_slice(&self) -> &[Option<i32>]
        ensures { result.now ≡ self.now }
    {
        &self.items[self.free..]
    }

    /// Sets the element at an index; beyond the last one, the elements between are null.
    pub fn set_above(&mut self, index: usize, value: Option<i32>) -> Result<(), AllocError>
        requires { index < limit }
        ensures ok { OnOk result (self.new ≡ elements_set self.old (pos index) value) }
        ensures err { OnErr result (self.new ≡ self.old) }
    {
        let place = self.free + index;
        let len = self.items.len().max(place + 1);
        self.items.resize(len, None)?;
        self.items[place] = value;
        Ok(())
    }

    /// Sets an element so far below the first, and nulls between.
    pub fn set_below(&mut self, below: usize, value: Option<i32>) -> Result<(), AllocError>
        requires below { 0 < below }
        requires few { below + length self.old ≤ limit }
        ensures ok { OnOk result (self.new ≡ elements_set self.old (negsuc (below - 1)) value) }
        ensures err { OnErr result (self.new ≡ self.old) }
    {
        if below > self.free {
            return self.grow_below(below, value);
        }
        self.free -= below;
        self.items[self.free] = value;
        Ok(())
    }

    /// Does as `set_below` with a new list, in which as many places are free as there are elements then.
    fn grow_below(&mut self, below: usize, value: Option<i32>) -> Result<(), AllocError>
        requires below { 0 < below }
        requires few { below + length self.old ≤ limit }
        ensures ok { OnOk result (self.new ≡ elements_set self.old (negsuc (below - 1)) value) }
        ensures err { OnErr result (self.new ≡ self.old) }
    {
        let free = below + self.as_slice().len();
        let mut items = self.behind_nulls(free + below)?;
        items[free] = value;
        *self = Elements { free, items };
        Ok(())
    }

    /// The elements behind so many nulls.
    fn behind_nulls(&self, nulls: usize) -> Result<Vec<Option<i32>>, AllocError>
        requires few { length self.now ≤ limit }
        requires nulls { nulls ≤ 2 * limit }
        ensures { IfOk result (λ v. v.items ≡ replicate nulls None ++ self.now) }
    {
        let elements = self.as_slice();
        let mut items = Vec::with_capacity(*self.items.allocator(), nulls + elements.len())?;
        items.resize(nulls, None)?;
        items.extend_from_slice(elements)?;
        Ok(items)
    }
}
