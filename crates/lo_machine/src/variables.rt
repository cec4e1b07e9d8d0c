// A session's array variables, by name. (Manual, Arrays.)
ghost use Rattle.std.specs.Prelude.{◌≡◌, ◌≢◌, ℕ, List, None, Some, IfErr, OnOk, OnErr};
ghost use Rattle.std.specs.Option.{option_copied};
ghost use Rattle.lo_machine.specs.Variables.{DeniesElement, SetsElement, array_at};

use crate::arrays::no_variable;
use expanded_array::ArrayVar;
use lo_base::{Denied, Name, NoMemory};
use std::alloc::Global;
use std::collections::BTreeMap;

/// The array variables of one session. A variable is found by a search for its name.
#[derive(Drop)]
pub(crate) struct Variables {
    alloc: Global,
    arrays: BTreeMap<Vec<u8>, ArrayVar>,
}

impl Variables {
    /// No variables.
    pub(crate) fn new(alloc: Global) -> Variables
        ensures { (name : List ℕ) → array_at result name ≡ None }
    {
        Variables {
            alloc,
            arrays: BTreeMap::new(alloc),
        }
    }

    /// The array under a name.
    pub(crate) fn get(&self, name: &Name) -> Option<&ArrayVar>
        ensures { option_copied result ≡ array_at self.now name.now }
    {
        self.arrays.get(name.items())
    }

    /// Sets one element of the array under a name. It is refused with `NoVariable` and `ArrayTooBig`. Where there is no memory,
    /// nothing changes. It costs that element, but for the first change of a flat array.
    pub(crate) fn set_element(
        &mut self,
        name: &Name,
        sub: i32,
        value: Option<i32>,
    ) -> Result<(), Denied>
        ensures ok { OnOk result (SetsElement self.old self.new name.now sub value) }
        ensures err { IfErr result (DeniesElement self.old self.new name.now sub) }
    {
        match self.arrays.get_mut(name.items()) {
            Some(array) => array.set(sub, value),
            None => Err(no_variable()),
        }
    }

    /// Puts an array under a name, in place of the one that is there. Where there is no memory, nothing changes.
    pub(crate) fn set(&mut self, name: &Name, array: ArrayVar) -> Result<(), NoMemory>
        ensures own { OnOk result (array_at self.new name.now ≡ Some array) }
        ensures others { OnOk result ((other : List ℕ) → other ≢ name.now →
            array_at self.new other ≡ array_at self.old other) }
        ensures err { OnErr result ((other : List ℕ) →
            array_at self.new other ≡ array_at self.old other) }
    {
        let key = Vec::from_slice(self.alloc, name.items())?;
        self.arrays.insert(key, array)?;
        Ok(())
    }
}
