// What all sessions share: the pages of objects, and the counter of object numbers.
ghost use Rattle.std.specs.Prelude.{◌≡◌, ◌+◌, List, IfOk, IfErr, Some};
ghost use Rattle.lo_model.specs.Edit.{Deed, Edit};
ghost use Rattle.lo_pages.specs.Standing.{GoWith, StandFor};
ghost use Rattle.lo_calls.specs.Numbers.{IsNumber, IsNoNumber};

use lo_base::{Cause, Oid, Refusal};
use lo_pages::Pages;
use row_versions::Core;

/// The pages of all large objects, and the number from which on numbers for new objects are picked, from 16384 to
/// 4294967296.
#[derive(Drop)]
pub struct LoStore {
    pub pages: Pages,
    pub counter: u64,
}

impl LoStore {
    /// The number for a new object: the one that is asked for, or for 0 the least free one from the counter on. It is
    /// refused with `NoOids` where 0 is asked for and no number is free.
    pub(crate) fn number_for(&self, core: &Core, oid: Oid) -> Result<Oid, Refusal>
        requires goes { GoWith core.now.xacts self.now.pages }
        ensures ok { IfOk result (IsNumber core.now.xacts self.now oid) }
        ensures err { IfErr result (IsNoNumber core.now.xacts self.now oid) }
    {
        if oid != 0 {
            return Ok(oid);
        }
        match self.pages.free_oid(core, self.counter) {
            Some(picked) => Ok(picked),
            None => Err(Refusal {
                cause: Cause::NoOids,
                subject: 0,
            }),
        }
    }
}
