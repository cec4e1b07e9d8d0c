// Who has something open of what a call would touch, and whether a number is free.
ghost use Rattle.std.specs.Prelude.{◌≡◌, ◌≤◌, ◌+◌, List};
ghost use Rattle.lo_model.specs.Edit.{Deed, Edit};
ghost use Rattle.lo_model.specs.Numbering.{is_free_oid, has_open_edit};
ghost use Rattle.lo_model.specs.Touch.{lower_of};
ghost use Rattle.lo_pages.specs.Standing.{GoWith, StandFor};
ghost use Rattle.lo_pages.specs.Steps.{HasHolder};

use crate::page_key::PageKey;
use crate::pages::Pages;
use lo_base::{Oid, SessionNo};
use row_versions::Core;

impl Pages {
    /// The lowest other session that has something open of an object's pages from one to another, or of the object as such.
    /// A cut below the last of these pages has them open too.
    pub(crate) fn holder(
        &self,
        core: &Core,
        s: SessionNo,
        oid: Oid,
        first: u32,
        last: u32,
    ) -> Option<SessionNo>
        requires order { first ≤ last }
        requires goes { GoWith core.now.xacts self.now }
        ensures { HasHolder core.now.xacts s oid first last self.now result }
    {
        let start = PageKey { oid, number: first };
        let end = PageKey { oid, number: last };
        let object = self.objects.busy(core, &oid, s);
        let pages = self.pages.busy_in(core, &start, &end, s);
        let cuts = self
            .cuts
            .busy_in(core, &PageKey { oid, number: 0 }, &end, s);
        lower(object, lower(pages, cuts))
    }

    /// Whether the number is no object of the committed view, and no open transaction has an edit of it.
    pub(crate) fn is_free(&self, core: &Core, oid: Oid) -> bool
        requires goes { GoWith core.now.xacts self.now }
        ensures { (ys : List (Edit Deed)) → StandFor core.now.xacts self.now ys →
            result ≡ is_free_oid (core.now.xacts.clock + 1) ys oid }
    {
        !self.exists(core, &core.xacts.committed(), oid) && !self.is_open(core, oid)
    }

    /// Whether some session has the object open. Whoever has is another session than one of any two.
    fn is_open(&self, core: &Core, oid: Oid) -> bool
        requires goes { GoWith core.now.xacts self.now }
        ensures { (ys : List (Edit Deed)) → StandFor core.now.xacts self.now ys →
            result ≡ has_open_edit oid ys }
    {
        let Some(one) = SessionNo::new(1) else {
            unreachable!()
        };
        let Some(two) = SessionNo::new(2) else {
            unreachable!()
        };
        let first = self.holder(core, one, oid, 0, u32::MAX);
        let second = self.holder(core, two, oid, 0, u32::MAX);
        first.is_some() | second.is_some()
    }
}

/// The lower of two sessions, if any.
fn lower(first: Option<SessionNo>, second: Option<SessionNo>) -> Option<SessionNo>
    ensures { result ≡ lower_of first second }
{
    match (first, second) {
        (Some(a), Some(b)) => Some(if a.number() <= b.number() { a } else { b }),
        (None, second) => second,
        (first, None) => first,
    }
}
