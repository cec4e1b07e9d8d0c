// Large objects in three stores of versions: what a view reads of them, and which numbers are free. `change` has the calls
// that change objects, and `span` the search for other sessions.
ghost use Rattle.std.specs.Prelude.{◌≡◌, ◌≤◌, ◌*◌, ℕ, ◌+◌, ◌++◌, drop, length, List, [], IfOk, IfSome, MatchOption};
ghost use Rattle.std.specs.List.{list_any};
ghost use Rattle.lo_model.specs.declared.viewer.Viewer.{Viewer};
ghost use Rattle.lo_model.specs.Descriptor.{bytes_or_none};
ghost use Rattle.lo_model.specs.Edit.{Deed, Edit};
ghost use Rattle.lo_model.specs.Listing.{has_object};
ghost use Rattle.lo_model.specs.Numbering.{picked_oid};
ghost use Rattle.lo_model.specs.Object.{object_in, at_size};
ghost use Rattle.xact_core.specs.declared.snapshot.Snapshot.{Snapshot};
ghost use Rattle.xact_core.specs.Transactions.{Transactions};
ghost use Rattle.row_versions.specs.Looks.{IsLook};
ghost use Rattle.lo_pages.specs.Held.{LeavesHeld};
ghost use Rattle.lo_pages.specs.Object.{bytes_from};
ghost use Rattle.lo_pages.specs.Outcome.{piece_at, is_byte, has_bytes, NoneFrom, LeastFrom};
ghost use Rattle.row_versions.specs.Found.{is_erasure};
ghost use Rattle.lo_pages.specs.Rest.{Vacuums};
ghost use Rattle.lo_pages.specs.Standing.{GoWith, StandFor, ReadsAs, has_page, last_number, page_value, stores_of};
ghost use Rattle.lo_pages.specs.Stores.{open_at, head_at, bytes_at};

use crate::page_key::PageKey;
use lo_base::{Bytes, NoMemory, Oid, SessionNo};
use row_versions::{Core, Heads};
use std::alloc::Global;
use xact_core::Snapshot;

/// The bytes of a page. A page begins at its number times this.
pub const PAGE_BYTES: u64 = 2048;

/// The largest size of an object, which is 2147483647 pages (manual, Large Objects).
pub const LARGEST_SIZE: u64 = 4398046509056;

/// Where the last page ends that a number of 32 bits names. No object is larger.
const PAGES_END: u64 = 8796093022208;

/// No object has this number or a higher one.
const OID_END: u64 = 4294967296;

/// Large objects. `objects` has a version for each creation and removal, `pages` one for each page that was written, cut or
/// taken away, and `cuts` an erasure for each cut, at the page where the object then ended. No version tells the size of an
/// object, so that two sessions can write different pages of it at once.
#[derive(Drop)]
pub struct Pages {
    pub(crate) alloc: Global,
    pub(crate) objects: Heads<u32>,
    pub(crate) pages: Heads<PageKey>,
    pub(crate) cuts: Heads<PageKey>,
}

impl Pages {
    /// No objects.
    pub fn new(alloc: Global) -> Result<Pages, NoMemory>
        ensures stand { IfOk result (λ pages. (x : Transactions) → StandFor x pages []) }
        ensures goes { IfOk result (λ pages. (x : Transactions) → GoWith x pages) }
    {
        Ok(Pages {
            alloc,
            objects: Heads::new(alloc)?,
            pages: Heads::new(alloc)?,
            cuts: Heads::new(alloc)?,
        })
    }

    /// Whether a view has the object.
    pub fn exists(&self, core: &Core, snap: &Snapshot, oid: Oid) -> bool
        requires kept { IsLook core.now.xacts snap.now }
        ensures { (edits : List (Edit Deed)) → ReadsAs core.now.xacts snap.now self.now edits →
            result ≡ has_object edits oid }
    {
        self.finds(core, snap, oid)
    }

    /// Whether a view finds the object.
    pub(crate) fn finds(&self, core: &Core, snap: &Snapshot, oid: Oid) -> bool
        requires kept { IsLook core.now.xacts snap.now }
        ensures { result ≡ head_at core.now.xacts snap.now (stores_of self.now) oid }
    {
        self.objects.find(core, &oid, snap).is_some()
    }

    /// The bytes of the object in a view, and 0 where the view does not have it. It costs a search for the last page.
    pub fn size(&self, core: &Core, snap: &Snapshot, oid: Oid) -> u64
        requires kept { IsLook core.now.xacts snap.now }
        ensures { (edits : List (Edit Deed)) → ReadsAs core.now.xacts snap.now self.now edits →
            result ≡ length (bytes_or_none (object_in oid edits)) }
    {
        let first = PageKey { oid, number: 0 };
        let last = PageKey {
            oid,
            number: u32::MAX,
        };
        match self.pages.last_in(core, &first, &last, snap) {
            None => 0,
            Some(key) => key.number as u64 * PAGE_BYTES
                + self.page(core, snap, oid, key.number).len() as u64,
        }
    }

    /// Fills the front of `out` with the object's bytes in a view, from an offset on, as many as there are and as fit, and
    /// answers how many these are. It looks at the pages that they lie in, and at the last one for the size.
    pub fn read_into(
        &self,
        core: &Core,
        snap: &Snapshot,
        oid: Oid,
        at: u64,
        out: &mut [u8],
    ) -> usize
        requires kept { IsLook core.now.xacts snap.now }
        ensures count { (edits : List (Edit Deed)) →
            ReadsAs core.now.xacts snap.now self.now edits →
            result ≡ length (piece_at at (length out.old) (bytes_or_none (object_in oid edits))) }
        ensures bytes { (edits : List (Edit Deed)) →
            ReadsAs core.now.xacts snap.now self.now edits →
            out.new ≡ piece_at at (length out.old) (bytes_or_none
            (object_in oid edits)) ++ drop result out.old }
    {
        let end = self.size(core, snap, oid).min(PAGES_END);
        let count = (out.len() as u64).min(end.saturating_sub(at)) as usize;
        if count == 0 {
            return 0;
        }
        self.fill(core, snap, oid, at, &mut out[..count]);
        count
    }

    /// Fills `out` with what a view finds in the pages of an object, from an offset on.
    fn fill(&self, core: &Core, snap: &Snapshot, oid: Oid, at: u64, out: &mut [u8])
        requires kept { IsLook core.now.xacts snap.now }
        requires small { at + length out.old ≤ 8796093022208 }
        ensures { out.new ≡ bytes_from (bytes_at page_value core.now.xacts snap.now
            (stores_of self.now) oid) at (length out.old) }
    {
        let count = out.len();
        let mut done = 0;
        while done < count {
            let place = at + done as u64;
            let offset = (place % PAGE_BYTES) as usize;
            let end = count.min(done + (PAGE_BYTES as usize - offset));
            let page = self.page(core, snap, oid, (place / PAGE_BYTES) as u32);
            fill(page, offset, &mut out[done..end]);
            done = end;
        }
    }

    /// What a view finds of a page: its bytes, which are fewer than 2048 where the rest are zeros, and none where it is not
    /// there.
    pub(crate) fn page(&self, core: &Core, snap: &Snapshot, oid: Oid, number: u32) -> &[u8]
        requires kept { IsLook core.now.xacts snap.now }
        ensures { result.now ≡ bytes_or_none (bytes_at page_value core.now.xacts snap.now
            (stores_of self.now) oid number) }
    {
        match self.pages.find(core, &PageKey { oid, number }, snap) {
            None => &[],
            Some(bytes) => bytes.items(),
        }
    }

    /// The least number from one on that is no object of the committed view, and of which no open transaction has an edit.
    /// It costs a look at each number up to the one that is found.
    pub fn free_oid(&self, core: &Core, from: u64) -> Option<Oid>
        requires goes { GoWith core.now.xacts self.now }
        ensures { (ys : List (Edit Deed)) → StandFor core.now.xacts self.now ys →
            result ≡ picked_oid (core.now.xacts.clock + 1) from ys }
    {
        let mut number = from;
        while number < OID_END {
            if self.is_free(core, number as u32) {
                return Some(number as u32);
            }
            number += 1;
        }
        None
    }

    /// The least object of a view whose number is at or above another.
    pub fn next_object(&self, core: &Core, snap: &Snapshot, from: Oid) -> Option<Oid>
        requires kept { IsLook core.now.xacts snap.now }
        ensures { (edits : List (Edit Deed)) → ReadsAs core.now.xacts snap.now self.now edits →
            MatchOption result (NoneFrom (has_object edits) from) (LeastFrom
            (has_object edits) from) }
    {
        self.objects.range(core, &from, snap)
    }

    /// The least page of an object in a view, by its number, from one on, that has a byte other than 0.
    pub fn next_block(&self, core: &Core, snap: &Snapshot, oid: Oid, from: u32) -> Option<u32>
        requires kept { IsLook core.now.xacts snap.now }
        ensures { (edits : List (Edit Deed)) → ReadsAs core.now.xacts snap.now self.now edits →
            MatchOption result (NoneFrom (has_bytes (bytes_or_none (object_in oid edits))) from)
            (LeastFrom (has_bytes (bytes_or_none (object_in oid edits))) from) }
    {
        let mut from = from;
        loop {
            let Some(number) = self.next_page(core, snap, oid, from) else {
                return None;
            };
            if any_byte(self.page(core, snap, oid, number)) {
                return Some(number);
            }
            let Some(next) = number.checked_add(1) else {
                return None;
            };
            from = next;
        }
    }

    /// The least page that a view finds of an object, from a number on.
    pub(crate) fn next_page(&self, core: &Core, snap: &Snapshot, oid: Oid, from: u32) -> Option<u32>
        requires kept { IsLook core.now.xacts snap.now }
        ensures least { MatchOption result (NoneFrom
            (has_page core.now.xacts snap.now self.now oid) from) (LeastFrom
            (has_page core.now.xacts snap.now self.now oid) from) }
        ensures small { IfSome result (λ number. number ≤ last_number) }
    {
        let Some(key) = self.pages.range(core, &PageKey { oid, number: from }, snap) else {
            return None;
        };
        if key.oid != oid {
            return None;
        }
        Some(key.number)
    }

    /// Takes away what no kept view needs. It takes no memory.
    pub fn vacuum(&mut self, core: &mut Core)
        requires goes { GoWith core.old.xacts self.old }
        ensures stand { (ys : List (Edit Deed)) → StandFor core.old.xacts self.old ys →
            StandFor core.old.xacts self.new ys }
        ensures goes { GoWith core.old.xacts self.new }
        ensures core { core.new ≡ core.old }
        // Each kept view reads what it read, also where the pages stand for no edits after a call that found no memory.
        ensures reads { (v : Snapshot) (edits : List (Edit Deed)) → IsLook core.old.xacts v →
            ReadsAs core.old.xacts v self.old edits → ReadsAs core.old.xacts v self.new edits }
        // Whoever had a page open has it open, and no one else.
        ensures open { (viewer : Viewer) (o b : ℕ) →
            open_at viewer core.old.xacts (stores_of self.new) o b ≡ open_at viewer core.old.xacts
            (stores_of self.old) o b }
        // Of objects, pages and cuts alike, what no kept view needs is gone.
        ensures all { Vacuums is_erasure core.old.xacts (stores_of self.old) (stores_of self.new) }
        // What is left of pages are the versions that kept views have, each once.
        ensures left { (ys : List (Edit Deed)) → StandFor core.old.xacts self.old ys →
            LeavesHeld core.old.xacts ys (stores_of self.new) }
    {
        self.objects.vacuum(core);
        self.pages.vacuum(core);
        self.cuts.vacuum(core);
    }
}

/// Whether one of the bytes is not 0.
fn any_byte(page: &[u8]) -> bool
    ensures { result ≡ list_any is_byte page.now }
{
    page.iter().any(|byte| *byte != 0)
}

/// Fills `out` with the bytes of a page from an offset on, and with zeros behind its end.
fn fill(page: &[u8], offset: usize, out: &mut [u8])
    ensures { out.new ≡ at_size (length out.old) (drop offset page.now) }
{
    let rest = page.get(offset..).unwrap_or(&[]);
    let there = rest.len().min(out.len());
    let (front, back) = out.split_at_mut(there);
    front.copy_from_slice(&rest[..there]);
    back.fill(0);
}
