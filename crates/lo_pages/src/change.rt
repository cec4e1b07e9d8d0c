// The calls that change objects. Each is refused first, then puts versions, and stops where there is no memory.
ghost use Rattle.std.specs.Prelude.{◌≡◌, ◌<◌, ◌≤◌, ◌+◌, ◌-◌, ◌/◌, ◌^◌, pos, suc, true, false, length, None, Some, OnOk, IfOk, IfErr, [], ◌∷◌};
ghost use Rattle.lo_base.specs.declared.refusal.Denied.TheVariants.{By};
ghost use Rattle.lo_model.specs.Edit.{Create, Cut, Unlink};
ghost use Rattle.lo_model.specs.Object.{at_size, laid_over};
ghost use Rattle.xact_core.specs.Kept.{HoldsWholeViews};
ghost use Rattle.xact_core.specs.Transactions.{levels_of};
ghost use Rattle.row_versions.specs.Stands.{standing, made_now, lowest_other};
ghost use Rattle.lo_pages.specs.Calls.{own};
ghost use Rattle.lo_pages.specs.Content.{is_written, piece_of};
ghost use Rattle.lo_pages.specs.Outcome.{create_refused, write_refused, cut_refused, drop_refused, write_made, Adds, Denies, IsNoMemory, LeavesOwn};
ghost use Rattle.lo_pages.specs.Standing.{GoWith, last_number, stores_of};
ghost use Rattle.lo_pages.specs.Steps.{FreeSpan, HasAlone, HeldFor, found_now, made_page, page_written, page_sized, FreePages, PutsObject, PutsPage, PutsCut, WritesPages, ErasesFrom};
ghost use Rattle.lo_pages.specs.Stores.{head_at};

use crate::page_key::PageKey;
use crate::pages::{LARGEST_SIZE, PAGE_BYTES, Pages};
use lo_base::{Bytes, Cause, Denied, NoMemory, Oid, Refusal, SessionNo};
use row_versions::Core;
use std::alloc::Global;

impl Pages {
    /// Makes an empty object. It is refused with `ObjectExists` where the session's current view has it, and with `Busy`
    /// where another session has an open edit of it.
    pub fn create(&mut self, core: &mut Core, s: SessionNo, oid: Oid) -> Result<(), Denied>
        requires open { 0 < length (levels_of core.old.xacts s) }
        requires whole { HoldsWholeViews core.old.xacts }
        requires goes { GoWith core.old.xacts self.old }
        ensures ok { OnOk result (Adds core.old.xacts (create_refused core.old.xacts s oid)
            (made_now core.old.xacts s (Create oid) ∷ []) self.old self.new) }
        ensures err { IfErr result (Denies core.old.xacts s
            (create_refused core.old.xacts s oid) self.old self.new) }
        ensures alone { OnOk result (HasAlone core.old.xacts s oid self.new) }
        ensures left { LeavesOwn core.old.xacts s self.old self.new }
        ensures goes { GoWith core.old.xacts self.new }
        ensures core { core.new ≡ core.old }
    {
        if self.is_there(core, s, oid) {
            return Err(refused(Cause::ObjectExists, oid as u64));
        }
        if let Err(held) = self.free(core, s, oid, 0, u32::MAX) {
            return Err(Denied::By(held));
        }
        self.put_object(core, s, oid)?;
        Ok(())
    }

    /// Lays bytes over the object from an offset on, with zeros before them where it was shorter. It is refused with
    /// `NoObject` where the session's current view has no such object, with `BadWrite` where the end would be above the
    /// largest size, and with `Busy` where another session has an open edit of one of the pages.
    pub fn write(
        &mut self,
        core: &mut Core,
        s: SessionNo,
        oid: Oid,
        at: u64,
        bytes: &[u8],
    ) -> Result<(), Denied>
        requires open { 0 < length (levels_of core.old.xacts s) }
        requires whole { HoldsWholeViews core.old.xacts }
        requires goes { GoWith core.old.xacts self.old }
        ensures ok { OnOk result (Adds core.old.xacts
            (write_refused core.old.xacts s oid at bytes.now)
            (write_made core.old.xacts s oid at bytes.now) self.old self.new) }
        ensures err { IfErr result (Denies core.old.xacts s
            (write_refused core.old.xacts s oid at bytes.now) self.old self.new) }
        ensures small { OnOk result (at + length bytes.now ≤ LARGEST_SIZE) }
        // Of an object that the session has to itself no small write is refused.
        ensures alone { HasAlone core.old.xacts s oid self.old →
            at + length bytes.now ≤ LARGEST_SIZE → IfErr result IsNoMemory }
        ensures left { LeavesOwn core.old.xacts s self.old self.new }
        ensures goes { GoWith core.old.xacts self.new }
        ensures core { core.new ≡ core.old }
    {
        let count = bytes.len() as u64;
        if !self.is_there(core, s, oid) {
            return Err(refused(Cause::NoObject, oid as u64));
        }
        if at > LARGEST_SIZE || count > LARGEST_SIZE - at {
            return Err(refused(Cause::BadWrite, count));
        }
        if count == 0 {
            return Ok(());
        }
        let first = (at / PAGE_BYTES) as u32;
        let last = ((at + count - 1) / PAGE_BYTES) as u32;
        if let Err(held) = self.free(core, s, oid, first, last) {
            return Err(Denied::By(held));
        }
        self.write_pages(core, s, oid, at, bytes)?;
        Ok(())
    }

    /// Gives the object a size: it takes bytes off the end or adds zeros there. It is refused with `NoObject` where the
    /// session's current view has no such object, with `BadTruncate` where the size is above the largest one, and with `Busy`
    /// where another session has an open edit of the page of the new end or of one above. It costs the pages that are there
    /// from that end on.
    pub fn cut(&mut self, core: &mut Core, s: SessionNo, oid: Oid, to: u64) -> Result<(), Denied>
        requires open { 0 < length (levels_of core.old.xacts s) }
        requires whole { HoldsWholeViews core.old.xacts }
        requires goes { GoWith core.old.xacts self.old }
        requires small { to < 2 ^ 63 }
        ensures ok { OnOk result (Adds core.old.xacts (cut_refused core.old.xacts s oid to)
            (made_now core.old.xacts s (Cut oid to) ∷ []) self.old self.new) }
        ensures err { IfErr result (Denies core.old.xacts s
            (cut_refused core.old.xacts s oid to) self.old self.new) }
        ensures left { LeavesOwn core.old.xacts s self.old self.new }
        ensures goes { GoWith core.old.xacts self.new }
        ensures core { core.new ≡ core.old }
    {
        if !self.is_there(core, s, oid) {
            return Err(refused(Cause::NoObject, oid as u64));
        }
        if to > LARGEST_SIZE {
            return Err(refused(Cause::BadTruncate, to));
        }
        let number = (to / PAGE_BYTES) as u32;
        if let Err(held) = self.free(core, s, oid, number, u32::MAX) {
            return Err(Denied::By(held));
        }
        self.cut_page(core, s, oid, number, (to % PAGE_BYTES) as usize)?;
        self.erase_from(core, s, oid, number + 1)?;
        self.mark_cut(core, s, oid, number)?;
        Ok(())
    }

    /// Takes the object away. It is refused with `NoObject` where the session's current view has no such object, and with
    /// `Busy` where another session has an open edit of it. It costs the pages that are there.
    pub fn drop_object(&mut self, core: &mut Core, s: SessionNo, oid: Oid) -> Result<(), Denied>
        requires open { 0 < length (levels_of core.old.xacts s) }
        requires whole { HoldsWholeViews core.old.xacts }
        requires goes { GoWith core.old.xacts self.old }
        ensures ok { OnOk result (Adds core.old.xacts (drop_refused core.old.xacts s oid)
            (made_now core.old.xacts s (Unlink oid) ∷ []) self.old self.new) }
        ensures err { IfErr result (Denies core.old.xacts s
            (drop_refused core.old.xacts s oid) self.old self.new) }
        ensures left { LeavesOwn core.old.xacts s self.old self.new }
        ensures goes { GoWith core.old.xacts self.new }
        ensures core { core.new ≡ core.old }
    {
        if !self.is_there(core, s, oid) {
            return Err(refused(Cause::NoObject, oid as u64));
        }
        if let Err(held) = self.free(core, s, oid, 0, u32::MAX) {
            return Err(Denied::By(held));
        }
        self.erase_from(core, s, oid, 0)?;
        self.erase_object(core, s, oid)?;
        Ok(())
    }

    /// Whether the session's current view has the object.
    fn is_there(&self, core: &Core, s: SessionNo, oid: Oid) -> bool
        requires open { 0 < length (levels_of core.now.xacts s) }
        ensures found { result ≡ head_at core.now.xacts (own core.now.xacts s)
            (stores_of self.now) oid }
        ensures session { 1 ≤ s }
    {
        self.finds(core, &core.xacts.snapshot(s), oid)
    }

    /// Refuses where another session has something open of these pages.
    fn free(
        &self,
        core: &Core,
        s: SessionNo,
        oid: Oid,
        first: u32,
        last: u32,
    ) -> Result<(), Refusal>
        requires order { first ≤ last }
        requires goes { GoWith core.now.xacts self.now }
        ensures ok { OnOk result (FreeSpan core.now.xacts s oid first last self.now) }
        ensures err { IfErr result (HeldFor core.now.xacts s oid first last self.now) }
    {
        match self.holder(core, s, oid, first, last) {
            None => Ok(()),
            Some(t) => Err(Refusal {
                cause: Cause::Busy,
                subject: t.number() as i64,
            }),
        }
    }

    /// Writes each page that the bytes lie in.
    fn write_pages(
        &mut self,
        core: &mut Core,
        s: SessionNo,
        oid: Oid,
        at: u64,
        bytes: &[u8],
    ) -> Result<(), NoMemory>
        requires open { 0 < length (levels_of core.old.xacts s) }
        requires goes { GoWith core.old.xacts self.old }
        requires some { 0 < length bytes.now }
        requires small { at + length bytes.now ≤ LARGEST_SIZE }
        requires free { FreePages core.old.xacts s oid (at / 2048)
            ((at + length bytes.now - 1) / 2048) self.old }
        ensures ok { OnOk result (WritesPages core.old.xacts s oid at bytes.now self.old self.new) }
        ensures left { LeavesOwn core.old.xacts s self.old self.new }
        ensures goes { GoWith core.old.xacts self.new }
        ensures core { core.new ≡ core.old }
    {
        let first = (at / PAGE_BYTES) as u32;
        let end = ((at + bytes.len() as u64 - 1) / PAGE_BYTES) as u32 + 1;
        for number in first..end {
            self.write_page(core, s, oid, number, at, bytes)?;
        }
        Ok(())
    }

    /// Writes the part of the bytes that falls into a page, over what is found there.
    fn write_page(
        &mut self,
        core: &mut Core,
        s: SessionNo,
        oid: Oid,
        number: u32,
        at: u64,
        bytes: &[u8],
    ) -> Result<(), NoMemory>
        requires open { 0 < length (levels_of core.old.xacts s) }
        requires goes { GoWith core.old.xacts self.old }
        requires small { at + length bytes.now ≤ LARGEST_SIZE }
        requires within { is_written number at (length bytes.now) ≡ true }
        requires free { lowest_other s (standing core.old.xacts
            ((stores_of self.old).pages oid number)) ≡ None }
        ensures ok { OnOk result (PutsPage core.old.xacts s oid number
            (page_written core.old.xacts number at bytes.now
            (found_now core.old.xacts s self.old oid number)) self.old self.new) }
        ensures left { LeavesOwn core.old.xacts s self.old self.new }
        ensures goes { GoWith core.old.xacts self.new }
        ensures core { core.new ≡ core.old }
    {
        let offset = at.saturating_sub(number as u64 * PAGE_BYTES) as usize;
        let snap = core.xacts.snapshot(s);
        let old = self.page(core, &snap, oid, number);
        let page = laid_over(self.alloc, old, offset, piece_of(bytes, number, at))?;
        self.put_page(core, s, oid, number, page)
    }

    /// Gives a page a size, also where it is not there.
    fn cut_page(
        &mut self,
        core: &mut Core,
        s: SessionNo,
        oid: Oid,
        number: u32,
        size: usize,
    ) -> Result<(), NoMemory>
        requires open { 0 < length (levels_of core.old.xacts s) }
        requires goes { GoWith core.old.xacts self.old }
        requires free { lowest_other s (standing core.old.xacts
            ((stores_of self.old).pages oid number)) ≡ None }
        ensures ok { OnOk result (PutsPage core.old.xacts s oid number
            (page_sized core.old.xacts size
            (found_now core.old.xacts s self.old oid number)) self.old self.new) }
        ensures left { LeavesOwn core.old.xacts s self.old self.new }
        ensures goes { GoWith core.old.xacts self.new }
        ensures core { core.new ≡ core.old }
    {
        let snap = core.xacts.snapshot(s);
        let page = at_size(self.alloc, self.page(core, &snap, oid, number), size)?;
        self.put_page(core, s, oid, number, page)
    }

    /// Erases the object's pages that are there, from a number on.
    fn erase_from(
        &mut self,
        core: &Core,
        s: SessionNo,
        oid: Oid,
        first: u32,
    ) -> Result<(), NoMemory>
        requires open { 0 < length (levels_of core.now.xacts s) }
        requires goes { GoWith core.now.xacts self.old }
        requires free { FreePages core.now.xacts s oid first last_number self.old }
        ensures ok { OnOk result (ErasesFrom core.now.xacts s oid first self.old self.new) }
        ensures left { LeavesOwn core.now.xacts s self.old self.new }
        ensures goes { GoWith core.now.xacts self.new }
    {
        let snap = core.xacts.snapshot(s);
        let mut from = first;
        loop {
            let Some(number) = self.next_page(core, &snap, oid, from) else {
                return Ok(());
            };
            self.erase_page(core, s, oid, number)?;
            let Some(next) = number.checked_add(1) else {
                return Ok(());
            };
            from = next;
        }
    }

    fn put_page(
        &mut self,
        core: &mut Core,
        s: SessionNo,
        oid: Oid,
        number: u32,
        page: Bytes,
    ) -> Result<(), NoMemory>
        requires open { 0 < length (levels_of core.old.xacts s) }
        requires goes { GoWith core.old.xacts self.old }
        requires free { lowest_other s (standing core.old.xacts
            ((stores_of self.old).pages oid number)) ≡ None }
        ensures ok { OnOk result (PutsPage core.old.xacts s oid number
            (made_page core.old.xacts page) self.old self.new) }
        ensures left { LeavesOwn core.old.xacts s self.old self.new }
        ensures goes { GoWith core.old.xacts self.new }
        ensures core { core.new ≡ core.old }
    {
        self.pages.put(core, s, PageKey { oid, number }, page)
    }

    fn erase_page(
        &mut self,
        core: &Core,
        s: SessionNo,
        oid: Oid,
        number: u32,
    ) -> Result<(), NoMemory>
        requires open { 0 < length (levels_of core.now.xacts s) }
        requires goes { GoWith core.now.xacts self.old }
        requires free { lowest_other s (standing core.now.xacts
            ((stores_of self.old).pages oid number)) ≡ None }
        ensures ok { OnOk result (PutsPage core.now.xacts s oid number None self.old self.new) }
        ensures left { LeavesOwn core.now.xacts s self.old self.new }
        ensures goes { GoWith core.now.xacts self.new }
    {
        self.pages.erase(core, s, PageKey { oid, number })
    }

    /// Marks that the object was cut in a page.
    fn mark_cut(&mut self, core: &Core, s: SessionNo, oid: Oid, number: u32) -> Result<(), NoMemory>
        requires open { 0 < length (levels_of core.now.xacts s) }
        requires goes { GoWith core.now.xacts self.old }
        requires free { lowest_other s (standing core.now.xacts
            ((stores_of self.old).cuts oid number)) ≡ None }
        ensures ok { OnOk result (PutsCut core.now.xacts s oid number self.old self.new) }
        ensures left { LeavesOwn core.now.xacts s self.old self.new }
        ensures goes { GoWith core.now.xacts self.new }
    {
        self.cuts.erase(core, s, PageKey { oid, number })
    }

    fn put_object(&mut self, core: &mut Core, s: SessionNo, oid: Oid) -> Result<(), NoMemory>
        requires open { 0 < length (levels_of core.old.xacts s) }
        requires goes { GoWith core.old.xacts self.old }
        requires free { lowest_other s (standing core.old.xacts ((stores_of self.old).objects oid))
            ≡ None }
        ensures ok { OnOk result (PutsObject core.old.xacts s oid true self.old self.new) }
        ensures left { LeavesOwn core.old.xacts s self.old self.new }
        ensures goes { GoWith core.old.xacts self.new }
        ensures core { core.new ≡ core.old }
    {
        self.objects.put(core, s, oid, Bytes::new(self.alloc))
    }

    fn erase_object(&mut self, core: &Core, s: SessionNo, oid: Oid) -> Result<(), NoMemory>
        requires open { 0 < length (levels_of core.now.xacts s) }
        requires goes { GoWith core.now.xacts self.old }
        requires free { lowest_other s (standing core.now.xacts ((stores_of self.old).objects oid))
            ≡ None }
        ensures ok { OnOk result (PutsObject core.now.xacts s oid false self.old self.new) }
        ensures left { LeavesOwn core.now.xacts s self.old self.new }
        ensures goes { GoWith core.now.xacts self.new }
    {
        self.objects.erase(core, s, oid)
    }
}

fn refused(cause: Cause, subject: u64) -> Denied
    requires { subject < 2 ^ 63 }
    ensures { result ≡ By (record { cause = cause; subject = pos subject }) }
{
    Denied::By(Refusal {
        cause,
        subject: subject as i64,
    })
}

/// The bytes of a page at a size: the first ones, and zeros behind them where there are too few.
fn at_size(alloc: Global, page: &[u8], size: usize) -> Result<Bytes, NoMemory>
    ensures { IfOk result (λ bytes. bytes ≡ at_size size page.now) }
{
    let mut bytes = Vec::with_capacity(alloc, size)?;
    let kept = page.len().min(size);
    bytes.extend_from_slice(&page[..kept])?;
    bytes.resize(size, 0)?;
    Ok(Bytes::from_vec(bytes))
}

/// The part of a write's bytes that falls into a page.
fn piece_of(bytes: &[u8], number: u32, at: u64) -> &[u8]
    requires small { at + length bytes.now ≤ LARGEST_SIZE }
    requires within { is_written number at (length bytes.now) ≡ true }
    ensures { result.now ≡ piece_of number at bytes.now }
{
    let start = number as u64 * PAGE_BYTES;
    let skip = start.saturating_sub(at) as usize;
    let rest = &bytes[skip..];
    let room = (PAGE_BYTES - at.saturating_sub(start)) as usize;
    &rest[..room.min(rest.len())]
}

/// The bytes of a page with a piece laid over them from an offset on, and zeros before it where the page ends earlier.
fn laid_over(alloc: Global, page: &[u8], offset: usize, piece: &[u8]) -> Result<Bytes, NoMemory>
    requires { offset + length piece.now < 2 ^ 63 }
    ensures { IfOk result (λ bytes. bytes ≡ laid_over offset piece.now page.now) }
{
    let mut bytes = at_size(alloc, page, offset)?.into_vec();
    bytes.extend_from_slice(piece)?;
    let rest = page.get(offset + piece.len()..).unwrap_or(&[]);
    bytes.extend_from_slice(rest)?;
    Ok(Bytes::from_vec(bytes))
}
