// A session's calls on its descriptors. Each is the row of its name in DescriptorRows.
ghost use Rattle.std.specs.Prelude.{◌≡◌, ◌<◌, ◌-◌, ◌^◌, ℕ, ℤ, pos, length, ◌+ℤ◌, IfOk, IfErr, IfSome, OnOk, OnErr, true, Contains, ◌||◌, Some, None};
ghost use Rattle.lo_base.specs.declared.reply.Reply.TheVariants.{Number, Content};
ghost use Rattle.lo_base.specs.declared.refusal.Cause.TheVariants.{BadSeek};
ghost use Rattle.lo_base.specs.declared.refusal.Denied.TheVariants.{By};
ghost use Rattle.xact_core.specs.Kept.{kept_views};
ghost use Rattle.xact_core.specs.Transactions.{Transactions, levels_of};
ghost use Rattle.lo_pages.specs.Outcome.{largest_size};
ghost use Rattle.lo_calls.specs.declared.store.LoStore.{LoStore};
ghost use Rattle.lo_calls.specs.Access.{HoldsFor, ReadsIn, FindsWritable, FindsNoneWritable, CountsFrom, IsTarget, DeniesSize};
ghost use Rattle.lo_calls.specs.Descriptors.{AreHeld, IsOwnHold};
ghost use Rattle.lo_calls.specs.DescriptorRows.{open_row, close_row, read_row, write_row, seek_row, tell_row, truncate_row, position_range, bad_whence, may_read, may_write};
ghost use Rattle.lo_calls.specs.Terms.{when, is_outside};
ghost use Rattle.lo_calls.specs.World.{world, IsReady, Grants, Refuses, Denies, Keeps};

use crate::descs::{Closing, Descriptor, Descs, MOST_DESCRIPTORS};
use crate::object_calls::no_object;
use crate::reading::read_bytes;
use crate::store::LoStore;
use lo_base::{Bytes, Cause, Denied, NoMemory, Oid, Refusal, SessionNo};
use lo_pages::LARGEST_SIZE;
use row_versions::Core;
use xact_core::{Hold, Snapshot};

/// The bit of a mode that asks for reading. The manual's name is INV_READ.
const INV_READ: i32 = 0x40000;

/// The bit of a mode that asks for writing, with which a descriptor may also be read. The manual's name is INV_WRITE.
const INV_WRITE: i32 = 0x20000;

/// The greatest position that the calls without 64 answer.
const GREATEST_INT4: u64 = 2147483647;

/// The number of a session, and its open descriptors.
#[derive(Drop)]
pub struct LoSession {
    pub descs: Descs,
    pub s: SessionNo,
}

impl LoSession {
    /// Opens a descriptor under the lowest free number. Of the mode count INV_READ and INV_WRITE alone; without INV_WRITE it
    /// reads in the view of now, which it holds. It is refused with `NoObject`, with `BadMode` where the mode has neither bit,
    /// and with `TooManyDescriptors` where 256 are open.
    pub fn lo_open(
        &mut self,
        store: &LoStore,
        core: &mut Core,
        oid: Oid,
        mode: i32,
    ) -> Result<i32, Denied>
        requires ready { IsReady (world core.old.xacts store.now self.old) }
        requires views { length (kept_views core.old.xacts) < 2 ^ 64 - 4 }
        ensures ok { IfOk result (λ fd. Grants (open_row oid mode)
            (world core.old.xacts store.now self.old) (world core.new.xacts store.now self.new)
            (Number fd)) }
        ensures err { IfErr result (Denies (open_row oid mode)
            (world core.old.xacts store.now self.old) (world core.new.xacts store.now self.new)) }
        ensures keeps { Keeps (world core.old.xacts store.now self.old)
            (world core.new.xacts store.now self.new) }
    {
        let snap = core.xacts.snapshot(self.s);
        if !store.pages.exists(core, &snap, oid) {
            return Err(no_object(oid));
        }
        if !is_mode(mode) {
            return Err(refused(Cause::BadMode, i64::from(mode)));
        }
        if self.descs.entries.len() >= MOST_DESCRIPTORS {
            return Err(refused(Cause::TooManyDescriptors, MOST_DESCRIPTORS as i64));
        }
        let number = self.descs.free_number();
        self.descs.make_room()?;
        let hold = hold_view(core, snap, mode)?;
        self.descs.entries.push_reserved(Descriptor {
            number,
            oid,
            position: 0,
            level: core.xacts.levels(self.s),
            hold,
        });
        Ok(number as i32)
    }

    /// Closes a descriptor. It is refused with `NoDescriptor` where none has the number.
    pub fn lo_close(&mut self, core: &mut Core, fd: i32) -> Result<(), Refusal>
        requires open { AreHeld core.old.xacts self.old.descs }
        ensures ok { (store : LoStore) → OnOk result (Grants (close_row fd)
            (world core.old.xacts store self.old) (world core.new.xacts store self.new)
            (Number (pos 0))) }
        ensures err { (store : LoStore) → IfErr result (Refuses (close_row fd)
            (world core.old.xacts store self.old) (world core.new.xacts store self.new)) }
        ensures keeps { (store : LoStore) → IsReady (world core.old.xacts store self.old) →
            Keeps (world core.old.xacts store self.old) (world core.new.xacts store self.new) }
    {
        let index = self.descs.find(fd)?;
        let number = self.descs.entries[index].number;
        self.descs
            .close(&mut core.xacts, &Closing::OfNumber(number));
        Ok(())
    }

    /// Reads from the descriptor's position on, at most so many bytes, and moves the position behind them. A negative number
    /// counts as 0. It is refused with `NoDescriptor`, and with `TooMuch` where the bytes are more than 16777216.
    pub fn lo_read(
        &mut self,
        store: &LoStore,
        core: &Core,
        fd: i32,
        len: i32,
    ) -> Result<Bytes, Denied>
        requires ready { IsReady (world core.now.xacts store.now self.old) }
        ensures ok { IfOk result (λ bytes. Grants (read_row fd len)
            (world core.now.xacts store.now self.old) (world core.now.xacts store.now self.new)
            (Content bytes)) }
        ensures err { IfErr result (Denies (read_row fd len)
            (world core.now.xacts store.now self.old) (world core.now.xacts store.now self.new)) }
        ensures keeps { Keeps (world core.now.xacts store.now self.old)
            (world core.now.xacts store.now self.new) }
    {
        let index = self.descs.find(fd)?;
        let descriptor = &self.descs.entries[index];
        let (number, position) = (descriptor.number, descriptor.position);
        let snap = self.view(core, descriptor);
        let most = u64::try_from(len).unwrap_or(0);
        let bytes = read_bytes(
            self.descs.alloc,
            store,
            core,
            &snap,
            descriptor.oid,
            position,
            most,
        )?;
        self.descs
            .move_to(number, position + bytes.items().len() as u64);
        Ok(bytes)
    }

    /// Writes bytes at the descriptor's position, and moves the position behind them. It answers their number. It is refused
    /// with `NoDescriptor`, with `NotWritable` where the descriptor was opened without INV_WRITE, with `NoObject` where the
    /// object is gone from the current view, with `BadWrite` where the end would be above the largest size, and with `Busy`.
    pub fn lo_write(
        &mut self,
        store: &mut LoStore,
        core: &mut Core,
        fd: i32,
        bytes: &[u8],
    ) -> Result<i64, Denied>
        requires ready { IsReady (world core.old.xacts store.old self.old) }
        ensures ok { IfOk result (λ count. Grants (write_row fd bytes.now)
            (world core.old.xacts store.old self.old) (world core.new.xacts store.new self.new)
            (Number count)) }
        ensures err { IfErr result (Denies (write_row fd bytes.now)
            (world core.old.xacts store.old self.old) (world core.new.xacts store.new self.new)) }
        ensures keeps { Keeps (world core.old.xacts store.old self.old)
            (world core.new.xacts store.new self.new) }
        ensures core { core.new ≡ core.old }
    {
        let index = self.writable(fd)?;
        let descriptor = &self.descs.entries[index];
        let (number, oid, position) = (descriptor.number, descriptor.oid, descriptor.position);
        store.pages.write(core, self.s, oid, position, bytes)?;
        self.descs.move_to(number, position + bytes.len() as u64);
        Ok(bytes.len() as i64)
    }

    /// Moves the descriptor: to an offset from the start for whence 0, from its position for 1, from the object's end for 2.
    /// It answers the new position. It is refused with `NoDescriptor`, `BadWhence`, with `BadSeek` where the target is below
    /// 0 or above the largest size, and unless `wide` with `PositionRange` where it is above 2147483647.
    pub fn lo_lseek(
        &mut self,
        store: &LoStore,
        core: &Core,
        fd: i32,
        offset: i64,
        whence: i32,
        wide: bool,
    ) -> Result<i64, Refusal>
        requires ready { IsReady (world core.now.xacts store.now self.old) }
        ensures ok { IfOk result (λ position. Grants (seek_row wide fd offset whence)
            (world core.now.xacts store.now self.old) (world core.now.xacts store.now self.new)
            (Number position)) }
        ensures err { IfErr result (Refuses (seek_row wide fd offset whence)
            (world core.now.xacts store.now self.old) (world core.now.xacts store.now self.new)) }
        ensures keeps { Keeps (world core.now.xacts store.now self.old)
            (world core.now.xacts store.now self.new) }
    {
        let index = self.descs.find(fd)?;
        let descriptor = &self.descs.entries[index];
        let number = descriptor.number;
        let base = self.seek_base(store, core, descriptor, whence)?;
        let position = target(base, offset)?;
        check_range(fd, position, wide)?;
        self.descs.move_to(number, position);
        Ok(position as i64)
    }

    /// The descriptor's position. It is refused with `NoDescriptor`, and unless `wide` with `PositionRange` where it is above
    /// 2147483647.
    pub fn lo_tell(&self, fd: i32, wide: bool) -> Result<i64, Refusal>
        ensures ok { (x : Transactions) (store : LoStore) → IsReady (world x store self.now) →
            IfOk result (λ position. Grants (tell_row wide fd) (world x store self.now)
            (world x store self.now) (Number position)) }
        ensures err { (x : Transactions) (store : LoStore) → IsReady (world x store self.now) →
            IfErr result (Refuses (tell_row wide fd) (world x store self.now)
            (world x store self.now)) }
    {
        let index = self.descs.find(fd)?;
        let position = self.descs.entries[index].position;
        check_range(fd, position, wide)?;
        // Positions are below the greatest int8.
        Ok(i64::try_from(position).unwrap_or(i64::MAX))
    }

    /// Gives the object of a descriptor a size. It is refused with `NoDescriptor`, with `NotWritable` where the descriptor was
    /// opened without INV_WRITE, with `NoObject` where the object is gone from the current view, with `BadTruncate` where the
    /// size is below 0 or above the largest one, and with `Busy`.
    pub fn lo_truncate(
        &self,
        store: &mut LoStore,
        core: &mut Core,
        fd: i32,
        len: i64,
    ) -> Result<(), Denied>
        requires ready { IsReady (world core.old.xacts store.old self.now) }
        ensures ok { OnOk result (Grants (truncate_row fd len)
            (world core.old.xacts store.old self.now) (world core.new.xacts store.new self.now)
            (Number (pos 0))) }
        ensures err { IfErr result (Denies (truncate_row fd len)
            (world core.old.xacts store.old self.now) (world core.new.xacts store.new self.now)) }
        ensures keeps { Keeps (world core.old.xacts store.old self.now)
            (world core.new.xacts store.new self.now) }
        ensures core { core.new ≡ core.old }
    {
        let index = self.writable(fd)?;
        let oid = self.descs.entries[index].oid;
        let Ok(size) = u64::try_from(len) else {
            return Err(self.bad_size(store, core, oid, len));
        };
        store.pages.cut(core, self.s, oid, size)?;
        Ok(())
    }

    /// What an offset is counted from. It is refused with `BadWhence` where it is none of the three.
    fn seek_base(
        &self,
        store: &LoStore,
        core: &Core,
        descriptor: &Descriptor,
        whence: i32,
    ) -> Result<u64, Refusal>
        requires ready { IsReady (world core.now.xacts store.now self.now) }
        requires open { Contains self.now.descs.entries.items descriptor.now }
        ensures ok { IfOk result (CountsFrom (world core.now.xacts store.now self.now)
            descriptor.now whence) }
        ensures err { IfErr result (λ r. bad_whence whence ≡ Some r) }
    {
        match whence {
            0 => Ok(0),
            1 => Ok(descriptor.position),
            2 => {
                let snap = self.view(core, descriptor);
                Ok(store.pages.size(core, &snap, descriptor.oid))
            }
            _ => Err(refusal(Cause::BadWhence, i64::from(whence))),
        }
    }

    /// Why a negative size is refused.
    fn bad_size(&self, store: &LoStore, core: &Core, oid: Oid, len: i64) -> Denied
        requires ready { IsReady (world core.now.xacts store.now self.now) }
        requires negative { is_outside largest_size len ≡ true }
        ensures { DeniesSize (world core.now.xacts store.now self.now) oid len result }
    {
        let snap = core.xacts.snapshot(self.s);
        if store.pages.exists(core, &snap, oid) {
            refused(Cause::BadTruncate, len)
        } else {
            no_object(oid)
        }
    }

    /// At which index the descriptor of a number stands, which may write.
    fn writable(&self, fd: i32) -> Result<usize, Refusal>
        ensures ok { IfOk result (FindsWritable fd self.now.descs) }
        ensures err { IfErr result (FindsNoneWritable fd self.now.descs) }
    {
        let index = self.descs.find(fd)?;
        match self.descs.entries[index].hold {
            Some(_) => Err(refusal(Cause::NotWritable, i64::from(fd))),
            None => Ok(index),
        }
    }

    /// The view that a descriptor reads in: the one that it holds, or else the current one.
    fn view(&self, core: &Core, descriptor: &Descriptor) -> Snapshot
        requires transaction { 0 < length (levels_of core.now.xacts self.now.s) }
        requires own { IsOwnHold self.now.s descriptor.now.hold }
        requires held { IfSome descriptor.now.hold (Contains core.now.xacts.held) }
        ensures { ReadsIn core.now.xacts self.now.s descriptor.now result }
    {
        match &descriptor.hold {
            Some(hold) => hold.snapshot(),
            None => core.xacts.snapshot(self.s),
        }
    }
}

/// Where an offset from a base leads. It is refused with `BadSeek` below 0 and above the largest size.
fn target(base: u64, offset: i64) -> Result<u64, Refusal>
    ensures ok { IfOk result (IsTarget base offset) }
    ensures err { IfErr result (λ r. when (is_outside largest_size (pos base +ℤ offset)) BadSeek
        offset ≡ Some r) }
{
    match base.checked_add_signed(offset) {
        Some(position) if position <= LARGEST_SIZE => Ok(position),
        _ => Err(refusal(Cause::BadSeek, offset)),
    }
}

/// Holds the view that a descriptor of a mode reads in, where it may not write.
fn hold_view(core: &mut Core, snap: Snapshot, mode: i32) -> Result<Option<Hold>, NoMemory>
    requires kept { Contains (kept_views core.old.xacts) snap }
    requires views { length (kept_views core.old.xacts) < 2 ^ 64 - 4 }
    ensures ok { IfOk result (HoldsFor mode snap core.old.xacts core.new.xacts) }
    ensures err { OnErr result (core.new ≡ core.old) }
{
    if may_write(mode) {
        return Ok(None);
    }
    let hold = core.xacts.hold(snap)?;
    Ok(Some(hold))
}

/// Whether a mode has one of the bits that count.
fn is_mode(mode: i32) -> bool
    ensures { result ≡ (may_read mode || may_write mode) }
{
    may_read(mode) || may_write(mode)
}

fn may_read(mode: i32) -> bool
    ensures { result ≡ may_read mode }
{
    mode & INV_READ != 0
}

fn may_write(mode: i32) -> bool
    ensures { result ≡ may_write mode }
{
    mode & INV_WRITE != 0
}

/// Refuses a position that has more than 31 bits, unless it may be wide.
fn check_range(fd: i32, position: u64, wide: bool) -> Result<(), Refusal>
    ensures ok { OnOk result (position_range wide position fd ≡ None) }
    ensures err { IfErr result (λ r. position_range wide position fd ≡ Some r) }
{
    if !wide && position > GREATEST_INT4 {
        return Err(refusal(Cause::PositionRange, i64::from(fd)));
    }
    Ok(())
}

fn refusal(cause: Cause, subject: i64) -> Refusal
    ensures { result ≡ record { cause = cause; subject = subject } }
{
    Refusal { cause, subject }
}

pub(crate) fn refused(cause: Cause, subject: i64) -> Denied
    ensures { result ≡ By (record { cause = cause; subject = subject }) }
{
    Denied::By(Refusal { cause, subject })
}
