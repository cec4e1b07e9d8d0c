// A session's calls that name an object. Each is the row of its name in ObjectRows.
ghost use Rattle.std.specs.Prelude.{◌≡◌, ◌≤◌, pos, length, IfOk, IfErr, OnOk, []};
ghost use Rattle.lo_base.specs.declared.reply.Reply.TheVariants.{Word, Number, Content};
ghost use Rattle.lo_base.specs.declared.reply.Word.TheVariants as words;
ghost use Rattle.lo_calls.specs.ObjectRows.{create_row, unlink_row, get_row, put_row};
ghost use Rattle.lo_base.specs.declared.refusal.Cause.TheVariants.{NoObject};
ghost use Rattle.lo_base.specs.declared.refusal.Denied.TheVariants.{By};
ghost use Rattle.lo_calls.specs.Arguments.{IsOffset, IsNoOffset, IsLimit, IsNoLimit};
ghost use Rattle.lo_calls.specs.World.{world, IsReady, Grants, Denies, Keeps};

use crate::descs::Closing;
use crate::reading::read_bytes;
use crate::session::{LoSession, refused};
use crate::store::LoStore;
use lo_base::{Bytes, Cause, Denied, Oid, Refusal};
use lo_pages::LARGEST_SIZE;
use row_versions::Core;

impl LoSession {
    /// Makes an empty object of a number, or of a picked one for 0, and answers the number. It is refused with `NoOids` where
    /// a number is to be picked and none is free, with `ObjectExists`, and with `Busy`.
    pub fn lo_create(&self, store: &mut LoStore, core: &mut Core, oid: Oid) -> Result<Oid, Denied>
        requires ready { IsReady (world core.old.xacts store.old self.now) }
        ensures ok { IfOk result (λ number. Grants (create_row oid [])
            (world core.old.xacts store.old self.now) (world core.new.xacts store.new self.now)
            (Number (pos number))) }
        ensures err { IfErr result (Denies (create_row oid [])
            (world core.old.xacts store.old self.now) (world core.new.xacts store.new self.now)) }
        ensures keeps { Keeps (world core.old.xacts store.old self.now)
            (world core.new.xacts store.new self.now) }
        ensures core { core.new ≡ core.old }
    {
        let number = store.number_for(core, oid)?;
        store.pages.create(core, self.s, number)?;
        if oid == 0 {
            store.counter = u64::from(number) + 1;
        }
        Ok(number)
    }

    /// Makes an object of these bytes, of a number or of a picked one for 0, and answers the number. It is refused as
    /// `lo_create` is. At most 16777216 bytes are given.
    pub fn lo_from_bytea(
        &self,
        store: &mut LoStore,
        core: &mut Core,
        oid: Oid,
        bytes: &[u8],
    ) -> Result<Oid, Denied>
        requires ready { IsReady (world core.old.xacts store.old self.now) }
        requires most { length bytes.now ≤ 16777216 }
        ensures ok { IfOk result (λ number. Grants (create_row oid bytes.now)
            (world core.old.xacts store.old self.now) (world core.new.xacts store.new self.now)
            (Number (pos number))) }
        ensures err { IfErr result (Denies (create_row oid bytes.now)
            (world core.old.xacts store.old self.now) (world core.new.xacts store.new self.now)) }
        ensures keeps { Keeps (world core.old.xacts store.old self.now)
            (world core.new.xacts store.new self.now) }
        ensures core { core.new ≡ core.old }
    {
        let number = store.number_for(core, oid)?;
        store.pages.create(core, self.s, number)?;
        store.pages.write(core, self.s, number, 0, bytes)?;
        if oid == 0 {
            store.counter = u64::from(number) + 1;
        }
        Ok(number)
    }

    /// Takes an object away, and closes the session's own descriptors on it. It is refused with `NoObject` and with `Busy`.
    pub fn lo_unlink(
        &mut self,
        store: &mut LoStore,
        core: &mut Core,
        oid: Oid,
    ) -> Result<(), Denied>
        requires ready { IsReady (world core.old.xacts store.old self.old) }
        ensures ok { OnOk result (Grants (unlink_row oid)
            (world core.old.xacts store.old self.old) (world core.new.xacts store.new self.new)
            (Number (pos 1))) }
        ensures err { IfErr result (Denies (unlink_row oid)
            (world core.old.xacts store.old self.old) (world core.new.xacts store.new self.new)) }
        ensures keeps { Keeps (world core.old.xacts store.old self.old)
            (world core.new.xacts store.new self.new) }
    {
        store.pages.drop_object(core, self.s, oid)?;
        self.descs.close(&mut core.xacts, &Closing::OnObject(oid));
        Ok(())
    }

    /// Reads an object from an offset on: at most so many bytes, or all up to its end. It is refused with `NoObject`, with
    /// `BadSeek` where the offset is below 0 or above the largest size, with `BadLength` where the number of bytes is
    /// negative, and with `TooMuch` where more than 16777216 bytes would be read.
    pub fn lo_get(
        &self,
        store: &LoStore,
        core: &Core,
        oid: Oid,
        from: i64,
        length: Option<i32>,
    ) -> Result<Bytes, Denied>
        requires ready { IsReady (world core.now.xacts store.now self.now) }
        ensures ok { IfOk result (λ bytes. Grants (get_row oid from length)
            (world core.now.xacts store.now self.now) (world core.now.xacts store.now self.now)
            (Content bytes)) }
        ensures err { IfErr result (Denies (get_row oid from length)
            (world core.now.xacts store.now self.now)
            (world core.now.xacts store.now self.now)) }
    {
        let snap = core.xacts.snapshot(self.s);
        if !store.pages.exists(core, &snap, oid) {
            return Err(no_object(oid));
        }
        let at = offset_in_object(from)?;
        let most = limit(length)?;
        read_bytes(self.descs.alloc, store, core, &snap, oid, at, most)
    }

    /// Writes bytes into an object from an offset on. It is refused with `NoObject`, with `BadSeek` where the offset is below
    /// 0 or above the largest size, with `BadWrite` where the end would be above the largest size, and with `Busy`.
    pub fn lo_put(
        &self,
        store: &mut LoStore,
        core: &mut Core,
        oid: Oid,
        at: i64,
        bytes: &[u8],
    ) -> Result<(), Denied>
        requires ready { IsReady (world core.old.xacts store.old self.now) }
        ensures ok { OnOk result (Grants (put_row oid at bytes.now)
            (world core.old.xacts store.old self.now) (world core.new.xacts store.new self.now)
            (Word words.Ok)) }
        ensures err { IfErr result (Denies (put_row oid at bytes.now)
            (world core.old.xacts store.old self.now) (world core.new.xacts store.new self.now)) }
        ensures keeps { Keeps (world core.old.xacts store.old self.now)
            (world core.new.xacts store.new self.now) }
        ensures core { core.new ≡ core.old }
    {
        let snap = core.xacts.snapshot(self.s);
        if !store.pages.exists(core, &snap, oid) {
            return Err(no_object(oid));
        }
        let offset = offset_in_object(at)?;
        store.pages.write(core, self.s, oid, offset, bytes)?;
        Ok(())
    }
}

/// Refuses a call on an object that is not there.
pub(crate) fn no_object(oid: Oid) -> Denied
    ensures { result ≡ By (record { cause = NoObject; subject = pos oid }) }
{
    refused(Cause::NoObject, i64::from(oid))
}

/// An offset that an object can have. It is refused with `BadSeek` where no object can.
fn offset_in_object(offset: i64) -> Result<u64, Refusal>
    ensures ok { IfOk result (IsOffset offset) }
    ensures err { IfErr result (IsNoOffset offset) }
{
    match u64::try_from(offset) {
        Ok(at) if at <= LARGEST_SIZE => Ok(at),
        _ => Err(Refusal {
            cause: Cause::BadSeek,
            subject: offset,
        }),
    }
}

/// At most how many bytes are read, where so many are asked for, or all. It is refused with `BadLength` where the number is
/// negative.
#[tactic(auto, using(crate::proofs::Getting::no_limit))]
fn limit(length: Option<i32>) -> Result<u64, Refusal>
    ensures ok { IfOk result (IsLimit length) }
    ensures err { IfErr result (IsNoLimit length) }
{
    match length {
        None => Ok(u64::MAX),
        Some(length) => match u64::try_from(length) {
            Ok(most) => Ok(most),
            Err(_) => Err(Refusal {
                cause: Cause::BadLength,
                subject: i64::from(length),
            }),
        },
    }
}
