// The requests on data: large objects, tables and array variables. One that writes is done in a level of its own, which is merged
// into the session's top level once it was done, and undone where it was not. Outside a block each is a transaction of its own,
// but one on array variables alone, which needs none.
ghost use Rattle.std.specs.Prelude.{◌≡◌, ◌<◌, ◌-◌, length, slice_index_or, true, false, [], None, IfOk, OnErr};
ghost use Rattle.lo_machine.specs.CallRow.{call_row, reads, reads_rows, sets, writes, writes_rows};
ghost use Rattle.lo_machine.specs.CallRow.{is_call, is_on_data};
ghost use Rattle.lo_machine.specs.CallRows.{misplaced_by};
ghost use Rattle.lo_machine.specs.Dispatch.{CanCall, AnswersCall, ReadsCall, AnswersInBlock};
ghost use Rattle.lo_machine.specs.Server.{names_in, HasRows, IsServer, Does, Undone, HasRoom};
ghost use Rattle.lo_machine.specs.Served.{IsPlain};
ghost use Rattle.lo_machine.specs.Step.{tried};

use crate::server::Server;
use lo_base::{Cause, Denied, Name, NoMemory, Reply, Request, SessionNo};

/// The name of the level in which a request writes. It is gone before the next request.
const OWN_LEVEL: &[u8] = b"request";

impl Server {
    /// A request on data.
    pub(crate) fn call(&mut self, s: SessionNo, request: &Request) -> Result<Reply, NoMemory>
        requires sound { IsServer self.old }
        requires rows { HasRows self.old }
        requires room { HasRoom self.old }
        requires plain { IsPlain request.now }
        requires data { is_on_data request.now ≡ true }
        ensures sound { IsServer self.new }
        ensures ok { IfOk result (Does self.old self.new s (λ st. tried st s request.now)) }
        ensures err { OnErr result (Undone self.old self.new) }
    {
        let in_block = self.is_open(s);
        if let Some(cause) = misplaced_by(request, in_block) {
            return Ok(self.refuse(s, cause));
        }
        if is_setting(request) {
            self.set(s, request)
        } else if in_block {
            self.call_in_block(s, request)
        } else {
            self.call_alone(s, request)
        }
    }

    /// A request on array variables, which needs no transaction.
    fn set(&mut self, s: SessionNo, request: &Request) -> Result<Reply, NoMemory>
        requires sound { IsServer self.old }
        requires rows { HasRows self.old }
        requires room { HasRoom self.old }
        requires sets { sets request.now ≡ true }
        ensures sound { IsServer self.new }
        ensures ok { IfOk result (Does self.old self.new s (λ st. tried st s request.now)) }
        ensures err { OnErr result (Undone self.old self.new) }
    {
        // Numbers of sessions are from 1 to 16.
        let _ = s.number();
        match self.try_set(s, request) {
            Ok(reply) => Ok(reply),
            Err(Denied::By(refusal)) => Ok(self.refuse_by(s, refusal)),
            Err(Denied::NoMemory) => Err(NoMemory),
        }
    }

    /// A request outside a block, in a transaction of its own.
    fn call_alone(&mut self, s: SessionNo, request: &Request) -> Result<Reply, NoMemory>
        requires sound { IsServer self.old }
        requires rows { HasRows self.old }
        requires room { HasRoom self.old }
        requires plain { IsPlain request.now }
        requires call { is_call request.now ≡ true }
        requires placed { misplaced_by request.now false ≡ None }
        requires none { names_in self.old s ≡ [] }
        ensures sound { IsServer self.new }
        ensures ok { IfOk result (Does self.old self.new s (λ st. tried st s request.now)) }
        ensures err { OnErr result (Undone self.old self.new) }
    {
        // Numbers of sessions are from 1 to 16.
        let _ = s.number();
        let Ok(()) = self.open(s) else {
            return Err(NoMemory);
        };
        match self.do_call(s, request) {
            Ok(reply) => {
                self.end_committed(s);
                Ok(reply)
            }
            Err(Denied::By(refusal)) => {
                self.end_aborted(s);
                Ok(Reply::Refused(refusal))
            }
            Err(Denied::NoMemory) => {
                self.undo(s, 1, false);
                self.end_aborted(s);
                Err(NoMemory)
            }
        }
    }

    /// A request in a block.
    fn call_in_block(&mut self, s: SessionNo, request: &Request) -> Result<Reply, NoMemory>
        requires sound { IsServer self.old }
        requires rows { HasRows self.old }
        requires room { HasRoom self.old }
        requires plain { IsPlain request.now }
        requires call { is_call request.now ≡ true }
        requires placed { misplaced_by request.now true ≡ None }
        requires open { 0 < length (names_in self.old s) }
        ensures sound { IsServer self.new }
        ensures ok { IfOk result (Does self.old self.new s (λ st. tried st s request.now)) }
        ensures err { OnErr result (Undone self.old self.new) }
    {
        match self.try_in_block(s, request) {
            Ok(reply) => Ok(reply),
            Err(Denied::By(refusal)) => Ok(self.refuse_by(s, refusal)),
            Err(Denied::NoMemory) => Err(NoMemory),
        }
    }

    /// A request in a block, which stays as it is where the request is refused.
    fn try_in_block(&mut self, s: SessionNo, request: &Request) -> Result<Reply, Denied>
        requires sound { IsServer self.old }
        requires rows { HasRows self.old }
        requires room { HasRoom self.old }
        requires plain { IsPlain request.now }
        requires call { is_call request.now ≡ true }
        requires placed { misplaced_by request.now true ≡ None }
        requires open { 0 < length (names_in self.old s) }
        ensures { AnswersInBlock s request.now self.old self.new result }
    {
        // Numbers of sessions are from 1 to 16.
        let _ = s.number();
        if is_writing(request) {
            self.call_in_level(s, request)
        } else {
            self.look(s, request)
        }
    }

    /// A request that writes, in a level of its own.
    fn call_in_level(&mut self, s: SessionNo, request: &Request) -> Result<Reply, Denied>
        requires sound { IsServer self.old }
        requires rows { HasRows self.old }
        requires room { HasRoom self.old }
        requires plain { IsPlain request.now }
        requires writes { writes request.now ≡ true }
        requires placed { misplaced_by request.now true ≡ None }
        requires open { 0 < length (names_in self.old s) }
        ensures { AnswersInBlock s request.now self.old self.new result }
    {
        // Numbers of sessions are from 1 to 16.
        let _ = s.number();
        let failed = self.is_failed(s);
        let Ok(name) = Name::from_slice(self.alloc, OWN_LEVEL) else {
            return Err(Denied::NoMemory);
        };
        let Ok(()) = self.save(s, name) else {
            return Err(Denied::NoMemory);
        };
        let level = self.core.xacts.levels(s);
        match self.change(s, request) {
            Ok(reply) => {
                self.merge(s, level);
                Ok(reply)
            }
            Err(denied) => {
                self.undo(s, level, failed);
                self.merge(s, level);
                Err(denied)
            }
        }
    }

    /// A request that needs a transaction, in the session's.
    fn do_call(&mut self, s: SessionNo, request: &Request) -> Result<Reply, Denied>
        requires can { CanCall s self.old }
        requires plain { IsPlain request.now }
        requires call { is_call request.now ≡ true }
        ensures { AnswersCall s (call_row request.now) self.old self.new result }
    {
        if is_writing(request) {
            self.change(s, request)
        } else {
            self.look(s, request)
        }
    }

    /// A request that may make edits, tables or cursors.
    fn change(&mut self, s: SessionNo, request: &Request) -> Result<Reply, Denied>
        requires can { CanCall s self.old }
        requires plain { IsPlain request.now }
        requires writes { writes request.now ≡ true }
        ensures { AnswersCall s (call_row request.now) self.old self.new result }
    {
        match request {
            Request::LoCreat(_mode) => self.create(s, 0),
            Request::LoCreate(oid) => self.create(s, *oid),
            Request::LoWrite(fd, bytes) => self.write(s, *fd, bytes.items()),
            Request::LoTruncate(fd, size) => self.truncate(s, *fd, i64::from(*size)),
            Request::LoTruncate64(fd, size) => self.truncate(s, *fd, *size),
            Request::LoUnlink(oid) => self.unlink(s, *oid),
            Request::LoPut(oid, at, bytes) => self.put(s, *oid, *at, bytes.items()),
            Request::LoFromBytea(oid, bytes) => self.from_bytea(s, *oid, bytes.items()),
            _ => self.change_rows(s, request),
        }
    }

    /// One on tables, rows or cursors.
    fn change_rows(&mut self, s: SessionNo, request: &Request) -> Result<Reply, Denied>
        requires can { CanCall s self.old }
        requires plain { IsPlain request.now }
        requires writes { writes_rows request.now ≡ true }
        ensures { AnswersCall s (call_row request.now) self.old self.new result }
    {
        match request {
            Request::CreateTable(name, columns) => self.create_table(s, name, columns),
            Request::Insert(table, values) => self.insert(s, table, values.items()),
            Request::Update(table, id, changes) => self.update(s, table, *id, changes.items()),
            Request::Delete(table, id) => self.delete(s, table, *id),
            Request::Declare(cursor, table, id) => self.declare(s, cursor, table, *id),
            Request::Rewrite(table, storages) => self.rewrite(s, table, storages.items()),
            _ => unreachable!(),
        }
    }

    /// A request that makes no edit.
    fn look(&mut self, s: SessionNo, request: &Request) -> Result<Reply, Denied>
        requires can { CanCall s self.old }
        requires reads { reads request.now ≡ true }
        ensures { ReadsCall s (call_row request.now) self.old self.new result }
    {
        match request {
            Request::LoOpen(oid, mode) => self.open_descriptor(s, *oid, *mode),
            Request::LoClose(fd) => self.close(s, *fd),
            Request::LoRead(fd, length) => self.read(s, *fd, *length),
            Request::LoLseek(fd, offset, whence) => {
                self.seek(s, *fd, i64::from(*offset), *whence, false)
            }
            Request::LoLseek64(fd, offset, whence) => self.seek(s, *fd, *offset, *whence, true),
            Request::LoTell(fd) => self.tell(s, *fd, false),
            Request::LoTell64(fd) => self.tell(s, *fd, true),
            Request::LoGet(oid, from, length) => self.get(s, *oid, *from, *length),
            _ => self.look_at_rows(s, request),
        }
    }

    /// One on tables, rows and cursors.
    fn look_at_rows(&mut self, s: SessionNo, request: &Request) -> Result<Reply, Denied>
        requires can { CanCall s self.old }
        requires reads { reads_rows request.now ≡ true }
        ensures { ReadsCall s (call_row request.now) self.old self.new result }
    {
        match request {
            Request::Get(table, id) => self.get_row(s, table, *id),
            Request::Ids(table) => self.ids(s, table),
            Request::Slice(table, id, column, from, length) => {
                self.slice(s, table, *id, column, *from, *length)
            }
            Request::Fetch(cursor, column, from, length) => {
                self.fetch(s, cursor, column, *from, *length)
            }
            Request::Close(cursor) => self.close_cursor(s, cursor),
            Request::Load(name, table, id, column) => self.load(s, name, table, *id, column),
            _ => unreachable!(),
        }
    }

    /// One on array variables.
    fn try_set(&mut self, s: SessionNo, request: &Request) -> Result<Reply, Denied>
        requires sound { IsServer self.old }
        requires rows { HasRows self.old }
        requires sets { sets request.now ≡ true }
        ensures { ReadsCall s (call_row request.now) self.old self.new result }
    {
        match request {
            Request::Array(name, text) => self.make_array(s, name, text.items()),
            Request::Set(name, sub, value) => self.set_element(s, name, *sub, *value),
            Request::Elem(name, sub) => self.element(s, name, *sub),
            Request::Show(name) => self.show(s, name),
            _ => unreachable!(),
        }
    }
}

/// Why a request may not stand where it does, if it may not.
fn misplaced_by(request: &Request, in_block: bool) -> Option<Cause>
    ensures { result ≡ misplaced_by request.now in_block }
{
    match request {
        Request::CreateTable(_, _) | Request::Rewrite(_, _) if in_block => Some(Cause::InBlock),
        Request::Declare(_, _, _) if !in_block => Some(Cause::NoBlock),
        _ => None,
    }
}

/// Whether a request may make edits, tables or cursors.
fn is_writing(request: &Request) -> bool
    ensures { result ≡ writes request.now }
{
    matches!(
        request,
        Request::LoCreat(_)
            | Request::LoCreate(_)
            | Request::LoWrite(_, _)
            | Request::LoTruncate(_, _)
            | Request::LoTruncate64(_, _)
            | Request::LoUnlink(_)
            | Request::LoPut(_, _, _)
            | Request::LoFromBytea(_, _)
            | Request::CreateTable(_, _)
            | Request::Insert(_, _)
            | Request::Update(_, _, _)
            | Request::Delete(_, _)
            | Request::Declare(_, _, _)
            | Request::Rewrite(_, _)
    )
}

/// Whether a request is on array variables alone.
fn is_setting(request: &Request) -> bool
    ensures { result ≡ sets request.now }
{
    matches!(
        request,
        Request::Array(_, _) | Request::Set(_, _, _) | Request::Elem(_, _) | Request::Show(_)
    )
}
