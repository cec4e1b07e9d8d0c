// Each request on large objects as the call of its session, with its reply. What a call does stands in lo_calls.
ghost use Rattle.std.specs.Prelude.{◌≤◌, length, []};
ghost use Rattle.lo_calls.specs.DescriptorRows.{open_row, close_row, read_row, write_row, seek_row, tell_row, truncate_row};
ghost use Rattle.lo_calls.specs.ObjectRows.{create_row, unlink_row, get_row, put_row};
ghost use Rattle.lo_machine.specs.Dispatch.{CanCall, AnswersCall, ReadsCall};
ghost use Rattle.lo_machine.specs.Row.{on_objects};

use crate::server::Server;
use lo_base::{Denied, Oid, Reply, SessionNo, Word};

impl Server {
    pub(crate) fn create(&mut self, s: SessionNo, oid: Oid) -> Result<Reply, Denied>
        requires { CanCall s self.old }
        ensures { AnswersCall s (on_objects (create_row oid [])) self.old self.new result }
    {
        let session = &self.sessions[s.place()];
        match session.lo_create(&mut self.store, &mut self.core, oid) {
            Ok(number) => Ok(Reply::Number(i64::from(number))),
            Err(denied) => Err(denied),
        }
    }

    pub(crate) fn from_bytea(
        &mut self,
        s: SessionNo,
        oid: Oid,
        bytes: &[u8],
    ) -> Result<Reply, Denied>
        requires can { CanCall s self.old }
        requires most { length bytes.now ≤ 16777216 }
        ensures { AnswersCall s (on_objects (create_row oid bytes.now)) self.old self.new result }
    {
        let session = &self.sessions[s.place()];
        match session.lo_from_bytea(&mut self.store, &mut self.core, oid, bytes) {
            Ok(number) => Ok(Reply::Number(i64::from(number))),
            Err(denied) => Err(denied),
        }
    }

    pub(crate) fn unlink(&mut self, s: SessionNo, oid: Oid) -> Result<Reply, Denied>
        requires { CanCall s self.old }
        ensures { AnswersCall s (on_objects (unlink_row oid)) self.old self.new result }
    {
        let session = &mut self.sessions[s.place()];
        match session.lo_unlink(&mut self.store, &mut self.core, oid) {
            Ok(()) => Ok(Reply::Number(1)),
            Err(denied) => Err(denied),
        }
    }

    pub(crate) fn put(
        &mut self,
        s: SessionNo,
        oid: Oid,
        at: i64,
        bytes: &[u8],
    ) -> Result<Reply, Denied>
        requires { CanCall s self.old }
        ensures { AnswersCall s (on_objects (put_row oid at bytes.now)) self.old self.new result }
    {
        let session = &self.sessions[s.place()];
        match session.lo_put(&mut self.store, &mut self.core, oid, at, bytes) {
            Ok(()) => Ok(Reply::Word(Word::Ok)),
            Err(denied) => Err(denied),
        }
    }

    pub(crate) fn get(
        &mut self,
        s: SessionNo,
        oid: Oid,
        from: i64,
        length: Option<i32>,
    ) -> Result<Reply, Denied>
        requires { CanCall s self.old }
        ensures { ReadsCall s (on_objects (get_row oid from length)) self.old self.new result }
    {
        let session = &self.sessions[s.place()];
        match session.lo_get(&self.store, &self.core, oid, from, length) {
            Ok(bytes) => Ok(Reply::Content(bytes)),
            Err(denied) => Err(denied),
        }
    }

    pub(crate) fn open_descriptor(
        &mut self,
        s: SessionNo,
        oid: Oid,
        mode: i32,
    ) -> Result<Reply, Denied>
        requires { CanCall s self.old }
        ensures { ReadsCall s (on_objects (open_row oid mode)) self.old self.new result }
    {
        let session = &mut self.sessions[s.place()];
        match session.lo_open(&self.store, &mut self.core, oid, mode) {
            Ok(fd) => Ok(Reply::Number(i64::from(fd))),
            Err(denied) => Err(denied),
        }
    }

    pub(crate) fn close(&mut self, s: SessionNo, fd: i32) -> Result<Reply, Denied>
        requires { CanCall s self.old }
        ensures { ReadsCall s (on_objects (close_row fd)) self.old self.new result }
    {
        let session = &mut self.sessions[s.place()];
        match session.lo_close(&mut self.core, fd) {
            Ok(()) => Ok(Reply::Number(0)),
            Err(refusal) => Err(Denied::By(refusal)),
        }
    }

    pub(crate) fn read(&mut self, s: SessionNo, fd: i32, length: i32) -> Result<Reply, Denied>
        requires { CanCall s self.old }
        ensures { ReadsCall s (on_objects (read_row fd length)) self.old self.new result }
    {
        let session = &mut self.sessions[s.place()];
        match session.lo_read(&self.store, &self.core, fd, length) {
            Ok(bytes) => Ok(Reply::Content(bytes)),
            Err(denied) => Err(denied),
        }
    }

    pub(crate) fn write(&mut self, s: SessionNo, fd: i32, bytes: &[u8]) -> Result<Reply, Denied>
        requires { CanCall s self.old }
        ensures { AnswersCall s (on_objects (write_row fd bytes.now)) self.old self.new result }
    {
        let session = &mut self.sessions[s.place()];
        match session.lo_write(&mut self.store, &mut self.core, fd, bytes) {
            Ok(count) => Ok(Reply::Number(count)),
            Err(denied) => Err(denied),
        }
    }

    pub(crate) fn seek(
        &mut self,
        s: SessionNo,
        fd: i32,
        offset: i64,
        whence: i32,
        wide: bool,
    ) -> Result<Reply, Denied>
        requires { CanCall s self.old }
        ensures { ReadsCall s (on_objects (seek_row wide fd offset whence)) self.old self.new result }
    {
        let session = &mut self.sessions[s.place()];
        match session.lo_lseek(&self.store, &self.core, fd, offset, whence, wide) {
            Ok(position) => Ok(Reply::Number(position)),
            Err(refusal) => Err(Denied::By(refusal)),
        }
    }

    pub(crate) fn tell(&mut self, s: SessionNo, fd: i32, wide: bool) -> Result<Reply, Denied>
        requires { CanCall s self.old }
        ensures { ReadsCall s (on_objects (tell_row wide fd)) self.old self.new result }
    {
        let session = &self.sessions[s.place()];
        match session.lo_tell(fd, wide) {
            Ok(position) => Ok(Reply::Number(position)),
            Err(refusal) => Err(Denied::By(refusal)),
        }
    }

    pub(crate) fn truncate(&mut self, s: SessionNo, fd: i32, size: i64) -> Result<Reply, Denied>
        requires { CanCall s self.old }
        ensures { AnswersCall s (on_objects (truncate_row fd size)) self.old self.new result }
    {
        let session = &self.sessions[s.place()];
        match session.lo_truncate(&mut self.store, &mut self.core, fd, size) {
            Ok(()) => Ok(Reply::Number(0)),
            Err(denied) => Err(denied),
        }
    }
}
