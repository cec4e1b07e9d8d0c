// A server at its beginning: the tables and the objects of an opening are made in one transaction of a session, which is
// committed at clock 0, before the first request.
ghost use Rattle.std.specs.Prelude.{◌≡◌, ◌≤◌, None, IfOk, length, map, flat_map};
ghost use Rattle.lo_model.specs.Opening.{object_deeds};
ghost use Rattle.lo_opening.specs.Meaning.{object_of, opening_of};
ghost use Rattle.lo_opening.specs.Opening.{AreTables};
ghost use Rattle.lo_pages.specs.Standing.{GoWith};
ghost use Rattle.lo_restore.specs.Objects.{AreOpened};
ghost use Rattle.lo_restore.specs.Tables.{deeds_in, named_of};
ghost use Rattle.lo_restore.specs.TablesRestored.{HaveDone};
ghost use Rattle.xact_core.specs.Ends.{Opens};
ghost use Rattle.xact_core.specs.Transactions.{beginning};
ghost use Rattle.lo_machine.specs.Server.{HasRows, IsServer, StandsFor};
ghost use Rattle.lo_machine.specs.Loading.{IsLoaded, StandBehindRows, loading_session};
ghost use Rattle.lo_machine.specs.NewServer.{AreNew, AreNone};
ghost use Rattle.lo_machine.specs.Run.{start_from};

use crate::server::Server;
use crate::variables::Variables;
use lo_base::{NoMemory, SESSIONS, SessionNo};
use lo_calls::{Descs, LoSession, LoStore};
use lo_opening::{ObjectData, Opening, TableData};
use lo_pages::Pages;
use lo_restore::{restore_objects, restore_tables};
use row_tables::Tables;
use row_versions::Core;
use std::alloc::Global;
use xact_core::Xacts;

impl Server {
    /// A server of an opening's database, before its first request. It costs what the opening holds.
    pub fn start(alloc: Global, opening: &Opening) -> Result<Server, NoMemory>
        ensures sound { IfOk result IsServer }
        ensures rows { IfOk result HasRows }
        ensures stands { IfOk result (λ server.
            StandsFor server (start_from (opening_of opening.now)).state) }
    {
        let s = loader();
        let mut server = Server::loaded(alloc, s, opening)?;
        server.end_committed(s);
        server.core.xacts.tick();
        Ok(server)
    }

    /// A server that was made of an opening in a session's transaction, which is still open.
    fn loaded(alloc: Global, s: SessionNo, opening: &Opening) -> Result<Server, NoMemory>
        requires { s ≡ loading_session }
        ensures { IfOk result (IsLoaded (opening_of opening.now)) }
    {
        let mut core = Core {
            xacts: Xacts::new(alloc)?,
        };
        core.xacts.begin(s)?;
        let tables = loaded_tables(alloc, &mut core, s, opening.tables.items())?;
        let pages = loaded_pages(alloc, &mut core, s, opening.objects.items())?;
        let mut failed = Vec::new(alloc);
        failed.resize(SESSIONS as usize, false)?;
        Ok(Server {
            alloc,
            core,
            store: LoStore {
                pages,
                counter: opening.counter,
            },
            tables,
            sessions: new_sessions(alloc)?,
            variables: new_variables(alloc)?,
            failed,
            undos: 0,
        })
    }
}

/// The session in whose transaction an opening is loaded.
fn loader() -> SessionNo
    ensures { result ≡ loading_session }
{
    let Some(s) = SessionNo::new(1) else {
        unreachable!()
    };
    s
}

/// The tables of an opening with their rows, made in a session's transaction, before which there was nothing.
fn loaded_tables(
    alloc: Global,
    core: &mut Core,
    s: SessionNo,
    list: &[TableData],
) -> Result<Tables, NoMemory>
    requires begun { Opens s None beginning core.old.xacts }
    requires rules { AreTables None 1 1 list.now }
    requires few { length list.now ≤ 1000 }
    ensures done { IfOk result (λ tables. HaveDone core.old.xacts s tables
        (map named_of list.now) (deeds_in list.now)) }
    ensures core { core.new ≡ core.old }
{
    let mut tables = Tables::new(alloc)?;
    restore_tables(alloc, &mut tables, core, s, list)?;
    Ok(tables)
}

/// The objects of an opening, made in a session's transaction, before which there was nothing.
fn loaded_pages(
    alloc: Global,
    core: &mut Core,
    s: SessionNo,
    objects: &[ObjectData],
) -> Result<Pages, NoMemory>
    requires begun { Opens s None beginning core.old.xacts }
    requires rules { AreOpened objects.now }
    // The pages stand for the deeds of an opening with these objects, whatever rows are put before.
    ensures stand { IfOk result (StandBehindRows core.old.xacts s
        (flat_map object_deeds (map object_of objects.now))) }
    ensures goes { IfOk result (GoWith core.old.xacts) }
    ensures core { core.new ≡ core.old }
{
    let mut pages = Pages::new(alloc)?;
    restore_objects(&mut pages, core, s, objects)?;
    Ok(pages)
}

/// Sixteen sessions without descriptors.
fn new_sessions(alloc: Global) -> Result<Vec<LoSession>, NoMemory>
    ensures { IfOk result (λ sessions. AreNew sessions.items) }
{
    let mut sessions = Vec::with_capacity(alloc, SESSIONS as usize)?;
    for number in 1..=SESSIONS {
        let Some(s) = SessionNo::new(number) else {
            unreachable!()
        };
        sessions.push(LoSession {
            descs: Descs::new(alloc)?,
            s,
        })?;
    }
    Ok(sessions)
}

/// Sixteen sessions without array variables.
fn new_variables(alloc: Global) -> Result<Vec<Variables>, NoMemory>
    ensures { IfOk result (λ lists. AreNone lists.items) }
{
    let mut lists = Vec::with_capacity(alloc, SESSIONS as usize)?;
    for _session in 0..SESSIONS {
        lists.push(Variables::new(alloc))?;
    }
    Ok(lists)
}
