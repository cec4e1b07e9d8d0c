// Objects that are restored in a transaction, and saved again, once it has committed, as they were.
ghost use Rattle.std.specs.Prelude.{◌≡◌, IfOk};
ghost use Rattle.lo_restore.specs.Tries.{sample_blocks, sample_object, sample_objects};

use super::{begun, fill};
use crate::{restore_objects, saved_objects};
use lo_base::{NoMemory, SessionNo};
use lo_opening::{ObjectData, ObjectList, StoredBlocks};
use lo_pages::Pages;
use std::alloc::Global;
use std::process::Abort;

fn sample_blocks(alloc: Global) -> Result<StoredBlocks, NoMemory>
    ensures { IfOk result (λ blocks. blocks ≡ sample_blocks) }
{
    let mut blocks = StoredBlocks::new(alloc);
    blocks.push((1, fill(alloc, 65, 2048)?))?;
    blocks.push((3, fill(alloc, 66, 2048)?))?;
    Ok(blocks)
}

fn sample_objects(alloc: Global) -> Result<ObjectList, NoMemory>
    ensures { IfOk result (λ objects. objects ≡ sample_objects) }
{
    let mut objects = ObjectList::new(alloc);
    objects.push(object(16384, 10000, sample_blocks(alloc)?))?;
    objects.push(object(16385, 0, StoredBlocks::new(alloc)))?;
    objects.push(object(16390, 5000, StoredBlocks::new(alloc)))?;
    Ok(objects)
}

fn object(oid: u32, size: u64, stored: StoredBlocks) -> ObjectData
    ensures { result ≡ sample_object oid size stored }
{
    ObjectData { oid, size, stored }
}

/// The objects as they are saved in the view of what is committed, once they were restored.
fn saved_again(alloc: Global, s: SessionNo, objects: &ObjectList) -> Result<ObjectList, NoMemory>
    requires { objects.now ≡ sample_objects }
{
    let mut core = begun(alloc, s)?;
    let mut pages = Pages::new(alloc)?;
    restore_objects(&mut pages, &mut core, s, objects.items())?;
    core.xacts.commit(s);
    let snap = core.xacts.committed();
    saved_objects(alloc, &pages, &core, &snap, 0)
}

#[test]
fn objects_are_saved_as_they_were_restored(rt: HostRuntime) {
    let alloc = rt.alloc();
    let s = SessionNo::new(1).expect(&rt, "a session");
    let objects = sample_objects(alloc).expect(&rt, "memory");
    let saved = saved_again(alloc, s, &objects).expect(&rt, "memory");
    let before = format!(in alloc; "{:?}", objects.items()).expect(&rt, "memory");
    let after = format!(in alloc; "{:?}", saved.items()).expect(&rt, "memory");
    assert_eq!(&rt; before.len() > 16000, true);
    assert_eq!(&rt; before == after, true);
}
