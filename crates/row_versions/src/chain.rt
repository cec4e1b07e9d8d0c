// The versions of one key, in the order made: what a view finds among them, who has them open, and what a vacuum leaves.
// Only the module of the store uses these functions.
ghost use Rattle.std.specs.Prelude.{◌≡◌, map, filter};
ghost use Rattle.std.specs.Option.{option_copied};
ghost use Rattle.xact_core.specs.Kept.{kept_views};
ghost use Rattle.row_versions.specs.Stack.{IsStack};
ghost use Rattle.row_versions.specs.Stands.{standing, lowest_other, vacuumed};
ghost use Rattle.lo_model.specs.Touch.{other_session};
ghost use Rattle.xact_core.specs.Stamp.{owner_of};
ghost use Rattle.row_versions.specs.Chain.{versions_of, cleared, marked, marked_by, unmarked, is_needed, gone_at};
ghost use Rattle.row_versions.specs.Found.{finds, is_erasure, is_settled, is_put_by};

use lo_base::SessionNo;
use lo_model::Owner;
use xact_core::{Snapshot, Stamp, Xacts};

/// A version of one key: the content that was put, or nothing where it was erased. `needed` is used by a vacuum alone.
#[derive(Drop)]
pub struct Entry<D> {
    pub stamp: Stamp,
    pub content: Option<D>,
    pub needed: bool,
}

/// The content that a view finds: that of the last version that it sees, if that is a put.
pub fn find<'a, D>(entries: &'a [Entry<D>], core: &Xacts, snap: &Snapshot) -> Option<&'a D>
    ensures { option_copied result ≡ finds core.now snap.now (versions_of entries.now) }
{
    let mut i = entries.len();
    while i > 0 {
        i -= 1;
        if core.sees(snap, entries[i].stamp) {
            return entries[i].content.as_ref();
        }
    }
    None
}

/// The other session whose open transaction has one of these versions. The last one that was not undone tells it, since
/// only one session can have open versions of a key, and they come last.
pub fn busy<D>(entries: &[Entry<D>], core: &Xacts, s: SessionNo) -> Option<SessionNo>
    requires { IsStack core.now (standing core.now (versions_of entries.now)) }
    ensures { result ≡ lowest_other s (standing core.now (versions_of entries.now)) }
{
    let mut i = entries.len();
    while i > 0 {
        i -= 1;
        if let Some(owner) = core.owner(entries[i].stamp) {
            return other(&owner, s);
        }
    }
    None
}

/// The session of an open transaction that is not the session itself.
fn other(owner: &Owner, s: SessionNo) -> Option<SessionNo>
    ensures { result ≡ other_session s owner.now }
{
    match owner {
        Owner::Running(t, _) if t.number() != s.number() => Some(*t),
        _ => None,
    }
}

/// Takes away the versions of one key that no kept view needs, without memory.
pub fn reclaim<D: Drop>(entries: &mut Vec<Entry<D>>, core: &Xacts)
    ensures { versions_of entries.new.items
        ≡ vacuumed is_erasure core.now (versions_of entries.old.items) }
{
    clear(entries);
    mark_all(entries, core);
    trim(entries, core);
    sweep(entries);
}

fn clear<D>(entries: &mut Vec<Entry<D>>)
    ensures { entries.new.items ≡ map cleared entries.old.items }
{
    for i in 0..entries.len() {
        entries[i].needed = false;
    }
}

/// Marks what each kept view sees last.
fn mark_all<D>(entries: &mut Vec<Entry<D>>, core: &Xacts)
    ensures { entries.new.items ≡ marked_by core.now (kept_views core.now) entries.old.items }
{
    for k in 0..core.views() {
        let view = core.view(k);
        mark(entries, core, &view);
    }
}

/// Marks what a view sees last.
fn mark<D>(entries: &mut Vec<Entry<D>>, core: &Xacts, view: &Snapshot)
    ensures { entries.new.items ≡ marked core.now view.now entries.old.items }
{
    let mut i = entries.len();
    while i > 0 {
        i -= 1;
        if core.sees(view, entries[i].stamp) {
            entries[i].needed = true;
            return;
        }
    }
}

/// Takes the marks off committed erasures that come before all else that is marked.
fn trim<D>(entries: &mut Vec<Entry<D>>, core: &Xacts)
    ensures { entries.new.items ≡ unmarked core.now entries.old.items }
{
    for i in 0..entries.len() {
        if entries[i].needed {
            if !is_gone(&entries[i], core) {
                return;
            }
            entries[i].needed = false;
        }
    }
}

fn is_gone<D>(entry: &Entry<D>, core: &Xacts) -> bool
    ensures { result ≡ gone_at core.now entry.now }
{
    match core.owner(entry.stamp) {
        None => true,
        Some(Owner::Running(_, _)) => false,
        Some(Owner::Committed(_)) => entry.content.is_none(),
    }
}

fn sweep<D: Drop>(entries: &mut Vec<Entry<D>>)
    ensures { entries.new.items ≡ filter is_needed entries.old.items }
{
    entries.retain(|entry| entry.needed);
}

/// Whether a vacuum need not look at these versions: there is none, or one, which is a committed put.
pub fn is_settled<D>(entries: &[Entry<D>], core: &Xacts) -> bool
    ensures { result ≡ is_settled core.now (versions_of entries.now) }
{
    match entries {
        [] => true,
        [entry] => is_put(entry, core),
        _ => false,
    }
}

fn is_put<D>(entry: &Entry<D>, core: &Xacts) -> bool
    ensures { result ≡ is_put_by (owner_of core.now entry.now.stamp) entry.now.content }
{
    match core.owner(entry.stamp) {
        Some(Owner::Committed(_)) => entry.content.is_some(),
        _ => false,
    }
}
