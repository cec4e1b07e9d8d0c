// The store of versions by key. Contracts read it by the versions of one key alone, and say nothing of the order between keys
// but where a call looks for the least or the greatest key.
ghost use Rattle.std.specs.Prelude.{◌≡◌, ◌≢◌, ℕ, ◌<◌, ◌++◌, [], ◌∷◌, length, None, Some, OnOk, OnErr, IfOk, MatchOption, filter, false};
ghost use Rattle.std.specs.Option.{option_copied};
ghost use Rattle.lo_model.specs.Touch.{lower_of};
ghost use Rattle.lo_model.specs.declared.viewer.Viewer.{Viewer};
ghost use Rattle.xact_core.specs.declared.snapshot.Snapshot.{Snapshot};
ghost use Rattle.xact_core.specs.Transactions.{Transactions, levels_of};
ghost use Rattle.row_versions.specs.Chain.{version_of};
ghost use Rattle.row_versions.specs.Found.{is_erasure, is_settled};
ghost use Rattle.row_versions.specs.Looks.{IsLook};
ghost use Rattle.row_versions.specs.Search.{finds_at, busy_at, HasNoneFrom, IsLeastFrom, HasNoneIn, IsGreatestIn, IsFreeIn, IsLowestIn};
ghost use Rattle.row_versions.specs.Stands.{vacuumed};
ghost use Rattle.row_versions.specs.Store.{versions_at, versions_in, edits_at, AddsVersion, SameVersions, KeepsListed, GoesWith, VacuumsKeys, is_unsettled, is_empty_at, HasNoEmpty};
ghost use Rattle.row_versions.specs.Vacuum.{any_open, FoundUnlessErasure, OneOwner};
ghost use Rattle.row_versions.specs.Count.{ListsHeld, clocks_left};
ghost use Rattle.row_versions.specs.Stack.{Each, Pairwise};
ghost use Rattle.xact_core.specs.Kept.{kept_views};

use crate::base::Core;
use crate::chain::{Entry, busy, find, is_settled, reclaim};
use crate::key::Key;
use lo_base::{Bytes, NoMemory, SessionNo};
use std::alloc::Global;
use std::collections::{BTreeMap, BTreeSet};
use xact_core::{Snapshot, Xacts};

/// Versions by key, of content of one type. A key without versions is not in the map. `unsettled` has the keys that a vacuum
/// has to look at: those that got a version since they were last left with one committed put or with none.
#[derive(Drop)]
pub struct Store<K: Key, D> {
    alloc: Global,
    chains: BTreeMap<K, Vec<Entry<D>>>,
    unsettled: BTreeSet<K>,
}

/// Versions of bytes, which are kept on the heap.
pub type Heads<K> = Store<K, Bytes>;

impl<K: Key, D: Drop> Store<K, D> {
    /// A store without versions.
    pub fn new(alloc: Global) -> Result<Self, NoMemory>
        ensures empty { IfOk result (λ store. (key : K) → versions_at K.cmp store key ≡ []) }
        ensures goes { IfOk result (λ store. (x : Transactions) → GoesWith K.cmp x store) }
    {
        Ok(Store {
            alloc,
            chains: BTreeMap::new(alloc),
            unsettled: BTreeSet::new(alloc),
        })
    }

    /// What a view finds at a key: the content of the last put that it sees, unless an erasure follows that it sees too.
    /// It costs a search and the versions from the newest back to the first that the view sees.
    pub fn find(&self, core: &Core, key: &K, snap: &Snapshot) -> Option<&D>
        requires kept { IsLook core.now.xacts snap.now }
        ensures { option_copied result ≡ finds_at K.cmp core.now.xacts snap.now self.now key.now }
    {
        let entries = self.chains.get(key)?;
        find(entries.as_slice(), &core.xacts, snap)
    }

    /// Puts a content at a key, in the session's top level.
    pub fn put(&mut self, core: &mut Core, s: SessionNo, key: K, content: D) -> Result<(), NoMemory>
        requires open { 0 < length (levels_of core.old.xacts s) }
        requires free { busy_at K.cmp core.old.xacts s self.old key ≡ None }
        requires goes { GoesWith K.cmp core.old.xacts self.old }
        ensures ok { OnOk result (AddsVersion K.cmp core.old.xacts s key
            (Some content) self.old self.new) }
        ensures err { OnErr result (SameVersions K.cmp self.old self.new) }
        ensures goes { GoesWith K.cmp core.old.xacts self.new }
        ensures core { core.new ≡ core.old }
    {
        self.change(&core.xacts, s, key, Some(content))
    }

    /// Erases a key, in the session's top level. The erasure is a version too.
    pub fn erase(&mut self, core: &Core, s: SessionNo, key: K) -> Result<(), NoMemory>
        requires open { 0 < length (levels_of core.now.xacts s) }
        requires free { busy_at K.cmp core.now.xacts s self.old key ≡ None }
        requires goes { GoesWith K.cmp core.now.xacts self.old }
        ensures ok { OnOk result (AddsVersion K.cmp core.now.xacts s key None self.old self.new) }
        ensures err { OnErr result (SameVersions K.cmp self.old self.new) }
        ensures goes { GoesWith K.cmp core.now.xacts self.new }
    {
        self.change(&core.xacts, s, key, None)
    }

    fn change(
        &mut self,
        core: &Xacts,
        s: SessionNo,
        key: K,
        content: Option<D>,
    ) -> Result<(), NoMemory>
        requires open { 0 < length (levels_of core.now s) }
        requires free { busy_at K.cmp core.now s self.old key ≡ None }
        requires goes { GoesWith K.cmp core.now self.old }
        ensures ok { OnOk result (AddsVersion K.cmp core.now s key content self.old self.new) }
        ensures err { OnErr result (SameVersions K.cmp self.old self.new) }
        ensures goes { GoesWith K.cmp core.now self.new }
    {
        // Numbers of sessions begin at 1.
        let _ = s.number();
        self.add_version(core, s, key, content)
    }

    fn add_version(
        &mut self,
        core: &Xacts,
        s: SessionNo,
        key: K,
        content: Option<D>,
    ) -> Result<(), NoMemory>
        requires { 0 < length (levels_of core.now s) }
        ensures ok { OnOk result (AddsVersion K.cmp core.now s key content self.old self.new) }
        ensures err { OnErr result (SameVersions K.cmp self.old self.new) }
        ensures listed { KeepsListed K.cmp core.now self.old self.new }
    {
        let stamp = core.stamp(s);
        self.unsettled.insert(key)?;
        add(
            &mut self.chains,
            self.alloc,
            key,
            Entry {
                stamp,
                content,
                needed: false,
            },
        )
    }

    /// The lowest other session whose open transaction has put or erased the key, where that was not undone. It costs a search
    /// and the versions from the newest back to the first that was not undone.
    pub fn busy(&self, core: &Core, key: &K, s: SessionNo) -> Option<SessionNo>
        requires goes { GoesWith K.cmp core.now.xacts self.now }
        ensures { result ≡ busy_at K.cmp core.now.xacts s self.now key.now }
    {
        let entries = self.chains.get(key)?;
        busy(entries.as_slice(), &core.xacts, s)
    }

    /// The lowest such session over all keys from one to another, both included.
    pub fn busy_in(&self, core: &Core, from: &K, to: &K, s: SessionNo) -> Option<SessionNo>
        requires goes { GoesWith K.cmp core.now.xacts self.now }
        ensures { MatchOption result (IsFreeIn K.cmp core.now.xacts s self.now from.now to.now)
            (IsLowestIn K.cmp core.now.xacts s self.now from.now to.now) }
    {
        if *from > *to {
            return None;
        }
        let mut lowest = None;
        for (_key, entries) in self.chains.range(*from..=*to) {
            lowest = lower(lowest, busy(entries.as_slice(), &core.xacts, s));
        }
        lowest
    }

    /// The least key at or above another at which the view finds something.
    pub fn range(&self, core: &Core, from: &K, snap: &Snapshot) -> Option<K>
        requires kept { IsLook core.now.xacts snap.now }
        ensures { MatchOption result (HasNoneFrom K.cmp core.now.xacts snap.now self.now from.now)
            (IsLeastFrom K.cmp core.now.xacts snap.now self.now from.now) }
    {
        for (key, entries) in self.chains.range(*from..) {
            if find(entries.as_slice(), &core.xacts, snap).is_some() {
                return Some(*key);
            }
        }
        None
    }

    /// The greatest key from one to another, both included, at which the view finds something.
    pub fn last_in(&self, core: &Core, from: &K, to: &K, snap: &Snapshot) -> Option<K>
        requires kept { IsLook core.now.xacts snap.now }
        ensures { MatchOption result (HasNoneIn K.cmp core.now.xacts snap.now self.now from.now to.now)
            (IsGreatestIn K.cmp core.now.xacts snap.now self.now from.now to.now) }
    {
        if *from > *to {
            return None;
        }
        for (key, entries) in self.chains.range(*from..=*to).rev() {
            if find(entries.as_slice(), &core.xacts, snap).is_some() {
                return Some(*key);
            }
        }
        None
    }

    /// Takes away what no kept view needs: of each key it leaves the versions that are the last which some kept view sees, and
    /// of these not the committed erasures that come first. It looks at the unsettled keys alone, and takes no memory.
    pub fn vacuum(&mut self, core: &Core)
        requires goes { GoesWith K.cmp core.now.xacts self.old }
        ensures versions { (key : K) → versions_at K.cmp self.new key
            ≡ vacuumed is_erasure core.now.xacts (versions_at K.cmp self.old key) }
        ensures goes { GoesWith K.cmp core.now.xacts self.new }

        // Each kept view finds what it found, and whoever has a key open had it: each session, and below each of its levels.
        ensures finds { (key : K) (v : Snapshot) → IsLook core.now.xacts v
            → finds_at K.cmp core.now.xacts v self.new key
            ≡ finds_at K.cmp core.now.xacts v self.old key }
        ensures open { (key : K) (viewer : Viewer)
            → any_open viewer (edits_at K.cmp core.now.xacts self.new key)
            ≡ any_open viewer (edits_at K.cmp core.now.xacts self.old key) }

        // The puts that are left of a key are what kept views find, each once, where one clock is one session's request.
        ensures puts { (key : K)
            → Each (FoundUnlessErasure is_erasure (kept_views core.now.xacts)
            (edits_at K.cmp core.now.xacts self.old key))
            (edits_at K.cmp core.now.xacts self.new key) }
        ensures held { (key : K) → Pairwise OneOwner (edits_at K.cmp core.now.xacts self.old key)
            → ListsHeld is_erasure (kept_views core.now.xacts)
            (edits_at K.cmp core.now.xacts self.old key)
            (clocks_left is_erasure (edits_at K.cmp core.now.xacts self.new key)) }
    {
        reclaim_all(&mut self.chains, &self.unsettled, &core.xacts);
        settle(&mut self.unsettled, &self.chains, &core.xacts);
    }
}

/// The lower of two sessions, if any.
fn lower(first: Option<SessionNo>, second: Option<SessionNo>) -> Option<SessionNo>
    ensures { result ≡ lower_of first second }
{
    match (first, second) {
        (Some(a), Some(b)) => Some(if a.number() <= b.number() { a } else { b }),
        (None, second) => second,
        (first, None) => first,
    }
}

/// Adds a version of a key. A new key enters the map with its version.
fn add<K: Key, D: Drop>(
    chains: &mut BTreeMap<K, Vec<Entry<D>>>,
    alloc: Global,
    key: K,
    entry: Entry<D>,
) -> Result<(), NoMemory>
    ensures here { OnOk result (versions_in K.cmp chains.new key
        ≡ versions_in K.cmp chains.old key ++ version_of entry ∷ []) }
    ensures others { OnOk result ((k : K) → k ≢ key →
        versions_in K.cmp chains.new k ≡ versions_in K.cmp chains.old k) }
    ensures err { OnErr result ((k : K) →
        versions_in K.cmp chains.new k ≡ versions_in K.cmp chains.old k) }
    ensures full { OnOk result (is_empty_at K.cmp chains.new key ≡ false) }
    ensures full_others { OnOk result ((k : K) → k ≢ key →
        is_empty_at K.cmp chains.new k ≡ is_empty_at K.cmp chains.old k) }
    ensures full_err { OnErr result ((k : K) →
        is_empty_at K.cmp chains.new k ≡ is_empty_at K.cmp chains.old k) }
{
    match chains.get_mut(&key) {
        Some(entries) => {
            entries.push(entry)?;
        }
        None => {
            let mut entries = Vec::new(alloc);
            entries.push(entry)?;
            chains.insert(key, entries)?;
        }
    }
    Ok(())
}

fn reclaim_all<K: Key, D: Drop>(
    chains: &mut BTreeMap<K, Vec<Entry<D>>>,
    keys: &BTreeSet<K>,
    core: &Xacts,
)
    ensures vacuums { VacuumsKeys K.cmp core.now keys.now.keys (versions_in K.cmp chains.old)
        (versions_in K.cmp chains.new) }
    ensures full { HasNoEmpty K.cmp chains.old → HasNoEmpty K.cmp chains.new }
{
    for key in keys.iter() {
        reclaim_key(chains, *key, core);
    }
}

/// Takes away what is not needed of one key, and the key where nothing is left.
fn reclaim_key<K: Key, D: Drop>(chains: &mut BTreeMap<K, Vec<Entry<D>>>, key: K, core: &Xacts)
    ensures here { versions_in K.cmp chains.new key
        ≡ vacuumed is_erasure core.now (versions_in K.cmp chains.old key) }
    ensures others { (k : K) → k ≢ key → versions_in K.cmp chains.new k
        ≡ versions_in K.cmp chains.old k }
    ensures full { is_empty_at K.cmp chains.new key ≡ false }
    ensures full_others { (k : K) → k ≢ key →
        is_empty_at K.cmp chains.new k ≡ is_empty_at K.cmp chains.old k }
{
    let Some(entries) = chains.get_mut(&key) else {
        return;
    };
    reclaim(entries, core);
    if entries.is_empty() {
        chains.remove(&key);
    }
}

/// Takes the settled keys out of the list.
fn settle<K: Key, D>(keys: &mut BTreeSet<K>, chains: &BTreeMap<K, Vec<Entry<D>>>, core: &Xacts)
    ensures { keys.new.keys ≡ filter (is_unsettled K.cmp core.now chains.now) keys.old.keys }
{
    keys.retain(|key| !is_key_settled(chains, *key, core));
}

fn is_key_settled<K: Key, D>(chains: &BTreeMap<K, Vec<Entry<D>>>, key: K, core: &Xacts) -> bool
    ensures { result ≡ is_settled core.now (versions_in K.cmp chains.now key) }
{
    match chains.get(&key) {
        None => true,
        Some(entries) => is_settled(entries.as_slice(), core),
    }
}

#[cfg(test)]
mod tests;
