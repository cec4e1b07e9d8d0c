// Views, and the views that are held for readers.
use lo_base::Clock;
use lo_model::{Owner, Viewer};
use std::marker::Model;

/// A view: which edits whoever looks has. It is that of the edits below the clock that were committed below it, with the
/// open ones of the viewer's. (Manual, Transaction Isolation, Read Committed.)
#[derive(Clone, Copy, Debug, PartialEq, Eq)]
pub struct Snapshot {
    /// One above that of the last edits and commits that are in the view.
    pub clock: Clock,
    /// Whose open edits are in it.
    pub viewer: Viewer,
}

impl Snapshot {
    ghost use Rattle.std.specs.Prelude.{◌≡◌, ◌↔◌, IsTrue};
    ghost use Rattle.lo_model.specs.View.{sees};

    /// Whether the view has an edit that was made at a clock, of an owner as it now stands.
    pub(crate) fn has(&self, made: Clock, owner: &Owner) -> bool
        ensures { result ≡ sees self.now.clock self.now.viewer made owner.now }
    {
        made < self.clock
            && match owner {
                Owner::Committed(clock) => *clock < self.clock,
                Owner::Running(session, level) => match &self.viewer {
                    Viewer::Nobody => false,
                    Viewer::Whole(s) => session.number() == s.number(),
                    Viewer::Below(s, limit) => session.number() == s.number() && *level < *limit,
                },
            }
    }

    pub(crate) fn is_same(&self, other: &Snapshot) -> bool
        ensures { IsTrue result ↔ (self.now ≡ other.now) }
    {
        *self == *other
    }
}

/// A view that is kept for a reader, until it is given back by `Xacts::let_go`. There is no copy of it. It may be dropped
/// together with its `Xacts`.
#[derive(Debug, Drop)]
pub struct Hold {
    snapshot: Snapshot,
}

impl Model for Hold {
    ghost use Rattle.xact_core.specs.declared.snapshot.Snapshot.{Snapshot as View};

    ghost Value = { View };

    ghost view = { λ h. h.snapshot };
}

impl Hold {
    ghost use Rattle.std.specs.Prelude.{◌≡◌};

    pub(crate) fn new(snapshot: Snapshot) -> Hold
        ensures { result ≡ snapshot }
    {
        Hold { snapshot }
    }

    /// The view that is held.
    pub fn snapshot(&self) -> Snapshot
        ensures { result ≡ self.now }
    {
        self.snapshot
    }
}
