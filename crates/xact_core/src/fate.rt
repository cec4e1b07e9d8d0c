// Whose the edits of a level are, and how the end of levels changes it. Only `Xacts` uses it.
ghost use Rattle.std.specs.Prelude.{◌≡◌, ◌<◌, All, length};
ghost use Rattle.xact_core.specs.Fate.{owner_after, fate_after, turned_by};

use lo_base::{Clock, SessionNo};
use lo_model::Owner;

/// What became of the edits that were made in one level: whose they are now, or nobody's where they were rolled back.
/// Those that were made before the undoing with the number `since` are undone.
#[derive(Clone, Copy, Debug)]
pub struct Fate {
    pub owner: Option<Owner>,
    pub since: u64,
}

/// The end of some of a session's levels, or of its transaction.
#[derive(Clone, Copy, Debug)]
pub enum End {
    /// The level from which levels are merged into the one below.
    Released(SessionNo, u64),
    /// The level from which edits are undone.
    Undone(SessionNo, u64),
    Committed(SessionNo, Clock),
}

impl End {
    /// Whose the edits of an owner are after the end.
    fn owner_after(&self, owner: &Owner) -> Option<Owner>
        ensures { result ≡ owner_after self.now owner.now }
    {
        match owner {
            Owner::Running(session, level) => match self {
                End::Released(s, from) if session.number() == s.number() && *from <= *level => {
                    Some(Owner::Running(*s, from.saturating_sub(1)))
                }
                End::Undone(s, from) if session.number() == s.number() && *from <= *level => None,
                End::Committed(s, clock) if session.number() == s.number() => {
                    Some(Owner::Committed(*clock))
                }
                _ => Some(*owner),
            },
            Owner::Committed(_) => Some(*owner),
        }
    }
}

impl Fate {
    /// The fate after an end.
    fn after(&self, end: &End) -> Fate
        ensures { result ≡ fate_after (owner_after end.now) self.now }
    {
        let owner = match &self.owner {
            Some(owner) => end.owner_after(owner),
            None => None,
        };
        Fate {
            owner,
            since: self.since,
        }
    }
}

/// Turns the fates at these places, one after the other.
pub fn turn(fates: &mut Vec<Fate>, places: &[usize], end: &End)
    requires { All (λ i. i < length fates.old.items) places.now }
    ensures { fates.new.items ≡ turned_by (owner_after end.now) places.now fates.old.items }
{
    for place in places {
        let turned = fates[*place].after(end);
        fates[*place] = turned;
    }
}
