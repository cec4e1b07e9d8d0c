use lo_base::Clock;

/// The mark of an edit: the clock at which it was made, and whose it was. It never changes, and any number of copies may be
/// kept as long as the `Xacts` that gave it. Whose the edit is now is read through that `Xacts`.
#[derive(Clone, Copy, Debug, PartialEq, Eq)]
pub struct Stamp {
    clock: Clock,
    place: usize,
    undos: u64,
}

impl Stamp {
    ghost use Rattle.std.specs.Prelude.{◌≡◌};
    ghost use Rattle.xact_core.specs.Stamp.{made_at};

    /// The stamp of an edit made now. `place` is that of the level's fate, and `undos` counts the undoings so far.
    pub(crate) fn new(clock: Clock, place: usize, undos: u64) -> Stamp
        ensures { result ≡ record { clock = clock; place = place; undos = undos } }
    {
        Stamp {
            clock,
            place,
            undos,
        }
    }

    /// The clock at which the edit was made.
    pub fn clock(self) -> Clock
        ensures { result ≡ made_at self }
    {
        self.clock
    }

    pub(crate) fn place(self) -> usize
        ensures { result ≡ self.place }
    {
        self.place
    }

    pub(crate) fn undos(self) -> u64
        ensures { result ≡ self.undos }
    {
        self.undos
    }
}
