ghost use Rattle.std.specs.Prelude.{◌≡◌, ◌-◌, ◌≤◌, ◌++◌, ℕ, Bool, List, [], Option, Some, length, take, drop, min, IsTrue, IsSome, IfOk, OnOk, OnErr};
ghost use Rattle.lo_outside.specs.Files.{File, size_of, bytes_of, unsynced, with_more, with_mark};
ghost use Rattle.lo_outside.specs.Files.{SetsFile, CreatesOrKeeps, AppendsFront, Renames};
ghost use Rattle.lo_outside.specs.Faults.{HasCause};

/// An input or an output failed. No reason is told.
#[derive(Clone, Copy, Debug, PartialEq, Eq)]
pub struct Failed;

/// A folder of files, by name. A folder in memory tells what it holds; the system's does not, since no proof can say
/// what a disk gives back.
pub trait Files {
    /// Whether the contents are told.
    ghost tells: { Self → Bool };

    /// The file of each name, where the contents are told.
    ghost folder: { Self → List ℕ → Option File };

    /// How often a call has failed: 64 bits, and at the last value it stands still.
    ghost faults: { Self → ℕ };

    /// The number of the file's bytes, or `None` where there is no file of that name.
    fn size(&mut self, name: &str) -> Result<Option<u64>, Failed>
        ensures size { IsTrue (tells self.old) →
            IfOk result (λ size. size ≡ size_of (folder self.old name.now)) }
        ensures tells { tells self.new ≡ tells self.old }
        ensures folder { folder self.new ≡ folder self.old }
        ensures cause { HasCause (faults self.old) (faults self.new) result };

    /// Fills the front of `out` with the file's bytes from the offset `at` on, and answers how many they are. Where the
    /// contents are told that is as many as there are and as fit: none at the end or past it, and none where there is
    /// no file of that name. Else it may be fewer. After a failure the bytes of `out` may be any.
    fn read(&mut self, name: &str, at: u64, out: &mut [u8]) -> Result<usize, Failed>
        ensures within { IfOk result (λ n. n ≤ length out.old) }
        ensures count { IsTrue (tells self.old) →
            IfOk result (λ n.
            n ≡ min (length out.old) (length (bytes_of (folder self.old name.now)) - at)) }
        ensures filled { IsTrue (tells self.old) →
            IfOk result (λ n. out.new
            ≡ take n (drop at (bytes_of (folder self.old name.now))) ++ drop n out.old) }
        ensures tells { tells self.new ≡ tells self.old }
        ensures folder { folder self.new ≡ folder self.old }
        ensures cause { HasCause (faults self.old) (faults self.new) result };

    /// Makes an empty file of that name, in place of one that is there. It is not synced. A failed call leaves the file
    /// as it was, or an empty one.
    fn create(&mut self, name: &str) -> Result<(), Failed>
        ensures created { IsTrue (tells self.old) → OnOk result
            (SetsFile (folder self.old) (folder self.new) name.now (Some (unsynced []))) }
        ensures failed { IsTrue (tells self.old) → OnErr result
            (CreatesOrKeeps (folder self.old) (folder self.new) name.now) }
        ensures tells { tells self.new ≡ tells self.old }
        ensures cause { HasCause (faults self.old) (faults self.new) result };

    /// Adds the piece at the end of the file of that name, which is not synced then. It fails where there is none. A
    /// failed call adds a front of the piece, which may be nothing.
    fn append(&mut self, name: &str, piece: &[u8]) -> Result<(), Failed>
        ensures found { IsTrue (tells self.old) → OnOk result (IsSome (folder self.old name.now)) }
        ensures appended { IsTrue (tells self.old) → OnOk result (SetsFile (folder self.old)
            (folder self.new) name.now (with_more piece.now (folder self.old name.now))) }
        ensures failed { IsTrue (tells self.old) → OnErr result
            (AppendsFront (folder self.old) (folder self.new) name.now piece.now) }
        ensures tells { tells self.new ≡ tells self.old }
        ensures cause { HasCause (faults self.old) (faults self.new) result };

    /// Brings the file of that name to the disk. It fails where there is none. A failed call changes nothing.
    fn sync(&mut self, name: &str) -> Result<(), Failed>
        ensures found { IsTrue (tells self.old) → OnOk result (IsSome (folder self.old name.now)) }
        ensures synced { IsTrue (tells self.old) → OnOk result (SetsFile (folder self.old)
            (folder self.new) name.now (with_mark (folder self.old name.now))) }
        ensures failed { IsTrue (tells self.old) → OnErr result (folder self.new ≡ folder self.old) }
        ensures tells { tells self.new ≡ tells self.old }
        ensures cause { HasCause (faults self.old) (faults self.new) result };

    /// Puts the file under another name, with its mark and in place of any other file. It fails where there is no file
    /// of the name `from`. A failed call changes nothing.
    fn rename(&mut self, from: &str, to: &str) -> Result<(), Failed>
        ensures renamed { IsTrue (tells self.old) → OnOk result
            (Renames (folder self.old) (folder self.new) from.now to.now) }
        ensures failed { IsTrue (tells self.old) → OnErr result (folder self.new ≡ folder self.old) }
        ensures tells { tells self.new ≡ tells self.old }
        ensures cause { HasCause (faults self.old) (faults self.new) result };
}
