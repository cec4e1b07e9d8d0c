use lo_base::SessionNo;

/// Whose open edits a view has beside the committed ones.
#[derive(Clone, Copy, Debug, PartialEq, Eq)]
pub enum Viewer {
    Nobody,
    /// A session, with all its levels.
    Whole(SessionNo),
    /// A session, with its levels below one.
    Below(SessionNo, u64),
}
