//! What a command makes before a file changes.
use lo_base::Bytes;
use lo_opening::Opening;

/// The text that a command prints, and what it saves, if it saves.
#[derive(Drop)]
pub struct Made<'a> {
    pub text: Bytes,
    pub saved: Option<Saving<'a>>,
}

/// A database, and the name of the image that it is saved under.
#[derive(Drop)]
pub struct Saving<'a> {
    pub image: &'a str,
    pub opening: Opening,
}
