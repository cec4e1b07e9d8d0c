// The key by which the store of chunks is ordered.
ghost use Rattle.toast_chunks.specs.Keys.{exact_keys};

use row_versions::Key;

/// The key of a chunk: by value, and then by the chunk's number in it.
#[derive(Clone, Copy, Debug, PartialEq, Eq, PartialOrd, Ord)]
pub struct ChunkKey {
    pub value: u64,
    pub number: u64,
}

impl Key for ChunkKey {
    ghost exact = { exact_keys };
}
