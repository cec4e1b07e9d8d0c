// The key by which the store of rows is ordered.
ghost use Rattle.row_tables.specs.Keys.{exact_keys};

use row_versions::Key;

/// The key of a row: by its table's number, and then by its id.
#[derive(Clone, Copy, Debug, PartialEq, Eq, PartialOrd, Ord)]
pub struct RowKey {
    pub table: u32,
    pub id: i64,
}

impl Key for RowKey {
    ghost exact = { exact_keys };
}
