// The key by which the stores of pages and of cuts are ordered.
ghost use Rattle.lo_pages.specs.Keys.{exact_keys};

use lo_base::Oid;
use row_versions::Key;

/// The key of a page: by object, and then by the page's number in it.
#[derive(Clone, Copy, Debug, PartialEq, Eq, PartialOrd, Ord)]
pub struct PageKey {
    pub oid: Oid,
    pub number: u32,
}

impl Key for PageKey {
    ghost exact = { exact_keys };
}
