//! The tasks of an ordered search.
use yew_laws::Path;

/// A task at the depth of an ordered search: the path of its node, and its number among the items.
#[derive(Drop)]
pub(crate) struct RankedTask {
    pub path: Path,
    pub rank: u32,
}
