//! The nodes of the tree of lists of copies.

ghost use Rattle.std.specs.Prelude.{◌≡◌, ◌<◌, IfSome};

use crate::item_sets::ItemSet;

/// A set of copies that can be carried: its total profit, the weight that may still be added, the place in the searched
/// order after the copy that was added last, and the first place from there on whose copy does not fit where the copies
/// are taken in order.
#[derive(Clone, Copy, Debug, PartialEq, Eq)]
pub struct KnapNode {
    pub(crate) profit: u64,
    pub(crate) room: u64,
    pub(crate) next: usize,
    pub(crate) breaking: usize,
    /// All copies but the one added last.
    pub(crate) earlier: ItemSet,
    /// The copy added last. It is written to the others only where the node is opened: most children are cut off.
    pub(crate) last: Option<u32>,
}

impl KnapNode {
    ghost use Rattle.yew_knap.specs.Nodes.{items_of};

    /// All copies of the set.
    #[inline(always)]
    pub(crate) fn items(&self) -> ItemSet
        requires { IfSome self.now.last (λ k. k < 256) }
        ensures { result ≡ items_of self.now }
    {
        match self.last {
            Some(item) => self.earlier.with(item),
            None => self.earlier,
        }
    }
}

/// The sets with one more copy that are still to come: the set without it, with its total profit and the weight that
/// may still be added, and the place of the next copy to try. Behind the place of the first one to try, only the first
/// copy of an item is tried.
///
/// The breaking place of each child is no earlier than that of its parent and of the child before it. So it is looked
/// for from the one that was found last.
#[derive(Clone, Copy, Debug, PartialEq, Eq)]
pub struct KnapKids {
    pub(crate) profit: u64,
    pub(crate) room: u64,
    pub(crate) next: usize,
    pub(crate) breaking: usize,
    pub(crate) chosen: ItemSet,
}
