//! Nodes with their keys.

ghost use Rattle.std.specs.Prelude.{ℕ, ◌≡◌, IfOk};
ghost use Rattle.yew_calls.specs.KeyOrder.{by_key};
ghost use Rattle.yew_calls.specs.Keyed.{HasKeys, nodes_of};

use yew_laws::Memory;

/// A child of a node, with the key by which it is put in order.
#[derive(Drop)]
pub struct Keyed<N> {
    pub(crate) key: u64,
    pub(crate) node: N,
}

/// The nodes by rising key; those of one key stay in their order.
pub(crate) fn in_order<N: Drop>(mut keyed: Vec<Keyed<N>>) -> Result<Vec<Keyed<N>>, Memory>
    ensures { IfOk result (λ sorted. (key : N → ℕ) → HasKeys key keyed.items → nodes_of sorted.items ≡ by_key key (nodes_of keyed.items)) }
{
    keyed.sort_by_key(|child| child.key)?;
    Ok(keyed)
}
