//! The tree as it hangs from node 0: each node's edge upwards, and the places of the nodes in a walk over the tree, in
//! which what hangs on a node has the places behind the node's own.

ghost use Rattle.std.specs.Prelude.{◌≡◌, ◌≢◌, ◌+◌, ◌<◌, ◌^◌, ℕ, length, set, slice_index};
ghost use Rattle.network_laws.specs.Network.{edge_at};
ghost use Rattle.net_simplex.specs.Rooted.{above, beyond};
ghost use Rattle.net_simplex.specs.Walks.{between};

use crate::tree::Tree;
use network_laws::NetEdge;

/// The end of the edge that is not `v`.
pub fn other_end(e: NetEdge, v: u32) -> u32
    ensures { result ≡ beyond e v }
{
    if e.tail == v {
        return e.head;
    }
    e.tail
}

/// The end of edge `k` that is not `v`.
pub fn far_end(edges: &[NetEdge], k: u32, v: u32) -> u32
    requires { k < length edges.now }
    ensures { result ≡ beyond (edge_at edges.now k) v }
{
    other_end(edges[k as usize], v)
}

/// The node on which `v` hangs.
pub fn upper(edges: &[NetEdge], tree: &Tree, v: u32) -> u32
    requires node { v < length tree.now.parent.items }
    requires there { slice_index tree.now.parent.items v < length edges.now }
    ensures { result ≡ above edges.now tree.now.parent.items v }
{
    far_end(edges, tree.parent_of(v), v)
}

/// Gives a node the next place.
pub fn plant(v: u32, at: u32, order: &mut [u32], place: &mut [u32])
    requires node { v < length place.old }
    requires free { at < length order.old }
    ensures order { order.new ≡ set order.old at v }
    ensures place { place.new ≡ set place.old v at }
{
    order[at as usize] = v;
    place[v as usize] = at;
}

/// The end of a tree edge that hangs by it.
pub fn child_of(tree: &Tree, e: NetEdge, k: u32) -> u32
    requires { e.tail < length tree.now.parent.items }
    ensures hangs { slice_index tree.now.parent.items e.tail ≡ k → result ≡ e.tail }
    ensures holds { slice_index tree.now.parent.items e.tail ≢ k → result ≡ e.head }
{
    if tree.parent_of(e.tail) == k {
        return e.tail;
    }
    e.head
}

/// Whether `q` is one of the `many` numbers from `p` on. There is no branch on `q`, which is as random as the edges are.
pub fn is_between(p: u32, many: u32, q: u32) -> bool
    requires { p + many < 2 ^ 32 }
    ensures { result ≡ between p many q }
{
    q.wrapping_sub(p) < many
}
