//! An edge enters, leaves or changes hands in one list. No list is copied.

ghost use Rattle.std.specs.Prelude.{◌≡◌, ◌≤◌, ◌^◌, None, Some, [], ◌∷◌, ◌++◌};
ghost use Rattle.slab.specs.Slab.{ContainsKey, slab_len, get};
ghost use Rattle.graph_arena.specs.Changes.{without};
ghost use Rattle.graph_arena.specs.Flanks.{owner, place_in, no_place, IsFlankOf, Moved, HandedOver};

use crate::slots::{
    EdgeList, EdgeSlot, Flank, NodeSlot, Place, place_at, push_row, replaced, row_at, set_next,
    set_place, set_prev, set_row,
};
use slab::Slab;

/// A loose edge becomes the last of a node's list.
pub(crate) fn attach(
    nodes: &mut Slab<NodeSlot>,
    edges: &mut Slab<EdgeSlot>,
    flank: Flank,
    node: usize,
    edge: usize,
)
    requires flank { IsFlankOf flank nodes.old edges.old }
    requires node { ContainsKey nodes.old node }
    requires edge { ContainsKey edges.old edge }
    requires loose { owner flank edges.old edge ≡ None }
    requires small { slab_len edges.old ≤ 2 ^ 62 }
    ensures { Moved flank node edge (λ l. l ++ edge ∷ []) (Some node) nodes.old edges.old nodes.new edges.new }
{
    let row = row_at(nodes, flank, node);
    set_next(edges, flank, row.last, Some(edge));
    let place = Place {
        node: Some(node),
        next: None,
        prev: row.last,
    };
    set_place(edges, flank, edge, place);
    set_row(nodes, flank, node, push_row(row, edge));
}

/// An edge leaves its node's list, and is loose.
pub(crate) fn detach(
    nodes: &mut Slab<NodeSlot>,
    edges: &mut Slab<EdgeSlot>,
    flank: Flank,
    node: usize,
    edge: usize,
)
    requires flank { IsFlankOf flank nodes.old edges.old }
    requires owned { owner flank edges.old edge ≡ Some node }
    ensures moved { Moved flank node edge (without edge) None nodes.old edges.old nodes.new edges.new }
    ensures loose { place_in flank (get edges.new edge) ≡ Some no_place }
{
    let place = place_at(edges, flank, edge);
    let row = row_at(nodes, flank, node);
    set_next(edges, flank, place.prev, place.next);
    set_prev(edges, flank, place.next, place.prev);
    let loose = Place {
        node: None,
        next: None,
        prev: None,
    };
    set_place(edges, flank, edge, loose);
    let shorter = EdgeList {
        first: replaced(row.first, edge, place.next),
        last: replaced(row.last, edge, place.prev),
        count: row.count - 1,
    };
    set_row(nodes, flank, node, shorter);
}

/// A loose edge takes the place of another one in a node's list; the other one is loose then.
pub(crate) fn hand_over(
    nodes: &mut Slab<NodeSlot>,
    edges: &mut Slab<EdgeSlot>,
    flank: Flank,
    node: usize,
    edge: usize,
    by: usize,
)
    requires flank { IsFlankOf flank nodes.old edges.old }
    requires owned { owner flank edges.old edge ≡ Some node }
    requires edge { ContainsKey edges.old by }
    requires loose { owner flank edges.old by ≡ None }
    ensures { HandedOver flank node edge by nodes.old edges.old nodes.new edges.new }
{
    let place = place_at(edges, flank, edge);
    let row = row_at(nodes, flank, node);
    set_next(edges, flank, place.prev, Some(by));
    set_prev(edges, flank, place.next, Some(by));
    set_place(edges, flank, by, place);
    let loose = Place {
        node: None,
        next: None,
        prev: None,
    };
    set_place(edges, flank, edge, loose);
    let handed = EdgeList {
        first: replaced(row.first, edge, Some(by)),
        last: replaced(row.last, edge, Some(by)),
        count: row.count,
    };
    set_row(nodes, flank, node, handed);
}
