//! How many layers the edges span.

ghost use Rattle.std.specs.Prelude.{◌≡◌, ◌<◌, ◌+◌, ◌-◌, ℕ, None, Some, IfOk, MatchOption, length, slice_index, sum_by};
ghost use Rattle.graph_arena.specs.Graph.{Ends, ends_at};
ghost use Rattle.long_edges.specs.Layers.{IsLayered, AreHeights};

use graph_arena::{Arena, EdgeKey, NodeKey};
use std::alloc::{AllocError, Global};

pub(crate) fn layer_of(layer: &[u32], node: NodeKey) -> u32
    requires { node.at < length layer.now }
    ensures { result ≡ slice_index layer.now node.at }
{
    layer[node.at]
}

/// How many layers the edge spans; 0 where there is no such edge.
fn height_of(arena: &Arena, layer: &[u32], edge: EdgeKey) -> u32
    requires { IsLayered arena.now layer.now }
    ensures live { (x : Ends) → ends_at arena.now edge.at ≡ Some x → slice_index layer.now x.tail + result ≡ slice_index layer.now x.head }
    ensures dead { ends_at arena.now edge.at ≡ None → result ≡ 0 }
{
    if !arena.is_live_edge(edge) {
        return 0;
    }
    arena.incidence();
    let low = layer_of(layer, arena.tail(edge));
    let high = layer_of(layer, arena.head(edge));
    high - low
}

/// How many layers each edge spans, by key.
pub(crate) fn heights_of(
    alloc: Global,
    arena: &Arena,
    layer: &[u32],
) -> Result<Vec<u32>, AllocError>
    requires { IsLayered arena.now layer.now }
    ensures { IfOk result (λ r. AreHeights arena.now layer.now r.items) }
{
    let mut heights = Vec::new(alloc);
    for at in 0..arena.edge_bound() {
        heights.push(height_of(arena, layer, EdgeKey { at }))?;
    }
    Ok(heights)
}

/// The sum of the heights, each less by a number where it is greater. There is none where a machine can't count
/// so far.
pub(crate) fn total_of(heights: &[u32], less: u32) -> Option<usize>
    ensures { MatchOption result (Unit {0}) (λ n. n ≡ sum_by (λ h. h - less) heights.now) }
{
    let mut total: usize = 0;
    for height in heights {
        total = total.checked_add(height.saturating_sub(less) as usize)?;
    }
    Some(total)
}
