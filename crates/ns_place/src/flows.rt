//! The flow of the network, as numbers on links and pairs.

ghost use Rattle.std.specs.Prelude.{◌≡◌, ℕ, ◌+◌, ◌*◌, ◌<◌, ◌≤◌, ◌^◌, pos, ◌+ℤ◌, length, slice_index, slice_index_or, IfOk};
ghost use Rattle.ns_place.specs.Flows.{TellFlows, WritesFlows};

use crate::least::PairFlow;
use std::alloc::{AllocError, Global};

/// The flow to a link's tail, less the link's weight.
fn flow_less(flow: u64, weight: u32) -> i64
    requires { flow ≤ 2 * weight }
    ensures { result +ℤ pos weight ≡ pos flow }
{
    flow as i64 - i64::from(weight)
}

/// By link, the flow to its tail, less the link's weight.
pub(crate) fn link_flows(
    alloc: Global,
    flow: &[u64],
    weights: &[u32],
) -> Result<Vec<i64>, AllocError>
    requires there { 2 * length weights.now ≤ length flow.now }
    requires few { length weights.now ≤ 2 ^ 24 }
    requires small { (k : ℕ) → k < length weights.now → slice_index flow.now (2 * k) ≤ 2 * slice_index weights.now k }
    ensures { IfOk result (λ v. TellFlows flow.now weights.now v.items) }
{
    let mut flows = Vec::with_capacity(alloc, weights.len())?;
    for k in 0..weights.len() {
        flows.push(flow_less(flow[2 * k], weights[k]))?;
    }
    Ok(flows)
}

/// Gives each pair the flow of its edge, of which the first has the number `first`.
fn write_flows(flow: &[u64], first: usize, pairs: &mut [PairFlow])
    requires there { first + length pairs.old ≤ length flow.now }
    requires few { first + length pairs.old < 2 ^ 32 }
    ensures { WritesFlows flow.now first pairs.old (length pairs.old) pairs.new }
{
    for i in 0..pairs.len() {
        pairs[i].flow = flow[first + i];
    }
}

/// The pairs with the flows of their edges, of which the first has the number `first`.
pub(crate) fn with_flows(flow: &[u64], first: usize, mut pairs: Vec<PairFlow>) -> Vec<PairFlow>
    requires there { first + length pairs.items ≤ length flow.now }
    requires few { first + length pairs.items < 2 ^ 32 }
    ensures { WritesFlows flow.now first pairs.items (length pairs.items) result.items }
{
    write_flows(flow, first, pairs.as_mut_slice());
    pairs
}
