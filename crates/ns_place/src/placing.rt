//! A placing of least height.

ghost use Rattle.std.specs.Prelude.{◌≡◌, ℕ, ◌<◌, ◌≤◌, ◌^◌, pos, ◌+ℤ◌, ◌≤ℤ◌, ◌<ℤ◌, length, replicate, IfOk};
ghost use Rattle.elk_layers.specs.Layered.{plain, rows_of, IsSound, AreRows, total_height};
ghost use Rattle.network_laws.specs.Layering.{layer_of};
ghost use Rattle.unit_blocks.specs.Constraints.{greatest_spacing, EndsWithinStack};
ghost use Rattle.ns_place.specs.Heights.{pins_together, IsLeastPlacing};
ghost use Rattle.ns_place.specs.Weighed.{greatest_weight, AreWeights, IsWeighedPlacing};
ghost use Rattle.ns_place.specs.Straight.{IsStraightPlacing};
ghost use Rattle.ns_place.specs.Start.{AreFirst};
ghost use Rattle.ns_place.specs.Tops.{AreClosedTops};

use crate::closing::{as_tops, close_up, standings};
use crate::flows::{link_flows, with_flows};
use crate::heights::weighed_height;
use crate::least::LeastPlacing;
use crate::network::network_of;
use crate::pairs::pairs_of;
use crate::start::{first_layers, layers_at};
use crate::straight::{even_weights, weigh_straight};
use bk_place::place;
use elk_layers::{Layered, Lines, Order};
use flow_dual::solve_from;
use std::alloc::{AllocError, Global};

/// The greatest of the three spacings.
fn spacing(layered: &Layered) -> i64
    ensures { result ≡ greatest_spacing (plain layered.now) }
{
    layered
        .node_node
        .max(layered.edge_node)
        .max(layered.edge_edge)
}

/// The tops of the units: their layers, with gaps closed that no unit reaches over.
fn tops_of(alloc: Global, layered: &Layered, layers: &[i64]) -> Result<Vec<i64>, AllocError>
    requires sound { IsSound (plain layered.now) }
    requires as_many { length (plain layered.now).units ≤ length layers.now }
    requires layers { (u : ℕ) → u < length (plain layered.now).units → pos 0 ≤ℤ layer_of layers.now u }
    ensures { IfOk result (λ v. AreClosedTops (plain layered.now) layers.now v.items) }
{
    let standing = standings(alloc, layered.units.as_slice(), layers, spacing(layered))?;
    let closed = close_up(alloc, standing)?;
    as_tops(alloc, closed.as_slice())
}

/// Tops of units that keep all distances of the order and make the links least high together, each times its
/// weight, with a flow that proves it. The search begins at these layers.
fn place_weighed(
    alloc: Global,
    layered: &Layered,
    order: &Order,
    weights: &[u32],
    first: Vec<i64>,
) -> Result<LeastPlacing, AllocError>
    requires sound { IsSound (plain layered.now) }
    requires rows { AreRows (plain layered.now) (rows_of order.now) }
    requires few_units { length (plain layered.now).units ≤ 2 ^ 21 }
    requires few_links { length (plain layered.now).links ≤ 2 ^ 21 }
    requires together { (total_height (plain layered.now).units +ℤ pins_together (plain layered.now).links) <ℤ pos (2 ^ 60) }
    requires weights { AreWeights (plain layered.now) weights.now }
    requires first { AreFirst (plain layered.now) (rows_of order.now) first.items }
    ensures least { IfOk result (λ p. IsWeighedPlacing (plain layered.now) (rows_of order.now) weights.now p.lines.top.items p.height p.link_flow.items p.pairs.items) }
    ensures within { IfOk result (λ p. EndsWithinStack (plain layered.now) p.lines.top.items) }
{
    let pairs = pairs_of(alloc, layered, order)?;
    let net = network_of(alloc, layered, weights, pairs.as_slice())?;
    let solution = solve_from(alloc, &net, first)?;
    let links = layered.links.as_slice();
    let flow = solution.flow.as_slice();
    let top = tops_of(alloc, layered, solution.layer.as_slice())?;
    let link_flow = link_flows(alloc, flow, weights)?;
    let pairs = with_flows(flow, 2 * links.len(), pairs);
    let height = weighed_height(top.as_slice(), links, weights);
    Ok(LeastPlacing {
        lines: Lines { top },
        height,
        link_flow,
        pairs,
    })
}

/// The same where each link weighs 1.
fn place_even(alloc: Global, layered: &Layered, order: &Order) -> Result<LeastPlacing, AllocError>
    requires sound { IsSound (plain layered.now) }
    requires rows { AreRows (plain layered.now) (rows_of order.now) }
    requires few_units { length (plain layered.now).units ≤ 2 ^ 21 }
    requires few_links { length (plain layered.now).links ≤ 2 ^ 21 }
    requires together { (total_height (plain layered.now).units +ℤ pins_together (plain layered.now).links) <ℤ pos (2 ^ 60) }
    ensures least { IfOk result (λ p. IsWeighedPlacing (plain layered.now) (rows_of order.now) (replicate (length (plain layered.now).links) 1) p.lines.top.items p.height p.link_flow.items p.pairs.items) }
    ensures within { IfOk result (λ p. EndsWithinStack (plain layered.now) p.lines.top.items) }
{
    let weights = even_weights(alloc, layered.links.as_slice().len())?;
    let first = first_layers(alloc, layered, order)?;
    place_weighed(alloc, layered, order, weights.as_slice(), first)
}

/// Tops of units that keep all distances of the order and make the links least high together, with a flow that
/// proves it and that can be added up by hand. No unit ends further down than all heights and spacings together.
///
/// Proved:
/// - Tops that keep all distances and minimize the total height of the links among all such tops, with that height.
/// - A number from -1 to 1 on each link, and a flow on each pair of units that a distance holds apart. They balance at each unit and
///   add up to the height.
/// - No unit ends further down than all heights and spacings together. (`place_straight`)
pub fn place_least(
    alloc: Global,
    layered: &Layered,
    order: &Order,
) -> Result<LeastPlacing, AllocError>
    requires sound { IsSound (plain layered.now) }
    requires rows { AreRows (plain layered.now) (rows_of order.now) }
    requires few_units { length (plain layered.now).units ≤ 2 ^ 21 }
    requires few_links { length (plain layered.now).links ≤ 2 ^ 21 }
    requires together { (total_height (plain layered.now).units +ℤ pins_together (plain layered.now).links) <ℤ pos (2 ^ 60) }
    ensures least { IfOk result (λ p. IsLeastPlacing (plain layered.now) (rows_of order.now) p.lines.top.items p.height p.link_flow.items p.pairs.items) }
    ensures within { IfOk result (λ p. EndsWithinStack (plain layered.now) p.lines.top.items) }
{
    place_even(alloc, layered, order)
}

/// Tops of units that keep all distances of the order and make the links least high together, with a flow that
/// proves it. A link that alignment keeps horizontal counts `straightness` times: it stays straight unless bending it
/// saves more than that elsewhere. (Alignment is the sweep of least height.) With a straightness of 1 this is
/// `place_least`; with 0 such links may be as high as they like.
///
/// Proved:
/// - Tops that keep all distances and minimize the total weighted height of the links among all such tops, with that height. A link
///   that the lowest alignment keeps horizontal weighs `straightness`, any other link 1.
/// - A number on each link, from minus its weight to its weight, and a flow on each such pair. They balance at each unit and add up to
///   the weighted height.
pub fn place_straight(
    alloc: Global,
    layered: &Layered,
    order: &Order,
    straightness: u32,
) -> Result<LeastPlacing, AllocError>
    requires sound { IsSound (plain layered.now) }
    requires rows { AreRows (plain layered.now) (rows_of order.now) }
    requires few_units { length (plain layered.now).units ≤ 2 ^ 21 }
    requires few_links { length (plain layered.now).links ≤ 2 ^ 21 }
    requires together { (total_height (plain layered.now).units +ℤ pins_together (plain layered.now).links) <ℤ pos (2 ^ 60) }
    requires straightness { straightness ≤ greatest_weight }
    ensures straight { IfOk result (λ p. IsStraightPlacing (plain layered.now) (rows_of order.now) straightness p.lines.top.items p.height p.link_flow.items p.pairs.items) }
    ensures within { IfOk result (λ p. EndsWithinStack (plain layered.now) p.lines.top.items) }
{
    if straightness == 1 {
        return place_even(alloc, layered, order);
    }
    let lines = place(alloc, layered, order, None)?;
    let top = lines.top.as_slice();
    let weights = weigh_straight(alloc, straightness, top, layered.links.as_slice())?;
    let first = layers_at(alloc, layered, top)?;
    place_weighed(alloc, layered, order, weights.as_slice(), first)
}
