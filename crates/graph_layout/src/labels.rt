//! The stages that give labels and nodes their room.

use edge_labels::{EdgeLabels, Known, place_edge_labels, raise_edge_labels};
use edge_stages::Insets;
use graph_draft::{Draft, Element, Size};
use label_room::{GrownPorts, Strips, grow_ports, raise_ports, sides_of};
use loop_labels::{LoopLabels, place_loop_labels, raise_loop_labels};
use node_labels::{
    InnerLabels, Lacks, PlacedLabels, node_labels_of, place_node_labels, place_port_labels,
    port_labels_of, raise_node_labels, raise_port_labels, size_nodes,
};
use std::alloc::{AllocError, Global};
use std::collections::{BTreeMap, BTreeSet};

// What the stages did, in their order.
#[derive(Drop)]
pub(crate) struct Labels {
    inner: InnerLabels,
    of_edges: EdgeLabels,
    of_loops: LoopLabels,
    of_nodes: PlacedLabels,
    grown: GrownPorts,
}

fn has_labels(draft: &Draft, element: Element) -> bool {
    !draft.labels_of(element).is_empty()
}

// Whether a node, its ports or its edges have labels, or it asks for a size.
fn is_labelled(draft: &Draft, node: usize) -> bool {
    let element = Element::Node(node);
    let ports = draft.ports_of(node);
    let edges = draft.edges_of(node);
    has_labels(draft, element)
        || ports
            .iter()
            .any(|port| has_labels(draft, Element::Port(*port)))
        || edges
            .iter()
            .any(|edge| has_labels(draft, Element::Edge(*edge)))
        || draft.option(element, "nodeSize.constraints").is_some()
}

/// Whether a draft needs these stages.
pub(crate) fn needs_room(draft: &Draft) -> bool {
    (0..draft.given_nodes).any(|node| is_labelled(draft, node))
}

// Edges, levels and ports whose labels are treated by themselves.
#[derive(Clone, Copy, Drop)]
pub(crate) struct Kinds<'a> {
    // The edges that were turned round.
    pub(crate) turned: &'a BTreeSet<usize>,
    // The levels whose routes are slanted or curved.
    pub(crate) curved: &'a BTreeSet<usize>,
    // The edges whose labels stay in their layers.
    pub(crate) still: &'a BTreeSet<usize>,
    // The ports that were moved to the borders of their nodes.
    pub(crate) insets: &'a Insets,
}

/// Gives labels and nodes their room. It answers the least sizes that levels ask for too, by their nodes' numbers.
pub(crate) fn make_room(
    alloc: Global,
    draft: &mut Draft,
    lacks: &Lacks,
    kinds: Kinds,
) -> Result<(Labels, BTreeMap<usize, Size>), AllocError> {
    let mut strips = Strips::none(alloc);
    let of_ports = port_labels_of(alloc, draft)?.with_depths(kinds.insets.depths(alloc)?);
    let of_nodes = node_labels_of(alloc, draft)?;
    let given = sides_of(alloc, draft)?;
    let inner = place_port_labels(alloc, draft, &mut strips, &given, &of_ports)?;
    let known = Known {
        sides: &given,
        turned: kinds.turned,
        curved: kinds.curved,
        still: kinds.still,
    };
    let of_edges = place_edge_labels(alloc, draft, &mut strips, known)?;
    let of_loops = place_loop_labels(alloc, draft, &mut strips)?;
    // Some ends of edges are at ports that were made for them.
    let sides = sides_of(alloc, draft)?;
    let sized = size_nodes(alloc, draft, &strips, &sides, (&of_ports, &of_nodes), lacks)?;
    let of_nodes = place_node_labels(alloc, draft, &mut strips, &sides, of_nodes, &sized)?;
    let grown = grow_ports(alloc, draft, strips, &sides)?;
    let labels = Labels {
        inner,
        of_edges,
        of_loops,
        of_nodes,
        grown,
    };
    Ok((labels, sized.leasts))
}

/// Places labels in a placed draft, and gives ports their own sizes.
pub(crate) fn place_labels(
    alloc: Global,
    draft: &mut Draft,
    labels: Labels,
) -> Result<(), AllocError> {
    let Labels {
        inner,
        of_edges,
        of_loops,
        of_nodes,
        grown,
    } = labels;
    raise_ports(alloc, draft, grown)?;
    raise_node_labels(alloc, draft, of_nodes)?;
    raise_loop_labels(alloc, draft, of_loops)?;
    raise_edge_labels(alloc, draft, of_edges)?;
    raise_port_labels(draft, inner)
}
