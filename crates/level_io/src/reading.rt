//! A level by the sizes of its children's boxes.
ghost use Rattle.std.specs.Prelude.{◌≡◌, ℕ, ◌<◌, map, length, slice_index, IfOk};
ghost use Rattle.elk_doc.specs.declared.drawing.Placed.{Placed as PlacedOf};
ghost use Rattle.elk_doc.specs.Level.{IsChild, IsEdge, node_of_end};
ghost use Rattle.elk_doc.specs.Sound.{IsEndIn};
ghost use Rattle.port_order.specs.Conditions.{IsSmall};
ghost use Rattle.level_model.specs.Conditions.{plain_level};
ghost use Rattle.working_frame.specs.Rotated.{level_edge, level_of, level_port, spoke_of};
ghost use Rattle.level_io.specs.Indexed.{IsIndex};
ghost use Rattle.level_io.specs.Read.{AreSizes, HasSizes, child_with, size_at, sized_child};

use crate::index::Index;
use crate::rotating::{half_along, rotated_given, rotated_place};
use drawing_types::list::Items;
use drawing_types::shape::Size;
use elk_doc::document::{Direction, Doc, End, LevelOptions};
use elk_doc::sides::given_side;
use level_model::{EdgeEnd, LevelEdge, LevelIn};
use port_order::{Child, ChildPort};
use std::alloc::{AllocError, Global};
use working_frame::rotated_size;

// A document with its index.
#[derive(Clone, Copy)]
struct Source<'a> {
    doc: &'a Doc,
    index: &'a Index,
}

// A port of a child whose box has this size.
fn read_port(doc: &Doc, way: Direction, outer: Size, port: u32) -> ChildPort
    requires port { port < length doc.now.ports }
    requires outer { IsSmall outer }
    ensures { result ≡ level_port doc.now way outer port }
{
    let found = doc.port(port);
    let size = rotated_size(way, found.size);
    let given = rotated_given(way, given_side(doc, port));
    ChildPort {
        size,
        place: rotated_place(way, outer, found.size, found.place),
        half: half_along(way, given, size),
        side: rotated_given(way, found.side),
        index: found.index,
    }
}

// The ports of these numbers.
fn read_ports(
    alloc: Global,
    doc: &Doc,
    way: Direction,
    outer: Size,
    numbers: &[u32],
) -> Result<Vec<ChildPort>, AllocError>
    requires ports { (i : ℕ) → i < length numbers.now → slice_index numbers.now i < length doc.now.ports }
    requires outer { IsSmall outer }
    ensures { IfOk result (λ ports. ports.items ≡ map (level_port doc.now way outer) numbers.now) }
{
    let mut ports = Vec::with_capacity(alloc, numbers.len())?;
    for port in numbers {
        ports.push(read_port(doc, way, outer, *port))?;
    }
    Ok(ports)
}

/// A node as a child of a level, in the frame in which this direction runs to the right: its size, its rule and its ports in
/// document order, all lengths in whole document units.
///
/// `outer` is the size of the node's box in the document's frame. The only error is out of memory.
///
/// Proved:
/// - Any node as a child of a level, by the size of its box.
pub fn read_child(
    alloc: Global,
    doc: &Doc,
    index: &Index,
    outer: Size,
    way: Direction,
    child: u32,
) -> Result<Child, AllocError>
    requires child { child < length doc.now.nodes }
    requires index { IsIndex doc.now index.now }
    requires outer { IsSmall outer }
    ensures { IfOk result (λ c. c ≡ child_with doc.now way outer child) }
{
    let numbers = index.ports.row(child);
    let ports = read_ports(alloc, doc, way, outer, numbers)?;
    let node = doc.node(child);
    Ok(Child {
        size: rotated_size(way, outer),
        compound: node.level.is_some(),
        rule: node.rule,
        direction: way,
        position: node.position,
        ports: Items::from_vec(ports),
    })
}

// The children of these numbers.
fn read_children(
    alloc: Global,
    source: &Source<'_>,
    sizes: &[Size],
    way: Direction,
    numbers: &[u32],
) -> Result<Vec<Child>, AllocError>
    requires index { IsIndex source.now.doc.now source.now.index.now }
    requires sizes { length sizes.now ≡ length source.now.doc.now.nodes }
    requires children { (i : ℕ) → i < length numbers.now → slice_index numbers.now i < length source.now.doc.now.nodes }
    requires small { (i : ℕ) → i < length numbers.now → IsSmall (size_at sizes.now (slice_index numbers.now i)) }
    ensures { IfOk result (λ found. found.items ≡ map (sized_child source.now.doc.now way sizes.now) numbers.now) }
{
    let mut found = Vec::with_capacity(alloc, numbers.len())?;
    for child in numbers {
        let outer = sizes[*child as usize];
        let read = read_child(alloc, source.doc, source.index, outer, way, *child)?;
        found.push(read)?;
    }
    Ok(found)
}

// An end of an edge of the level of a node: the place of its child, and that of its port.
fn read_spoke(source: &Source<'_>, end: End) -> EdgeEnd
    requires inside { IsEndIn source.now.doc.now end }
    requires index { IsIndex source.now.doc.now source.now.index.now }
    ensures { (n : ℕ) → IsChild source.now.doc.now n (node_of_end source.now.doc.now end) → result ≡ spoke_of source.now.doc.now n end }
{
    match end {
        End::Node(node) => EdgeEnd {
            child: source.index.children.place(node),
            port: None,
        },
        End::Port(port) => EdgeEnd {
            child: source.index.children.place(source.doc.port(port).node),
            port: Some(source.index.ports.place(port)),
        },
    }
}

// An edge of the level of a node.
fn read_edge(source: &Source<'_>, edge: u32) -> LevelEdge
    requires edge { edge < length source.now.doc.now.edges }
    requires index { IsIndex source.now.doc.now source.now.index.now }
    ensures { (n : ℕ) → IsEdge source.now.doc.now n edge → result ≡ level_edge source.now.doc.now n edge }
{
    let found = source.doc.edge(edge);
    LevelEdge {
        source: read_spoke(source, found.source),
        target: read_spoke(source, found.target),
        weight: found.weight,
    }
}

// The edges of these numbers, which are those of one level.
fn read_edges(
    alloc: Global,
    source: &Source<'_>,
    numbers: &[u32],
) -> Result<Vec<LevelEdge>, AllocError>
    requires index { IsIndex source.now.doc.now source.now.index.now }
    requires edges { (i : ℕ) → i < length numbers.now → slice_index numbers.now i < length source.now.doc.now.edges }
    ensures { IfOk result
        (λ found. (n : ℕ) → ((i : ℕ) → i < length numbers.now → IsEdge source.now.doc.now n (slice_index numbers.now i))
        → found.items ≡ map (level_edge source.now.doc.now n) numbers.now) }
{
    let mut found = Vec::with_capacity(alloc, numbers.len())?;
    for edge in numbers {
        found.push(read_edge(source, *edge))?;
    }
    Ok(found)
}

/// The level of a node with these options, in the frame in which its direction runs to the right: its children, ports and
/// edges in document order, all lengths in whole document units.
///
/// `sizes` has by node the size of its box in the document's frame; those of the node's children are read. A leaf's is its own,
/// a compound node's that of its own level with the padding. The only error is out of memory.
///
/// Proved:
/// - By this index, the level of any node in the frame in which its direction runs to the right.
/// - It is the level of every drawing whose boxes have the given sizes at the node's children.
pub fn level_in(
    alloc: Global,
    doc: &Doc,
    index: &Index,
    sizes: &[Size],
    node: u32,
    options: &LevelOptions,
) -> Result<LevelIn, AllocError>
    requires node { node < length doc.now.nodes }
    requires index { IsIndex doc.now index.now }
    requires sizes { AreSizes doc.now node sizes.now }
    ensures level { IfOk result (λ l. (p : PlacedOf) → HasSizes doc.now p node sizes.now → plain_level l ≡ level_of doc.now p node options.now) }
    ensures fixed { IfOk result (λ l. l.fixed ≡ options.now.fixed) }
    ensures placing { IfOk result (λ l. l.placing ≡ options.now.placing) }
{
    let source = Source { doc, index };
    let numbers = index.children.row(node);
    let children = read_children(alloc, &source, sizes, options.direction, numbers)?;
    let edges = read_edges(alloc, &source, index.edges.row(node))?;
    Ok(LevelIn {
        children: Items::from_vec(children),
        edges: Items::from_vec(edges),
        spacing: options.spacing,
        fixed: options.fixed,
        placing: options.placing,
        choices: options.choices,
    })
}
