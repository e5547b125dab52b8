//! Children, distances and small levels that several tests draw.
ghost use Rattle.std.specs.Prelude.{◌≡◌, [], None, IfOk};
ghost use Rattle.elk_doc.specs.Defaults.{default_choices};
ghost use Rattle.elk_layers.specs.Layered.{plain};
ghost use Rattle.level_nets.specs.Worked as worked;
ghost use Rattle.level_model.specs.Conditions.{plain_level};
ghost use Rattle.level_model.specs.Examples as examples;
ghost use Rattle.level_parts.specs.Examples as parted;

use drawing_types::list::Items;
use drawing_types::shape::{Dock, Point, Rect, Side, Size};
use elk_doc::document::{Direction, Placing, PortRule, Spacing, default_choices, default_options};
use elk_layers::{Layered, Link, Unit};
use level_model::{ChildAt, EdgeEnd, EndAt, LevelEdge, LevelIn, LoopAt, Table};
use port_order::Child;
use std::alloc::{AllocError, Global};

/// The default distances.
pub(crate) fn distances() -> Spacing
    ensures { result ≡ examples.spacing }
{
    default_options(Direction::Right).spacing
}

/// A child of 30 by 30 without ports.
pub(crate) fn square(alloc: Global) -> Child
    ensures { result ≡ examples.square [] PortRule.Free }
{
    Child {
        size: Size {
            width: 30,
            height: 30,
        },
        compound: false,
        rule: PortRule::Free,
        direction: Direction::Right,
        position: None,
        ports: Items::from_vec(Vec::new(alloc)),
    }
}

/// An edge of this weight between two children.
pub(crate) fn weighted(source: u32, target: u32, weight: u32) -> LevelEdge
    ensures { result ≡ parted.edge source target weight }
{
    LevelEdge {
        source: EdgeEnd {
            child: source,
            port: None,
        },
        target: EdgeEnd {
            child: target,
            port: None,
        },
        weight,
    }
}

/// An edge of weight 1 between two children.
pub(crate) fn edge(source: u32, target: u32) -> LevelEdge
    ensures { result ≡ examples.edge source None target }
{
    weighted(source, target, 1)
}

/// A level of these children and edges with the default distances.
pub(crate) fn level_of(children: Vec<Child>, edges: Vec<LevelEdge>, placing: Placing) -> LevelIn
    ensures { plain_level result ≡ record { children = children.items; edges = edges.items; spacing = examples.spacing; choices = default_choices } }
{
    LevelIn {
        children: Items::from_vec(children),
        edges: Items::from_vec(edges),
        spacing: distances(),
        fixed: None,
        placing,
        choices: default_choices(),
    }
}

/// Two children that two parallel edges join.
pub(crate) fn parallel(alloc: Global) -> Result<LevelIn, AllocError>
    ensures { IfOk result (λ l. plain_level l ≡ examples.parallel) }
{
    let children = vec![in alloc; square(alloc), square(alloc)]?;
    let edges = vec![in alloc; edge(0, 1), edge(0, 1)]?;
    Ok(level_of(children, edges, Placing::BrandesKoepf))
}

/// Three parts, whose children and edges are mixed.
pub(crate) fn mixed(alloc: Global) -> Result<LevelIn, AllocError>
    ensures { IfOk result (λ l. plain_level l ≡ parted.mixed) }
{
    let children = vec![in alloc;
        square(alloc),
        square(alloc),
        square(alloc),
        square(alloc),
        square(alloc),
    ]?;
    let edges = vec![in alloc;
        weighted(3, 1, 3),
        weighted(4, 0, 1),
        weighted(2, 2, 1),
        weighted(1, 3, 1),
    ]?;
    Ok(level_of(children, edges, Placing::BrandesKoepf))
}

/// The unit of the child of this number, alone in the layer of this number.
pub(crate) fn unit(number: u32, height: i64, body_top: i64, north: u32) -> Unit
    ensures { result ≡ examples.unit number number height body_top north }
{
    Unit {
        layer: number,
        child: Some(number),
        height,
        body_top,
        body_height: 30,
        north,
        south: 0,
    }
}

/// A link of this edge from the first unit to the second.
pub(crate) fn link(edge: u32, tail_at: i64, head_at: i64) -> Link
    ensures { result ≡ examples.link edge tail_at head_at }
{
    Link {
        edge,
        tail: 0,
        head: 1,
        tail_rank: 0,
        head_rank: 0,
        tail_at,
        head_at,
    }
}

/// The units and links of two children that two parallel edges join.
pub(crate) fn parallel_layered(alloc: Global) -> Result<Layered, AllocError>
    ensures { IfOk result (λ l. plain l ≡ examples.parallel_plan.layered) }
{
    let units = vec![in alloc; unit(0, 30, 0, 0), unit(1, 30, 0, 0)]?;
    let links = vec![in alloc; link(0, 10, 10), link(1, 20, 20)]?;
    Ok(Layered {
        layers: 2,
        units,
        links,
        node_node: 20,
        edge_node: 10,
        edge_edge: 10,
    })
}

fn end_at(node: u32, side: Side, x: u8, y: u8) -> EndAt
    ensures { result ≡ worked.end_of_table node side x y }
{
    let at = Point {
        x: i64::from(x),
        y: i64::from(y),
    };
    EndAt {
        dock: Dock {
            node,
            side,
            offset: at.y,
        },
        anchor: at,
        lane: 0,
    }
}

fn child_at(alloc: Global, unit: u32) -> ChildAt
    ensures { result ≡ worked.child_of_table unit }
{
    ChildAt {
        unit,
        outline: Rect {
            x: 0,
            y: 0,
            width: 30,
            height: 30,
        },
        ports: Items::from_vec(Vec::new(alloc)),
        north: 0,
        south: 0,
    }
}

/// Where the two edges dock.
pub(crate) fn parallel_table(alloc: Global) -> Result<Table, AllocError>
    ensures { IfOk result (λ t. t ≡ worked.parallel_table) }
{
    let none = LoopAt { north: 0, south: 0 };
    let children = vec![in alloc; child_at(alloc, 0), child_at(alloc, 1)]?;
    let ends = vec![in alloc;
        end_at(0, Side::East, 30, 10),
        end_at(1, Side::West, 0, 10),
        end_at(0, Side::East, 30, 20),
        end_at(1, Side::West, 0, 20),
    ]?;
    let loops = vec![in alloc; none, none]?;
    Ok(Table {
        children: Items::from_vec(children),
        ends: Items::from_vec(ends),
        loops: Items::from_vec(loops),
    })
}
