//! The ports of a root of 200 by 300 alone in its document, each 10 by 20.
ghost use Rattle.std.specs.Prelude.{◌≡◌, IfOk};
ghost use Rattle.compound.specs.Examples.{port_with, rooted};

use compound::place_root_ports;
use drawing_types::shape::{Point, Rect, Side, Size};
use elk_doc::document::{Direction, Doc, Id, Node, Port, PortRule, default_options};
use level_io::{Canvas, blank, index_of};
use std::alloc::{AllocError, Global};
use std::test::Fail;

fn make_port(id: Id, side: Option<Side>) -> Port
    ensures { result ≡ port_with id side }
{
    Port {
        id,
        node: 0,
        size: Size {
            width: 10,
            height: 20,
        },
        place: Point { x: 0, y: 100 },
        side,
        index: 0,
    }
}

// A root with two ports, of which the first asks for this side.
fn make_document(
    alloc: Global,
    way: Direction,
    rule: PortRule,
    side: Option<Side>,
) -> Result<Doc, AllocError>
    ensures { IfOk result (λ d. d ≡ rooted way rule side) }
{
    let root = Node {
        id: None,
        parent: None,
        size: Size {
            width: 0,
            height: 0,
        },
        rule,
        position: None,
        level: Some(default_options(way)),
    };
    let mut nodes = Vec::new(alloc);
    nodes.push(root)?;
    let mut ports = Vec::new(alloc);
    ports.push(make_port(Id::Whole(1), side))?;
    ports.push(make_port(Id::Whole(2), None))?;
    Ok(Doc::new(nodes, ports, Vec::new(alloc)))
}

// The drawing of the document in which only the ports of the root are placed.
fn placed(
    alloc: Global,
    way: Direction,
    rule: PortRule,
    side: Option<Side>,
) -> Result<Canvas, AllocError> {
    let doc = make_document(alloc, way, rule, side)?;
    let index = index_of(alloc, &doc)?;
    let mut canvas = blank(alloc, &doc)?;
    canvas.boxes.as_mut_slice()[0] = Rect {
        x: 0,
        y: 0,
        width: 200,
        height: 300,
    };
    place_root_ports(alloc, &doc, &index, &mut canvas)?;
    Ok(canvas)
}

#[test]
fn ports_without_constraints_divide_the_side_ahead(rt: HostRuntime) -> Result<(), Fail> {
    let right = placed(rt.alloc(), Direction::Right, PortRule::Free, None)?;
    let east = [Point { x: 200, y: 90 }, Point { x: 200, y: 190 }];
    assert_eq!(rt; right.ports.as_slice(), east.as_slice());
    let down = placed(rt.alloc(), Direction::Down, PortRule::Free, None)?;
    let south = [Point { x: 61, y: 300 }, Point { x: 128, y: 300 }];
    assert_eq!(rt; down.ports.as_slice(), south.as_slice());
    Ok(())
}

#[test]
fn a_port_has_the_side_that_it_asks_for(rt: HostRuntime) -> Result<(), Fail> {
    let canvas = placed(
        rt.alloc(),
        Direction::Right,
        PortRule::FixedSide,
        Some(Side::North),
    )?;
    let places = [Point { x: 95, y: -20 }, Point { x: 200, y: 140 }];
    assert_eq!(rt; canvas.ports.as_slice(), places.as_slice());
    Ok(())
}

#[test]
fn a_pinned_port_keeps_its_place_along_its_side(rt: HostRuntime) -> Result<(), Fail> {
    let canvas = placed(
        rt.alloc(),
        Direction::Right,
        PortRule::FixedPos,
        Some(Side::East),
    )?;
    let places = [Point { x: 200, y: 100 }, Point { x: 200, y: 140 }];
    assert_eq!(rt; canvas.ports.as_slice(), places.as_slice());
    Ok(())
}
