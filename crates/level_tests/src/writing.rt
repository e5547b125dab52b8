//! Boxes, ports and routes that come back from the frames of the four directions, a document of which nothing is placed, and the
//! size of a node round its content.
ghost use Rattle.std.specs.Prelude.{◌≡◌, IfOk};
ghost use Rattle.level_io.specs.Written.{rows_in};
ghost use Rattle.level_tests.specs.Rotating as rotating;

use drawing_types::list::Items;
use drawing_types::section::Section;
use drawing_types::shape::{Point, Rect, Size};
use elk_doc::document::{
    Direction, Doc, Edge, End, Id, LevelOptions, Node, Padding, Port, PortRule, default_options,
};
use elk_doc::drawing::{Certificate, Placed};
use level_io::{LevelFigure, LevelNumbers, blank, frame_node, placed, write_level};
use std::alloc::{AllocError, Global};
use std::test::Fail;

// The root, with another padding on each side.
fn make_root(way: Direction) -> Node
    ensures { result ≡ rotating.root way }
{
    let padding = Padding {
        top: 1,
        left: 2,
        bottom: 3,
        right: 4,
    };
    Node {
        id: None,
        parent: None,
        size: Size {
            width: 0,
            height: 0,
        },
        rule: PortRule::Free,
        position: None,
        level: Some(LevelOptions {
            padding,
            ..default_options(way)
        }),
    }
}

// A leaf of 30 by 50.
fn make_leaf() -> Node
    ensures { result ≡ rotating.leaf }
{
    Node {
        id: Some(Id::Whole(1)),
        parent: Some(0),
        size: Size {
            width: 30,
            height: 50,
        },
        rule: PortRule::Free,
        position: None,
        level: None,
    }
}

// Its port, of 10 by 7.
fn make_port() -> Port
    ensures { result ≡ rotating.port }
{
    Port {
        id: Id::Whole(2),
        node: 1,
        size: Size {
            width: 10,
            height: 7,
        },
        place: Point { x: 0, y: 0 },
        side: None,
        index: 0,
    }
}

// A root over a leaf with a port and a loop.
fn make_document(alloc: Global, way: Direction) -> Result<Doc, AllocError>
    ensures { IfOk result (λ d. d ≡ rotating.rotating way) }
{
    let mut nodes = Vec::new(alloc);
    nodes.push(make_root(way))?;
    nodes.push(make_leaf())?;
    let mut ports = Vec::new(alloc);
    ports.push(make_port())?;
    let mut edges = Vec::new(alloc);
    edges.push(Edge {
        id: Id::Whole(0),
        source: End::Node(1),
        target: End::Node(1),
        weight: 1,
    })?;
    Ok(Doc::new(nodes, ports, edges))
}

// A drawing of the root's level, in which the port has this place.
fn make_figure(alloc: Global, x: u8, y: u8) -> Result<LevelFigure, AllocError>
    ensures { IfOk result (λ f. f ≡ rotating.figure x y) }
{
    let place = Point {
        x: i64::from(x),
        y: i64::from(y),
    };
    let ports = Items::from_vec(vec![in alloc; place]?);
    let bends = vec![in alloc; Point { x: 5, y: 2 }, Point { x: 5, y: 9 }]?;
    let section = Section {
        start: Point { x: 1, y: 2 },
        bends: Items::from_vec(bends),
        end: Point { x: 8, y: 9 },
    };
    Ok(LevelFigure {
        boxes: Items::from_vec(vec![in alloc; Point { x: 3, y: 4 }]?),
        ports: Items::from_vec(vec![in alloc; ports]?),
        sections: Items::from_vec(vec![in alloc; section]?),
        certificate: Certificate {
            layers: Items::from_vec(vec![in alloc; 0]?),
            reversed: Items::from_vec(Vec::new(alloc)),
            flow: Items::from_vec(vec![in alloc; 0]?),
            span: 0,
            parts: Items::from_vec(Vec::new(alloc)),
        },
        extent: Size {
            width: 65,
            height: 31,
        },
    })
}

// The ports of each node.
fn port_numbers(alloc: Global) -> Result<Vec<Vec<u32>>, AllocError>
    ensures { IfOk result (λ rows. rows_in rows.items ≡ rotating.port_rows) }
{
    let one = vec![in alloc; 0]?;
    Ok(vec![in alloc; Vec::new(alloc), one]?)
}

// The drawing, written into the document.
fn written(alloc: Global, way: Direction, x: u8, y: u8) -> Result<Placed, AllocError> {
    let doc = make_document(alloc, way)?;
    let figure = make_figure(alloc, x, y)?;
    let ports = port_numbers(alloc)?;
    let numbers = LevelNumbers {
        children: &[1],
        edges: &[0],
        ports: ports.as_slice(),
    };
    let mut canvas = blank(alloc, &doc)?;
    write_level(&doc, 0, &numbers, figure, &mut canvas);
    Ok(placed(canvas))
}

// The box keeps its size and stands where it does in the frame, which begins at the padding; the port stands at one place in it.
#[test]
fn a_box_and_its_port_come_back(rt: HostRuntime) -> Result<(), Fail> {
    let rows = [
        (Direction::Right, 1, 2, 5, 5),
        (Direction::Left, 19, 2, 34, 5),
        (Direction::Down, 2, 1, 6, 4),
        (Direction::Up, 41, 1, 6, 13),
    ];
    for (way, port_x, port_y, x, y) in rows {
        let drawing = written(rt.alloc(), way, port_x, port_y)?;
        let place = Rect {
            x,
            y,
            width: 30,
            height: 50,
        };
        assert!(rt; drawing.boxes.as_slice().last() == Some(&place));
        assert!(rt; drawing.ports.as_slice().first() == Some(&Point { x: 1, y: 2 }));
    }
    Ok(())
}

#[test]
fn a_route_comes_back_from_a_level_that_runs_up(rt: HostRuntime) -> Result<(), Fail> {
    let drawing = written(rt.alloc(), Direction::Up, 0, 0)?;
    for back in drawing.sections.as_slice() {
        assert_eq!(rt; back.start, Point { x: 4, y: 65 });
        let turns = [Point { x: 4, y: 61 }, Point { x: 11, y: 61 }];
        assert_eq!(rt; back.bends.as_slice(), turns.as_slice());
        assert_eq!(rt; back.end, Point { x: 11, y: 58 });
    }
    assert_eq!(rt; drawing.sections.len(), 1);
    Ok(())
}

// The drawing of the document before anything is placed.
fn unplaced(alloc: Global) -> Result<Placed, AllocError> {
    let doc = make_document(alloc, Direction::Right)?;
    let canvas = blank(alloc, &doc)?;
    Ok(placed(canvas))
}

#[test]
fn nothing_is_placed_at_first(rt: HostRuntime) -> Result<(), Fail> {
    let drawing = unplaced(rt.alloc())?;
    let boxes = drawing.boxes.as_slice();
    let sizes = [
        boxes.len(),
        drawing.ports.len(),
        drawing.sections.len(),
        drawing.levels.len(),
    ];
    assert_eq!(rt; sizes, [2, 1, 1, 2]);
    for (i, (width, height)) in [(0, 0), (30, 50)].iter().enumerate() {
        let found = boxes.get(i).map(|r| (r.x, r.width, r.height));
        assert_eq!(rt; found, Some((0, *width, *height)));
    }
    Ok(())
}

// The drawing in which the root alone is framed, round a level of 80 by 30.
fn framed(alloc: Global) -> Result<Placed, AllocError> {
    let doc = make_document(alloc, Direction::Right)?;
    let mut canvas = blank(alloc, &doc)?;
    let ports = port_numbers(alloc)?;
    let numbers = LevelNumbers {
        children: &[1],
        edges: &[0],
        ports: ports.as_slice(),
    };
    let extent = Size {
        width: 80,
        height: 30,
    };
    frame_node(&doc, 0, &numbers, extent, &mut canvas);
    Ok(placed(canvas))
}

#[test]
fn a_node_gets_the_size_of_its_content(rt: HostRuntime) -> Result<(), Fail> {
    let drawing = framed(rt.alloc())?;
    let found = drawing.boxes.as_slice().first();
    assert_eq!(rt;
        found.map(|r| (r.x, r.y, r.width, r.height)),
        Some((0, 0, 86, 34))
    );
    Ok(())
}
