//! A level of two children of 30 by 30. An edge leaves the first one by its port on the west side, so its dock has a lane.
ghost use Rattle.std.specs.Prelude.{◌≡◌, IfOk};
ghost use Rattle.elk_layers.specs.Layered.{plain, rows_of};
ghost use Rattle.level_model.specs.Conditions.{plain_level};
ghost use Rattle.dock_table.specs.Examples.{west, west_plan};

use crate::fixtures::{level_of, link, square, unit};
use dock_table::table_of;
use drawing_types::list::Items;
use drawing_types::shape::{Dock, Point, Rect, Side, Size};
use elk_doc::document::{Direction, Placing, PortRule};
use elk_layers::{Layered, Order};
use level_model::{EdgeEnd, LevelEdge, LevelIn, Table, marks_of};
use port_order::{Child, ChildPort};
use std::alloc::{AllocError, Global};
use std::test::Fail;

fn west_level(alloc: Global) -> Result<LevelIn, AllocError>
    ensures { IfOk result (λ l. plain_level l ≡ west) }
{
    let port = ChildPort {
        size: Size {
            width: 10,
            height: 10,
        },
        place: Point { x: 0, y: 0 },
        half: 5,
        side: Some(Side::West),
        index: 0,
    };
    let first = Child {
        size: Size {
            width: 30,
            height: 30,
        },
        compound: false,
        rule: PortRule::FixedSide,
        direction: Direction::Right,
        position: None,
        ports: Items::from_vec(vec![in alloc; port]?),
    };
    let edge = LevelEdge {
        source: EdgeEnd {
            child: 0,
            port: Some(0),
        },
        target: EdgeEnd {
            child: 1,
            port: None,
        },
        weight: 1,
    };
    Ok(level_of(
        vec![in alloc; first, square(alloc)]?,
        vec![in alloc; edge]?,
        Placing::BrandesKoepf,
    ))
}

fn west_layered(alloc: Global) -> Result<Layered, AllocError>
    ensures { IfOk result (λ l. plain l ≡ west_plan.layered) }
{
    Ok(Layered {
        layers: 2,
        units: vec![in alloc; unit(0, 40, 10, 1), unit(1, 30, 0, 0)]?,
        links: vec![in alloc; link(0, 0, 15)]?,
        node_node: 20,
        edge_node: 10,
        edge_edge: 10,
    })
}

fn west_rows(alloc: Global) -> Result<Order, AllocError>
    ensures { IfOk result (λ o. rows_of o ≡ west_plan.rows) }
{
    let rows = vec![in alloc; vec![in alloc; 0]?, vec![in alloc; 1]?]?;
    Ok(Order { rows })
}

fn west_table(alloc: Global) -> Result<Table, AllocError> {
    let level = west_level(alloc)?;
    let layered = west_layered(alloc)?;
    let order = west_rows(alloc)?;
    let is_reversed = marks_of(alloc, &[], level.edges.len())?;
    table_of(alloc, &level, &layered, &order, is_reversed.as_slice())
}

#[test]
fn a_port_in_the_west_that_an_edge_leaves(rt: HostRuntime) -> Result<(), Fail> {
    let table = west_table(rt.alloc())?;
    let ends = table.ends.as_slice();
    assert_eq!(rt; ends.len(), 2);
    for (end, (node, x)) in ends.iter().zip([(0, -10), (1, 0)].iter()) {
        let dock = Dock {
            node: *node,
            side: Side::West,
            offset: 15,
        };
        assert_eq!(rt; end.dock, dock);
        assert_eq!(rt; end.anchor, Point { x: *x, y: 15 });
        assert_eq!(rt; end.lane, 0);
    }
    let children = table.children.as_slice();
    assert_eq!(rt; children.len(), 2);
    for (child, (x, width, north)) in children.iter().zip([(-10, 40, 1), (0, 30, 0)].iter()) {
        let outline = Rect {
            x: *x,
            y: 0,
            width: *width,
            height: 30,
        };
        assert_eq!(rt; child.outline, outline);
        assert_eq!(rt; child.north, *north);
        assert_eq!(rt; child.south, 0);
        for port in child.ports.as_slice() {
            assert_eq!(rt; *port, Point { x: -10, y: 10 });
        }
    }
    Ok(())
}
