//! A leaf of 30 by 60 with three ports of 10 by 10 and one implicit end.
ghost use Rattle.std.specs.Prelude.{◌≡◌, ◌≢◌, ◌≤◌, ◌^◌, length, false, Some, None, IfOk, IfSome, IsNone, IsFalse, ◌&&◌};
ghost use Rattle.elk_doc.specs.declared.document.PortRule.TheVariants.{FixedPos};
ghost use Rattle.drawing_types.specs.Ranges.{IsPlaceWithin};
ghost use Rattle.port_order.specs.Conditions.{IsChild};
ghost use Rattle.port_order.specs.Examples.{IsExamplePort, IsPinnedCorner};

use drawing_types::list::Items;
use drawing_types::shape::{Point, Side, Size};
use elk_doc::document::{Direction, PortRule};
use port_order::{Child, ChildPort, Mean, Spot, dock_of, order_side, side_of, spread, spread_at};
use std::alloc::{AllocError, Global};
use std::test::Fail;

#[test]
fn spots_are_spread_evenly(rt: HostRuntime) -> Result<(), Fail> {
    assert_eq!(rt; spread(rt.alloc(), 30, 2)?.as_slice(), [10, 20].as_slice());
    assert_eq!(rt; spread(rt.alloc(), 3, 2)?.as_slice(), [1, 2].as_slice());
    assert_eq!(rt; spread(rt.alloc(), 1, 2)?.as_slice(), [0, 0].as_slice());
    assert_eq!(rt; spread(rt.alloc(), 7, 0)?.len(), 0);
    assert_eq!(rt; spread_at(60, 3, 1), 30);
    Ok(())
}

// A port of 10 by 10.
fn port(side: Option<Side>, index: i64, place: Point) -> ChildPort
    requires { IsPlaceWithin (2 ^ 54) place }
    ensures { IsExamplePort result }
{
    ChildPort {
        size: Size {
            width: 10,
            height: 10,
        },
        place,
        half: 5,
        side,
        index,
    }
}

// The leaf. Its ports ask for this side.
fn leaf(
    alloc: Global,
    rule: PortRule,
    direction: Direction,
    side: Option<Side>,
    indices: [i64; 3],
) -> Result<Child, AllocError>
    requires { rule ≢ FixedPos }
    ensures child { IfOk result IsChild }
    ensures ports { IfOk result (λ child. length child.ports ≡ 3) }
{
    let ports = vec![in alloc;
        port(side, indices[0], Point { x: 20, y: 0 }),
        port(side, indices[1], Point { x: 0, y: 20 }),
        port(side, indices[2], Point { x: 10, y: 40 }),
    ]?;
    Ok(Child {
        size: Size {
            width: 30,
            height: 60,
        },
        compound: false,
        rule,
        direction,
        position: None,
        ports: Items::from_vec(ports),
    })
}

// Whether edges enter and leave a spot, and its mean as a sum and a count.
#[derive(Clone, Copy)]
struct Passing {
    enters: bool,
    leaves: bool,
    sum: u64,
    count: u32,
}

const QUIET: Passing = Passing {
    enters: false,
    leaves: false,
    sum: 0,
    count: 0,
};

// The mean, if it counts something.
fn mean_of(passing: Passing) -> Option<Mean>
    ensures { IfSome result (λ m. 1 ≤ m.count) }
{
    if passing.count == 0 {
        return None;
    }
    Some(Mean {
        sum: passing.sum,
        count: passing.count,
    })
}

// The spot of a port.
fn port_spot(port: u32, passing: Passing) -> Spot
    ensures port { result.port ≡ Some port }
    ensures number { result.number ≡ port }
    ensures mean { IfSome result.mean (λ m. 1 ≤ m.count) }
{
    Spot {
        port: Some(port),
        number: port,
        leaves: passing.leaves,
        enters: passing.enters,
        mean: mean_of(passing),
    }
}

// An implicit end that an edge leaves.
fn leaving_end(passing: Passing) -> Spot
    ensures port { result.port ≡ None }
    ensures number { result.number ≡ 3 }
    ensures mean { IfSome result.mean (λ m. 1 ≤ m.count) }
    ensures leaves { result.enters ≡ false }
{
    Spot {
        port: None,
        number: 3,
        leaves: true,
        enters: false,
        mean: mean_of(passing),
    }
}

// The order of a side of the leaf.
fn order_of(
    alloc: Global,
    child: &Child,
    side: Side,
    flows: [Passing; 4],
) -> Result<Vec<u32>, AllocError>
    requires child { IsChild child.now }
    requires ports { length child.now.ports ≡ 3 }
{
    let spots = [
        port_spot(0, flows[0]),
        port_spot(1, flows[1]),
        port_spot(2, flows[2]),
        leaving_end(flows[3]),
    ];
    order_side(alloc, child, side, &spots)
}

#[test]
fn fixed_orders_run_clockwise_in_the_document(rt: HostRuntime) -> Result<(), Fail> {
    let quiet = [QUIET, QUIET, QUIET, QUIET];
    for (direction, indices, wanted) in [
        (Direction::Right, [2, 0, 1], [0, 2, 1]),
        (Direction::Right, [4, 4, 4], [1, 2, 0]),
        (Direction::Left, [2, 0, 1], [1, 2, 0]),
        (Direction::Down, [2, 0, 1], [1, 2, 0]),
        (Direction::Up, [2, 0, 1], [0, 2, 1]),
    ] {
        let south = Some(Side::South);
        let child = leaf(rt.alloc(), PortRule::FixedOrder, direction, south, indices)?;
        let order = order_of(rt.alloc(), &child, Side::South, quiet)?;
        assert_eq!(rt; order.as_slice(), wanted.as_slice());
    }
    Ok(())
}

#[test]
fn implicit_ends_stand_after_ports(rt: HostRuntime) -> Result<(), Fail> {
    let first = Passing {
        enters: false,
        leaves: true,
        sum: 0,
        count: 1,
    };
    let flows = [first, QUIET, QUIET, first];
    for (direction, indices, wanted) in [
        (Direction::Right, [2, 0, 1], [1, 2, 0, 3]),
        (Direction::Right, [4, 4, 4], [0, 1, 2, 3]),
        (Direction::Left, [2, 0, 1], [0, 2, 1, 3]),
        (Direction::Down, [2, 0, 1], [0, 2, 1, 3]),
        (Direction::Up, [2, 0, 1], [1, 2, 0, 3]),
    ] {
        let east = Some(Side::East);
        let child = leaf(rt.alloc(), PortRule::FixedOrder, direction, east, indices)?;
        let order = order_of(rt.alloc(), &child, Side::East, flows)?;
        assert_eq!(rt; order.as_slice(), wanted.as_slice());
    }
    Ok(())
}

// A flow out of a spot, with its mean.
fn leaving(sum: u64, count: u32) -> Passing {
    Passing {
        enters: false,
        leaves: true,
        sum,
        count,
    }
}

#[test]
fn free_spots_stand_by_their_means(rt: HostRuntime) -> Result<(), Fail> {
    let child = leaf(
        rt.alloc(),
        PortRule::Free,
        Direction::Right,
        None,
        [0, 0, 0],
    )?;
    for (flows, wanted) in [
        (
            [QUIET, leaving(2, 4), leaving(1, 3), leaving(1, 2)],
            [2, 1, 3, 0],
        ),
        ([leaving(2, 3), leaving(1, 2), QUIET, QUIET], [1, 0, 2, 3]),
    ] {
        let order = order_of(rt.alloc(), &child, Side::East, flows)?;
        assert_eq!(rt; order.as_slice(), wanted.as_slice());
    }
    Ok(())
}

#[test]
fn spots_below_stand_by_their_flow(rt: HostRuntime) -> Result<(), Fail> {
    let south = Some(Side::South);
    let child = leaf(
        rt.alloc(),
        PortRule::FixedSide,
        Direction::Right,
        south,
        [0, 0, 0],
    )?;
    let out = leaving(0, 0);
    let into = Passing {
        enters: true,
        leaves: false,
        sum: 0,
        count: 0,
    };
    let order = order_of(rt.alloc(), &child, Side::South, [out, QUIET, into, out])?;
    assert_eq!(rt; order.as_slice(), [2, 1, 0].as_slice());
    Ok(())
}

// The offset of the first port, as the first of three.
fn first_dock(child: &Child) -> i64
    requires child { IsChild child.now }
    requires ports { length child.now.ports ≡ 3 }
{
    dock_of(child, &port_spot(0, QUIET), &[0, 2, 1])
}

#[test]
fn offsets_are_rounded_in_the_document(rt: HostRuntime) -> Result<(), Fail> {
    for (direction, side, wanted) in [
        (Direction::Left, Side::East, 15),
        (Direction::Right, Side::North, 7),
        (Direction::Left, Side::North, 8),
        (Direction::Up, Side::South, 8),
    ] {
        let child = leaf(
            rt.alloc(),
            PortRule::FixedOrder,
            direction,
            Some(side),
            [0, 1, 2],
        )?;
        assert_eq!(rt; first_dock(&child), wanted);
    }
    Ok(())
}

// A leaf with a pinned port that sticks out over its upper left corner.
fn pinned(alloc: Global, direction: Direction) -> Result<Child, AllocError>
    ensures { IfOk result IsPinnedCorner }
{
    let corner = ChildPort {
        size: Size {
            width: 10,
            height: 10,
        },
        place: Point { x: -3, y: -4 },
        half: 5,
        side: None,
        index: 0,
    };
    let ports = vec![in alloc; corner]?;
    Ok(Child {
        size: Size {
            width: 30,
            height: 60,
        },
        compound: false,
        rule: PortRule::FixedPos,
        direction,
        position: None,
        ports: Items::from_vec(ports),
    })
}

// The side and the offset of the pinned port.
fn side_and_dock(child: &Child) -> (Side, i64)
    requires { IsPinnedCorner child.now }
{
    let corner = port_spot(0, QUIET);
    (side_of(child, &corner), dock_of(child, &corner, &[]))
}

#[test]
fn pinned_ports_keep_their_places(rt: HostRuntime) -> Result<(), Fail> {
    for (direction, wanted) in [
        (Direction::Right, (Side::West, 1)),
        (Direction::Left, (Side::West, 1)),
        (Direction::Down, (Side::North, 2)),
        (Direction::Up, (Side::North, 2)),
    ] {
        let child = pinned(rt.alloc(), direction)?;
        assert_eq!(rt; side_and_dock(&child), wanted);
    }
    Ok(())
}
