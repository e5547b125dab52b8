//! Tidied points, and a route through two gaps and a lane.
ghost use Rattle.std.specs.Prelude.{◌≡◌, [], ◌∷◌, pos, IfOk};
ghost use Rattle.route_lines.specs.Points.{plain_gap};

use drawing_types::section::Section;
use drawing_types::shape::Point;
use net_routes::{Net, NetRoute, Pin, Slots};
use route_lines::{Gap, Step, Trace, join, tidy};
use std::alloc::{AllocError, Global};
use std::test::Fail;

#[test]
fn one_line_is_one_segment(rt: HostRuntime) -> Result<(), Fail> {
    let points = [
        Point { x: 0, y: 0 },
        Point { x: 5, y: 0 },
        Point { x: 5, y: 0 },
        Point { x: 9, y: 0 },
    ];
    let tidied = tidy(rt.alloc(), &points)?;
    assert_eq!(rt;
        tidied.as_slice(),
        [Point { x: 0, y: 0 }, Point { x: 9, y: 0 }].as_slice()
    );
    Ok(())
}

#[test]
fn corners_stay(rt: HostRuntime) -> Result<(), Fail> {
    let points = [
        Point { x: 0, y: 0 },
        Point { x: 4, y: 0 },
        Point { x: 4, y: 7 },
        Point { x: 9, y: 7 },
    ];
    let tidied = tidy(rt.alloc(), &points)?;
    assert_eq!(rt; tidied.as_slice(), points.as_slice());
    Ok(())
}

// The borders of a gap, and its first slot.
#[derive(Clone, Copy)]
struct Borders {
    left: i64,
    first: i64,
    right: i64,
}

// A gap with slots 10 apart and one net.
fn gap_of(alloc: Global, at: Borders, net: Net, route: NetRoute) -> Result<Gap, AllocError>
    ensures { IfOk result
        (λ g. plain_gap g
        ≡ record { left = at.left; first = at.first; step = pos 10; right = at.right; nets = net ∷ []; count = 2; routes = route ∷ [] }) }
{
    Ok(Gap {
        left: at.left,
        first: at.first,
        step: 10,
        right: at.right,
        nets: vec![in alloc; net]?,
        slots: Slots {
            count: 2,
            routes: vec![in alloc; route]?,
        },
    })
}

// A pin on the left or the right border.
fn pin(on_left: bool, height: i64) -> Pin
    ensures { result ≡ record { on_left = on_left; height = height } }
{
    Pin { on_left, height }
}

// A route through two gaps and a lane.
fn section(alloc: Global) -> Result<Section, AllocError> {
    let near = Borders {
        left: 10,
        first: 20,
        right: 60,
    };
    let far = Borders {
        left: 100,
        first: 110,
        right: 140,
    };
    let up = Net {
        a: pin(true, 5),
        b: pin(false, 40),
    };
    let back = Net {
        a: pin(false, 90),
        b: pin(true, 40),
    };
    let split = NetRoute::Two {
        first: 0,
        height: 70,
        second: 1,
    };
    let gaps = [
        gap_of(alloc, near, up, NetRoute::One { slot: 0 })?,
        gap_of(alloc, far, back, split)?,
    ];
    let steps = vec![in alloc;
        Step::Leg {
            gap: 0,
            net: 0,
            from_a: true
        },
        Step::Lane(40),
        Step::Leg {
            gap: 1,
            net: 0,
            from_a: false
        },
    ]?;
    let trace = Trace {
        start: Point { x: 0, y: 5 },
        steps,
        end: Point { x: 200, y: 90 },
    };
    join(alloc, &gaps, &trace)
}

#[test]
fn a_route_passes_gaps_and_a_lane(rt: HostRuntime) -> Result<(), Fail> {
    let section = section(rt.alloc())?;
    assert_eq!(rt; section.start, Point { x: 0, y: 5 });
    assert_eq!(rt; section.end, Point { x: 200, y: 90 });
    let bends = [
        Point { x: 20, y: 5 },
        Point { x: 20, y: 40 },
        Point { x: 120, y: 40 },
        Point { x: 120, y: 70 },
        Point { x: 110, y: 70 },
        Point { x: 110, y: 90 },
    ];
    assert_eq!(rt; section.bends.as_slice(), bends.as_slice());
    Ok(())
}
