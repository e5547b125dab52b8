//! The boxes and traces of two children that two parallel edges join.
use crate::fixtures::{parallel, parallel_layered, parallel_table};
use drawing_types::shape::Point;
use level_draw::{Routes, routes_of};
use level_model::marks_of;
use level_nets::gaps_of;
use level_nets::sheet::Sheet;
use route_lines::Step;
use std::alloc::{AllocError, Global};
use std::test::Fail;

fn routes(alloc: Global) -> Result<Routes, AllocError> {
    let level = parallel(alloc)?;
    let layered = parallel_layered(alloc)?;
    let table = parallel_table(alloc)?;
    let is_reversed = marks_of(alloc, &[], level.edges.len())?;
    let sheet = Sheet {
        level: &level,
        layered: &layered,
        tops: &[0, 0],
        reversed: &[],
        is_reversed: is_reversed.as_slice(),
        table: &table,
    };
    let routing = gaps_of(alloc, &sheet)?;
    routes_of(alloc, &sheet, &routing)
}

#[test]
fn parallel_edges_lead_through_one_gap(rt: HostRuntime) -> Result<(), Fail> {
    let routes = routes(rt.alloc())?;
    assert_eq!(rt;
        routes.boxes.as_slice(),
        [Point { x: 0, y: 0 }, Point { x: 50, y: 0 }].as_slice()
    );
    assert_eq!(rt; routes.traces.len(), 2);
    let trace = &routes.traces.as_slice()[1];
    assert_eq!(rt;
        (trace.start, trace.end),
        (Point { x: 30, y: 20 }, Point { x: 50, y: 20 })
    );
    assert_eq!(rt; trace.steps.len(), 1);
    let leg = match trace.steps.as_slice()[0] {
        Step::Leg { gap, net, from_a } => (gap, net, from_a),
        Step::Lane(_) => (9, 9, false),
    };
    assert_eq!(rt; leg, (1, 1, true));
    Ok(())
}
