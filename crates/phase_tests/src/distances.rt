//! Worked rows: crossings and a sweep of five units beside five, and the distances of three units.
ghost use Rattle.std.specs.Prelude.{◌≡◌, [], ◌∷◌};
ghost use Rattle.drawing_types.specs.declared.sweep.Sweep.TheVariants.{LeftUp};
ghost use Rattle.elk_layers.specs.Alignment.{aligned};
ghost use Rattle.elk_layers.specs.Crossings.{crossings, exchanged};
ghost use Rattle.elk_layers.specs.Sweeps.{forward_sweep};
ghost use Rattle.elk_layers.specs.Examples.{two_by_two, two_rows, five_by_five, five_rows, five_swept};

use elk_layers::{Layered, Unit, body_room, room};
use std::test::Fail;

// Two links that cross, until the second row is reversed.
fn two_units_beside_two()
    ensures crossing { crossings two_by_two two_rows ≡ 1 }
    ensures exchanged { crossings two_by_two (exchanged two_rows 1 0) ≡ 0 }
{}

// Seven crossings before the first forward sweep, four after it, and the links that an alignment chooses then.
fn five_units_beside_five()
    ensures before { crossings five_by_five five_rows ≡ 7 }
    ensures swept { forward_sweep five_by_five five_rows ≡ five_swept }
    ensures after { crossings five_by_five five_swept ≡ 4 }
    ensures aligned { aligned five_by_five five_swept LeftUp ≡ 1 ∷ 2 ∷ 5 ∷ [] }
{}

#[test]
fn distances(rt: HostRuntime) -> Result<(), Fail> {
    two_units_beside_two();
    five_units_beside_five();
    let alloc = rt.alloc();
    let plain_child = Unit {
        layer: 0,
        child: Some(0),
        height: 30,
        body_top: 0,
        body_height: 30,
        north: 0,
        south: 0,
    };
    let child_with_lane = Unit {
        layer: 0,
        child: Some(1),
        height: 50,
        body_top: 20,
        body_height: 30,
        north: 1,
        south: 0,
    };
    let lane = Unit {
        layer: 0,
        child: None,
        height: 0,
        body_top: 0,
        body_height: 0,
        north: 0,
        south: 0,
    };
    let mut units: Vec<Unit> = Vec::new(alloc);
    units.push(plain_child)?;
    units.push(child_with_lane)?;
    units.push(lane)?;
    let layered = Layered {
        layers: 2,
        units,
        links: Vec::new(alloc),
        node_node: 20,
        edge_node: 10,
        edge_edge: 7,
    };
    assert_eq!(rt; room(&layered, 0, 0), 50);
    assert_eq!(rt; room(&layered, 0, 1), 40);
    assert_eq!(rt; room(&layered, 1, 2), 60);
    assert_eq!(rt; room(&layered, 2, 2), 7);
    assert_eq!(rt; body_room(&layered, 0, 1), 30);
    assert_eq!(rt; body_room(&layered, 1, 0), 70);
    Ok(())
}
