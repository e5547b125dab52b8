//! Small graphs and their models.

use border_levels::{Crossing, Dock, Model, PieceEnd, model_of};
use edge_labels::Spot;
use graph_draft::{How, Options, Side};
use option_table::known_options;
use serde_json::Value;
use std::alloc::{AllocError, Global};
use std::test::Fail;

fn model_in(alloc: Global, text: &str) -> Result<Option<Model>, AllocError> {
    let Ok(graph) = Value::from_str(alloc, text) else {
        return Ok(None);
    };
    let how = How {
        table: known_options(),
        whole: true,
        general: Options::none(alloc),
    };
    model_of(alloc, &graph, &how)
}

// The pieces of a pair from its source to its target, each with whether it is sent the other way.
fn steps_of(alloc: Global, model: &Model, pair: usize) -> Result<Vec<(usize, bool)>, AllocError> {
    let mut steps = Vec::new(alloc);
    if let Some(pair) = model.pair(pair) {
        for step in pair.pieces.iter() {
            steps.push((step.piece, step.is_flipped))?;
        }
    }
    Ok(steps)
}

fn shape_of(crossing: Option<Crossing>) -> Option<(usize, Side, Side, Dock, bool)> {
    match crossing {
        Some(it) => Some((it.node, it.side, it.exit, it.dock, it.is_inner)),
        None => None,
    }
}

// The first label that is sent with a piece.
fn label_at(model: &Model, piece: usize) -> Option<(usize, Spot)> {
    match model.piece(piece) {
        Some(piece) => match piece.labels.first() {
            Some(sent) => Some((sent.label, sent.spot)),
            None => None,
        },
        None => None,
    }
}

// A node with two children and a port: an edge leaves it, an edge enters its port, and one leads on from there.
const THROUGH_A_PORT: &str = r#"{
    "children": [{
        "id": "a",
        "children": [{"id": "b"}, {"id": "c"}],
        "ports": [{"id": "p"}],
        "edges": [{"id": "on", "sources": ["p"], "targets": ["c"]}]
    }, {"id": "d"}],
    "edges": [
        {"id": "out", "sources": ["b"], "targets": ["d"], "labels": [{"text": "x"}],
            "layoutOptions": {"edgeLabels.placement": "TAIL"}},
        {"id": "back", "sources": ["d"], "targets": ["p"]}
    ]
}"#;

#[test]
fn leads_an_edge_out_of_a_node(rt: HostRuntime) -> Result<(), Fail> {
    let model = model_in(rt.alloc(), THROUGH_A_PORT)?.ok_or("no model")?;
    assert_eq!(rt; model.levels.as_slice(), [0, 1].as_slice());
    let steps = steps_of(rt.alloc(), &model, 0)?;
    assert_eq!(rt; steps.as_slice(), [(0, false), (1, false)].as_slice());
    let crossed = (1, Side::East, Side::East, Dock::End(0, true), false);
    assert_eq!(rt; shape_of(model.crossing(0)), Some(crossed));
    assert_eq!(rt; label_at(&model, 0), Some((0, Spot::Tail)));
    Ok(())
}

#[test]
fn leads_on_from_a_port_at_which_a_turned_edge_ends(rt: HostRuntime) -> Result<(), Fail> {
    let model = model_in(rt.alloc(), THROUGH_A_PORT)?.ok_or("no model")?;
    assert_eq!(rt; model.port(0).side, Side::East);
    let back = steps_of(rt.alloc(), &model, 1)?;
    assert_eq!(rt; back.as_slice(), [(2, true)].as_slice());
    let on = steps_of(rt.alloc(), &model, 2)?;
    assert_eq!(rt; on.as_slice(), [(3, true)].as_slice());
    let crossed = (1, Side::East, Side::East, Dock::Port(0), true);
    assert_eq!(rt; shape_of(model.crossing(1)), Some(crossed));
    Ok(())
}

// An edge of three ends out of a node whose own direction is another one.
const OTHER_DIRECTION: &str = r#"{
    "layoutOptions": {"elk.direction": "DOWN"},
    "children": [
        {"id": "a", "layoutOptions": {"elk.direction": "RIGHT"}, "children": [{"id": "b"}]},
        {"id": "c"},
        {"id": "d"}
    ],
    "edges": [{"id": "e", "sources": ["b"], "targets": ["c", "d"]}]
}"#;

#[test]
fn pairs_of_an_edge_share_the_way_to_their_common_end(rt: HostRuntime) -> Result<(), Fail> {
    let model = model_in(rt.alloc(), OTHER_DIRECTION)?.ok_or("no model")?;
    let crossed = (1, Side::South, Side::East, Dock::Stem(0), false);
    assert_eq!(rt; shape_of(model.crossing(0)), Some(crossed));
    assert_eq!(rt; model.crossings.len(), 1);
    let one = steps_of(rt.alloc(), &model, 0)?;
    assert_eq!(rt; one.as_slice(), [(0, false), (1, false)].as_slice());
    let other = steps_of(rt.alloc(), &model, 1)?;
    assert_eq!(rt; other.as_slice(), [(0, false), (2, false)].as_slice());
    Ok(())
}

// The same edge without the direction, but with a level that is laid out by itself.
const SEPARATE: &str = r#"{
    "children": [
        {"id": "a", "layoutOptions": {"hierarchyHandling": "SEPARATE_CHILDREN"},
            "children": [{"id": "b"}]},
        {"id": "c"}
    ],
    "edges": [{"id": "e", "sources": ["b"], "targets": ["c"]}]
}"#;

#[test]
fn there_is_no_model_of_an_edge_that_is_not_drawn(rt: HostRuntime) -> Result<(), Fail> {
    let model = model_in(rt.alloc(), SEPARATE)?;
    assert!(rt; model.is_none());
    Ok(())
}

// A level that merges ends, with an edge across a border and two that leave one node.
const MERGED: &str = r#"{
    "layoutOptions": {"elk.layered.mergeEdges": true},
    "children": [{"id": "a", "children": [{"id": "b"}]}, {"id": "c"}, {"id": "d"}],
    "edges": [
        {"id": "out", "sources": ["b"], "targets": ["c"]},
        {"id": "one", "sources": ["a"], "targets": ["c"]},
        {"id": "other", "sources": ["a"], "targets": ["d"]}
    ]
}"#;

// The docks at which the last piece of a pair leaves a node and enters one; none at borders.
fn docks_of(model: &Model, pair: usize) -> Option<(Option<Dock>, Option<Dock>)> {
    let dock_of = |end: PieceEnd| match end {
        PieceEnd::Own(own) => Some(own.dock),
        _ => None,
    };
    let last = model.pair(pair)?.pieces.last()?.piece;
    let piece = model.piece(last)?;
    Some((dock_of(piece.from), dock_of(piece.to)))
}

#[test]
fn merged_ends_share_docks_unless_edges_cross_borders(rt: HostRuntime) -> Result<(), Fail> {
    let model = model_in(rt.alloc(), MERGED)?.ok_or("no model")?;
    let across = (None, Some(Dock::End(0, false)));
    assert_eq!(rt; docks_of(&model, 0), Some(across));
    let one = (Some(Dock::Merged(1, true)), Some(Dock::Merged(3, false)));
    assert_eq!(rt; docks_of(&model, 1), Some(one));
    let other = (Some(Dock::Merged(1, true)), Some(Dock::Merged(4, false)));
    assert_eq!(rt; docks_of(&model, 2), Some(other));
    Ok(())
}

// An edge of several ends that leads from a node to its own child and to another node.
const WITHIN_AND_OUTSIDE: &str = r#"{
    "children": [{"id": "a", "children": [{"id": "b"}]}, {"id": "c"}],
    "edges": [{"id": "e", "sources": ["b", "c"], "targets": ["a"]}]
}"#;

#[test]
fn an_edge_meets_its_node_at_one_side_from_within_and_outside(rt: HostRuntime) -> Result<(), Fail> {
    let model = model_in(rt.alloc(), WITHIN_AND_OUTSIDE)?.ok_or("no model")?;
    let met = (1, Side::West, Side::West, Dock::Stem(0), true);
    assert_eq!(rt; shape_of(model.crossing(0)), Some(met));
    Ok(())
}
