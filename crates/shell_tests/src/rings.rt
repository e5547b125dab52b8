//! Levels of one leaf, whose edges lead to a leaf around the level, and labels within their nodes.

use border_levels::{Model, model_of};
use border_ring::{Bounds, Content, Led, Room, Title, led_on, moved_titles, slide_titles};
use graph_draft::{Direction, How, Options, Point, Size};
use label_room::Padding;
use option_table::known_options;
use serde_json::Value;
use std::alloc::{AllocError, Global};
use std::test::Fail;

const ONE: &str = r#"{"children":[{"id":"a","children":[{"id":"b"}]},{"id":"c"}],
    "edges":[{"id":"e","source":"b","target":"c"}]}"#;

const TWO: &str = r#"{"children":[{"id":"a","children":[{"id":"b"}]},{"id":"c"}],
    "edges":[{"id":"e","source":"b","target":"c"},{"id":"f","source":"b","target":"c"}]}"#;

const UP: &str = r#"{"layoutOptions":{"elk.direction":"UP"},
    "children":[{"id":"a","children":[{"id":"b"}]},{"id":"c"}],
    "edges":[{"id":"e","source":"b","target":"c"}]}"#;

// The node with a level.
const LEVEL: usize = 1;

const NODE: Size = Size {
    width: 100.0,
    height: 60.0,
};

const NO_PADDING: Padding = Padding {
    top: 0.0,
    left: 0.0,
    bottom: 0.0,
    right: 0.0,
};

fn model_in(alloc: Global, text: &str) -> Result<Model, Fail> {
    let how = How {
        table: known_options(),
        whole: true,
        general: Options::none(alloc),
    };
    let graph = Value::from_str(alloc, text)?;
    Ok(model_of(alloc, &graph, &how)?.ok_or("no edge crosses a border")?)
}

// The level of a graph, if all of its pieces leave its columns at one height.
fn led_in(alloc: Global, model: &Model) -> Result<Led, AllocError> {
    let mut bounds = Bounds::none();
    bounds.add_box(Point { x: 0.0, y: 0.0 }, NODE);
    let mut cut = Vec::new(alloc);
    for _ in model.pieces_of(LEVEL) {
        cut.push(vec![in alloc; Point { x: 80.0, y: 30.0 }, Point { x: 100.0, y: 30.0 }]?)?;
    }
    let padding = Padding {
        top: 12.0,
        left: 12.0,
        bottom: 12.0,
        right: 12.0,
    };
    let content = Content {
        level: LEVEL,
        pieces: model.pieces_of(LEVEL),
        cut: cut.as_slice(),
        bounds,
        padding,
    };
    led_on(alloc, model, &content, Size::NONE)
}

// Whether a piece of the level, by its place there, is led on by just these points behind its last one.
fn is_led_by(model: &Model, led: &Led, at: usize, way: &[(f64, f64)]) -> bool {
    let Some(piece) = model.pieces_of(LEVEL).get(at) else {
        return false;
    };
    let Some(ends) = led.ends.get(piece) else {
        return false;
    };
    let mut is_same = ends.to.len() == way.len() && ends.from.is_empty();
    for (point, (x, y)) in ends.to.iter().zip(way.iter()) {
        is_same = is_same && point.x == *x && point.y == *y;
    }
    is_same
}

#[test]
fn one_goes_straight(rt: HostRuntime) -> Result<(), Fail> {
    let alloc = rt.alloc();
    let model = model_in(alloc, ONE)?;
    let led = led_in(alloc, &model)?;
    assert_eq!(rt; led.size.width, 124.0);
    assert_eq!(rt; led.size.height, 84.0);
    assert_eq!(rt; led.shift.x, 12.0);
    assert_eq!(rt; led.shift.y, 12.0);
    assert_eq!(rt; led.pins.get(&0).copied(), Some(42.0));
    assert!(rt; is_led_by(&model, &led, 0, &[(124.0, 42.0)]));
    Ok(())
}

#[test]
fn the_second_of_a_height_bends(rt: HostRuntime) -> Result<(), Fail> {
    let alloc = rt.alloc();
    let model = model_in(alloc, TWO)?;
    let led = led_in(alloc, &model)?;
    assert_eq!(rt; led.size.width, 134.0);
    assert_eq!(rt; led.pins.get(&1).copied(), Some(47.0));
    assert!(rt; is_led_by(&model, &led, 0, &[(134.0, 42.0)]));
    assert!(rt;
        is_led_by(
            &model,
            &led,
            1,
            &[(122.0, 42.0), (122.0, 47.0), (134.0, 47.0)]
        )
    );
    Ok(())
}

#[test]
fn what_crosses_above_turns_up(rt: HostRuntime) -> Result<(), Fail> {
    let alloc = rt.alloc();
    let model = model_in(alloc, UP)?;
    let led = led_in(alloc, &model)?;
    assert_eq!(rt; led.size.width, 134.0);
    assert_eq!(rt; led.pins.get(&0).copied(), Some(122.0));
    assert!(rt; is_led_by(&model, &led, 0, &[(122.0, 42.0), (122.0, 0.0)]));
    Ok(())
}

// Where a label in NODE moves to, and what NODE lacks for it.
fn slid_in(
    alloc: Global,
    size: Size,
    share: (f64, f64),
    direction: Direction,
    routes: &[Vec<Point>],
) -> Result<(Option<Point>, Size), AllocError> {
    let title = Title {
        place: Some(Point { x: 10.0, y: 4.0 }),
        size,
    };
    let room = Room {
        size: NODE,
        padding: NO_PADDING,
        direction,
    };
    let (slid, lack) = slide_titles(alloc, &[title], &[share], routes, room)?;
    Ok((slid.first().copied().and_then(|title| title.place), lack))
}

#[test]
fn titles_leave_lines(rt: HostRuntime) -> Result<(), Fail> {
    let alloc = rt.alloc();
    let line = vec![in alloc; Point { x: 20.0, y: 0.0 }, Point { x: 20.0, y: 40.0 }]?;
    let routes = vec![in alloc; line]?;
    for (direction, width, x, lack) in [
        (Direction::Right, 30.0, 24.0, 0.0),
        (Direction::Right, 80.0, 10.0, 9.0),
        (Direction::Left, 80.0, 10.0, 69.0),
    ] {
        let size = Size {
            width,
            height: 10.0,
        };
        let share = (0.0, 0.0);
        let (place, lacks) = slid_in(alloc, size, share, direction, routes.as_slice())?;
        assert_eq!(rt; lacks.width, lack);
        assert_eq!(rt; place.map(|place| place.x), Some(x));
    }
    Ok(())
}

#[test]
fn titles_beside_the_content_move_up_or_down(rt: HostRuntime) -> Result<(), Fail> {
    let alloc = rt.alloc();
    let line = vec![in alloc; Point { x: 0.0, y: 8.0 }, Point { x: 40.0, y: 8.0 }]?;
    let routes = vec![in alloc; line]?;
    for (height, y, lack) in [(10.0, 12.0, 0.0), (60.0, 4.0, 17.0)] {
        let size = Size {
            width: 30.0,
            height,
        };
        let (share, direction) = ((0.0, 0.5), Direction::Right);
        let (place, lacks) = slid_in(alloc, size, share, direction, routes.as_slice())?;
        assert_eq!(rt; lacks.height, lack);
        assert_eq!(rt; place.map(|place| place.y), Some(y));
    }
    Ok(())
}

#[test]
fn titles_follow_their_node(rt: HostRuntime) -> Result<(), Fail> {
    let alloc = rt.alloc();
    let title = Title {
        place: Some(Point { x: 10.0, y: 4.0 }),
        size: Size::NONE,
    };
    let grown = Size {
        width: 113.0,
        height: 80.0,
    };
    let moved = moved_titles(alloc, &[title], &[(0.5, 1.0)], NODE, grown)?;
    let place = moved.get(0).copied().and_then(|title| title.place);
    assert_eq!(rt; place.map(|place| place.x), Some(17.0));
    assert_eq!(rt; place.map(|place| place.y), Some(24.0));
    Ok(())
}
