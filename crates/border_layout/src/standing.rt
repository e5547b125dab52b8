//! A drawn level, led on to the border of its node.

use crate::cutting::cut_routes;
use crate::drawings::{Drawing, ORIGIN, Placement, ROOT, place_of_label};
use crate::port_rooms::lack_beside_lines;
use crate::titles::{drawn_titles, shares_of};
use border_levels::{Model, PortRule, line_of};
use border_ring::{
    Bounds, Content, Led, Room, Title, led_on, moved_titles, slide_titles, whole_box,
};
use graph_draft::{Draft, Element, Point, Side, Size, tidy};
use std::alloc::{AllocError, Global};
use std::collections::BTreeMap;

// The room between two ports of a node.
const BETWEEN_PORTS: f64 = 10.0;

// How often a node grows at most for labels that lack room.
const MOST_GROWTHS: usize = 10;

/// How a level stands, and where each crossing of its border lies along its side.
#[derive(Drop)]
pub(crate) struct Standing {
    pub(crate) placement: Placement,
    pub(crate) pins: BTreeMap<usize, f64>,
}

// Adds the box of a label, if it has a place from an origin on.
fn add_label(bounds: &mut Bounds, draft: &Draft, label: usize, origin: Point) {
    if let Some(place) = place_of_label(draft, label) {
        let size = draft.size_of(Element::Label(label));
        let (place, size) = whole_box(place.moved(origin), size);
        bounds.add_box(place, size);
    }
}

// Adds the boxes of a node, of the ports with which it was sent, and of the labels of both. Ports that stages made count no more.
fn add_child(bounds: &mut Bounds, draft: &Draft, node: usize) {
    let element = Element::Node(node);
    let corner = draft.place_of(element);
    bounds.add_box(corner, draft.size_of(element));
    for label in draft.labels_of(element) {
        add_label(bounds, draft, *label, corner);
    }
    for port in draft.ports_of(node) {
        if *port < draft.given_ports {
            add_port(bounds, draft, *port, corner);
        }
    }
}

// Adds the box of a port of a node, whose corner is told, and those of its labels.
fn add_port(bounds: &mut Bounds, draft: &Draft, port: usize, corner: Point) {
    let element = Element::Port(port);
    let origin = draft.place_of(element).moved(corner);
    bounds.add_box(origin, draft.size_of(element));
    for label in draft.labels_of(element) {
        add_label(bounds, draft, *label, origin);
    }
}

// The rectangle around what stands in a drawn level between its borders.
fn bounds_of(drawing: &Drawing, cut: &[Vec<Point>]) -> Bounds {
    let draft = &drawing.level.draft;
    let mut bounds = Bounds::none();
    for child in draft.children_of(ROOT).iter().take(drawing.children) {
        add_child(&mut bounds, draft, *child);
    }
    for at in 0..drawing.pieces.len() {
        for label in drawing.labels_at(at) {
            add_label(&mut bounds, draft, *label, ORIGIN);
        }
    }
    for points in cut {
        for point in points.iter() {
            bounds.add_point(*point);
        }
    }
    bounds
}

// A size that is so long along a side at least.
fn at_least(size: Size, side: Side, length: f64) -> Size {
    if side.is_upright() {
        Size {
            height: size.height.max(length),
            ..size
        }
    } else {
        Size {
            width: size.width.max(length),
            ..size
        }
    }
}

// The size that the ports of a level's node need, and that the node asks for.
fn least_of(model: &Model, level: usize, asked: Size) -> Size {
    let draft = &model.draft;
    let has_places = model.rule_of(level) == PortRule::FixedPos;
    let mut least = asked;
    for side in Side::ALL {
        let mut sum = BETWEEN_PORTS;
        for port in draft.ports_of(level) {
            let known = model.port(*port);
            if known.side == side {
                let own = side.along(draft.size_of(Element::Port(*port)));
                sum += own.max(known.length) + BETWEEN_PORTS;
                let needs = if has_places {
                    line_of(draft, *port, side) + (own / 2.0).ceil().max(known.length)
                } else {
                    sum
                };
                least = at_least(least, side, needs);
            }
        }
    }
    least
}

// Whether a ring stands around a level: edges cross its border, or its node has ports.
fn is_framed(model: &Model, level: usize) -> bool {
    !model.crossings_of(level).is_empty() || !model.draft.ports_of(level).is_empty()
}

// A level whose border nothing crosses stays as the engine has drawn it.
fn as_drawn(alloc: Global, drawing: &Drawing) -> Led {
    Led {
        size: drawing.level.draft.size_of(Element::Node(ROOT)),
        shift: ORIGIN,
        ends: BTreeMap::new(alloc),
        pins: BTreeMap::new(alloc),
    }
}

fn push_all(points: &mut Vec<Point>, more: &[Point]) -> Result<(), AllocError> {
    for point in more {
        points.push(*point)?;
    }
    Ok(())
}

// The routes of a level, moved with its content and led on to its border.
fn led_routes(
    alloc: Global,
    content: &Content<'_>,
    led: &Led,
) -> Result<Vec<Vec<Point>>, AllocError> {
    let mut routes = Vec::new(alloc);
    for (piece, cut) in content.pieces.iter().zip(content.cut.iter()) {
        let mut points = Vec::new(alloc);
        let ends = led.ends.get(piece);
        if let Some(ends) = ends {
            push_all(&mut points, ends.from.as_slice())?;
        }
        for point in cut.iter() {
            points.push(point.moved(led.shift))?;
        }
        if let Some(ends) = ends {
            push_all(&mut points, ends.to.as_slice())?;
        }
        routes.push(tidy(alloc, points.as_slice())?)?;
    }
    Ok(routes)
}

// A level led on to the border of its node.
#[derive(Drop)]
struct Leading {
    led: Led,
    routes: Vec<Vec<Point>>,
    titles: Vec<Title>,
    // How much larger the node has to be for labels that lines leave no room for.
    lack: Size,
}

fn lead(
    alloc: Global,
    model: &Model,
    drawing: &Drawing,
    content: &Content<'_>,
    least: Size,
) -> Result<Leading, AllocError> {
    let draft = &drawing.level.draft;
    let is_framed = is_framed(model, content.level);
    let led = if is_framed {
        led_on(alloc, model, content, least)?
    } else {
        as_drawn(alloc, drawing)
    };
    let routes = led_routes(alloc, content, &led)?;
    let drawn = drawn_titles(alloc, draft)?;
    let shares = shares_of(alloc, &model.draft, content.level)?;
    let before = draft.size_of(Element::Node(ROOT));
    let moved = moved_titles(alloc, drawn.as_slice(), shares.as_slice(), before, led.size)?;
    let room = Room {
        size: led.size,
        padding: content.padding,
        direction: model.direction_of(content.level),
    };
    let (titles, lack) = slide_titles(
        alloc,
        moved.as_slice(),
        shares.as_slice(),
        routes.as_slice(),
        room,
    )?;
    let lack = if is_framed {
        let beside = lack_beside_lines(alloc, model, content.level, &led)?;
        Size {
            width: lack.width.max(beside.width),
            height: lack.height.max(beside.height),
        }
    } else {
        Size::NONE
    };
    Ok(Leading {
        led,
        routes,
        titles,
        lack,
    })
}

// A level whose node grows until no label lacks room. A label in the middle moves by half of what the node grows, and may lack room
// again: each time half as much.
fn grown(
    alloc: Global,
    model: &Model,
    drawing: &Drawing,
    content: &Content<'_>,
    first: Leading,
) -> Result<Leading, AllocError> {
    let mut leading = first;
    for _ in 0..MOST_GROWTHS {
        let lack = leading.lack;
        if !(lack.width > 0.0 || lack.height > 0.0) {
            break;
        }
        // A label without room gets it at the end of its row or column.
        let larger = Size {
            width: leading.led.size.width + lack.width,
            height: leading.led.size.height + lack.height,
        };
        leading = lead(alloc, model, drawing, content, larger)?;
    }
    Ok(leading)
}

// Whether the certificate of a drawn level holds for the edges of the graph: all of them were sent as they are.
fn is_plain(model: &Model, level: usize, pieces: &[usize]) -> bool {
    if is_framed(model, level) {
        return false;
    }
    for at in pieces {
        if let Some(piece) = model.piece(*at) {
            if piece.is_turned || !piece.labels.is_empty() {
                return false;
            }
        }
    }
    true
}

/// Leads a drawn level, by the number of its drawing, on to the border of its node.
pub(crate) fn stand(
    alloc: Global,
    model: &Model,
    level: usize,
    at: usize,
    drawing: &Drawing,
) -> Result<Standing, AllocError> {
    let cut = cut_routes(alloc, model, level, drawing)?;
    let pieces = drawing.pieces.as_slice();
    let content = Content {
        level,
        pieces,
        cut: cut.as_slice(),
        bounds: bounds_of(drawing, cut.as_slice()),
        padding: drawing.level.padding,
    };
    let least = least_of(model, level, drawing.level.least);
    let first = lead(alloc, model, drawing, &content, least)?;
    let leading = grown(alloc, model, drawing, &content, first)?;
    let Leading {
        led,
        routes,
        titles,
        ..
    } = leading;
    let Led {
        size,
        shift,
        pins,
        ..
    } = led;
    let placement = Placement {
        drawing: at,
        size,
        shift,
        routes,
        titles,
        is_plain: is_plain(model, level, pieces),
    };
    Ok(Standing { placement, pins })
}
