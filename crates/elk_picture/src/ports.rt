//! Ports and their texts.

use crate::decimal::Decimal;
use crate::element::{Label, box_at, elements_of, id_of, labels_of, number_at};
use crate::geometry::{Point, Rect, write_rectangle};
use crate::ink::ink_on;
use crate::labels::write_placed;
use crate::levels::Node;
use crate::links::{close_link, link_of, open_link, title_of};
use crate::look::{LINE, Paints};
use crate::shapes::outline_point;
use crate::style::Shape;
use crate::texts::{Anchor, fitted, write_text};
use crate::words::Escaped;
use letter_widths::TEXT_SMALLEST;
use serde_json::Value;
use std::alloc::{AllocError, Global};

#[derive(Clone, Copy, Drop, PartialEq, Eq)]
enum Side {
    Left,
    Right,
    Up,
    Down,
}

// The side at which a port stands, by how far it reaches beyond each.
fn side_of(port: &Value, node: &Value) -> Side {
    let (x, y) = (number_at(port, "x"), number_at(port, "y"));
    let mut side = Side::Left;
    let mut most = -x;
    let right = x + number_at(port, "width") - number_at(node, "width");
    if right > most {
        most = right;
        side = Side::Right;
    }
    if -y > most {
        most = -y;
        side = Side::Up;
    }
    if y + number_at(port, "height") - number_at(node, "height") > most {
        side = Side::Down;
    }
    side
}

// Where the text of a port stands within its node, and which point of it stands there.
fn text_place(side: Side, port: Rect, room: Rect) -> (Point, Anchor) {
    let Point { x, y } = port.middle();
    match side {
        Side::Left => {
            let x = room.left.max(port.right()) + 3.0;
            (Point { x, y }, Anchor::Start)
        }
        Side::Right => {
            let x = room.right().min(port.left) - 3.0;
            (Point { x, y }, Anchor::End)
        }
        Side::Up => {
            let y = room.top.max(port.bottom()) + 6.0;
            (Point { x, y }, Anchor::Middle)
        }
        Side::Down => {
            let y = room.bottom().min(port.top) - 6.0;
            (Point { x, y }, Anchor::Middle)
        }
    }
}

fn write_own_text(
    alloc: Global,
    out: &mut String,
    text: &str,
    port: &Value,
    node: &Node<'_>,
    background: Option<&str>,
    paints: &Paints,
) -> Result<(), AllocError> {
    let side = side_of(port, node.value);
    let room = node.at;
    // Ports that face one another share the width of their node.
    let is_facing = side == Side::Left || side == Side::Right;
    let width = if is_facing {
        room.width / 2.0
    } else {
        room.width
    };
    let fit = fitted(
        alloc,
        text,
        (width - 4.0).max(1.0),
        f64::INFINITY,
        TEXT_SMALLEST + 1.0,
    )?;
    let (place, anchor) = text_place(side, box_at(port, node.origin), room);
    let ink = ink_on(background).unwrap_or(paints.title_ink);
    write_text(out, &fit, place, anchor, Some(ink))
}

fn has_placed(labels: &[Label<'_>]) -> bool {
    labels.iter().any(|label| label.placed)
}

// The labels of a port at their places. If none has a place, the first label stands within the node, beside the port.
fn write_port_texts(
    alloc: Global,
    out: &mut String,
    port: &Value,
    node: &Node<'_>,
    background: Option<&str>,
    paints: &Paints,
) -> Result<(), AllocError> {
    let labels = labels_of(alloc, port)?;
    let origin = box_at(port, node.origin).origin();
    if has_placed(labels.as_slice()) {
        for label in labels.iter() {
            if label.placed {
                write_placed(alloc, out, label, origin, None)?;
            }
        }
        return Ok(());
    }
    match labels.first() {
        Some(label) => write_own_text(
            alloc,
            out,
            label.text.as_str(),
            port,
            node,
            background,
            paints,
        ),
        None => Ok(()),
    }
}

// A short line from outside to a side of a box, at the middle of a port.
fn ends_of(side: Side, Point { x, y }: Point, room: Rect) -> (Point, Point) {
    match side {
        Side::Left => (
            Point {
                x: room.left - 1.0,
                y,
            },
            Point { x: room.left, y },
        ),
        Side::Right => (
            Point {
                x: room.right() + 1.0,
                y,
            },
            Point { x: room.right(), y },
        ),
        Side::Up => (
            Point {
                x,
                y: room.top - 1.0,
            },
            Point { x, y: room.top },
        ),
        Side::Down => (
            Point {
                x,
                y: room.bottom() + 1.0,
            },
            Point {
                x,
                y: room.bottom(),
            },
        ),
    }
}

// A line from a port to the outline of its node, if that lies within the node's box.
fn write_stem(
    out: &mut String,
    port: &Value,
    node: &Node<'_>,
    paints: &Paints,
) -> Result<(), AllocError> {
    let shape = node.style.shape;
    if shape == Shape::Box || node.compound {
        return Ok(());
    }
    let room = node.at;
    let middle = box_at(port, node.origin).middle();
    let (from, at) = ends_of(side_of(port, node.value), middle, room);
    let met = outline_point(at, from, shape, room);
    let (ink, width) = (paints.ink, Decimal(LINE));
    write!(
        out,
        "<path d=\"M{at}L{met}\" stroke=\"{ink}\" stroke-width=\"{width}\"/>"
    )
}

fn write_port(
    alloc: Global,
    out: &mut String,
    port: &Value,
    node: &Node<'_>,
    paints: &Paints,
) -> Result<(), AllocError> {
    let id = id_of(alloc, port)?;
    let title = Escaped(title_of(port).unwrap_or(id.as_str()));
    let ink = paints.ink;
    let link = link_of(port);
    write_stem(out, port, node, paints)?;
    open_link(out, link)?;
    write_rectangle(out, box_at(port, node.origin))?;
    write!(
        out,
        " rx=\"1\" fill=\"{ink}\"><title>{title}</title></rect>"
    )?;
    close_link(out, link)?;
    out.push('\n')
}

// The ports of a node, a line for each.
pub(crate) fn write_ports(
    alloc: Global,
    out: &mut String,
    node: &Node<'_>,
    paints: &Paints,
) -> Result<(), AllocError> {
    for port in elements_of(alloc, node.value, "ports")? {
        write_port(alloc, out, port, node, paints)?;
    }
    Ok(())
}

// The texts of a node's ports, a line for each port that has any.
pub(crate) fn write_texts_of_ports(
    alloc: Global,
    out: &mut String,
    node: &Node<'_>,
    background: Option<&str>,
    paints: &Paints,
) -> Result<(), AllocError> {
    for port in elements_of(alloc, node.value, "ports")? {
        let before = out.len();
        write_port_texts(alloc, out, port, node, background, paints)?;
        if out.len() > before {
            out.push('\n')?;
        }
    }
    Ok(())
}
