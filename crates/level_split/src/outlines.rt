//! The outlines of children, by the places of their ports.
ghost use Rattle.std.specs.Prelude.{◌≡◌, ◌<◌, length, IfOk};
ghost use Rattle.dock_table.specs.Narrow.{IsNearRect};
ghost use Rattle.level_split.specs.Outlines as own;
ghost use Rattle.level_split.specs.Outlines.{AreOutlines, ArePorted, IsPorted};

use dock_table::hull;
use drawing_types::list::Items;
use drawing_types::shape::{Point, Rect};
use port_order::Child;
use std::alloc::{AllocError, Global};

// The box of a port.
fn port_rect(child: &Child, ports: &[Point], port: usize) -> Rect
    requires port { port < length child.now.ports }
    requires as_many { length ports.now ≡ length child.now.ports }
    ensures { result ≡ own.port_rect child.now ports.now port }
{
    let size = child.ports.as_slice()[port].size;
    let place = ports[port];
    Rect {
        x: place.x,
        y: place.y,
        width: size.width,
        height: size.height,
    }
}

// The outline of a child from the corner of its box: the least rectangle that holds its box and its ports.
fn outline_of(child: &Child, ports: &[Point]) -> Rect
    requires { IsPorted child.now ports.now }
    ensures value { result ≡ own.outline_of child.now ports.now }
    ensures near { IsNearRect result }
{
    let mut outline = Rect {
        x: 0,
        y: 0,
        width: child.size.width,
        height: child.size.height,
    };
    let mut port = child.ports.len();
    'ports: while port > 0 {
        port -= 1;
        outline = hull(outline, port_rect(child, ports, port));
    }
    outline
}

/// The outlines of children, each from the corner of its child's box.
pub(crate) fn outlines_of(
    alloc: Global,
    children: &[Child],
    ports: &[Items<Point>],
) -> Result<Vec<Rect>, AllocError>
    requires { ArePorted children.now ports.now }
    ensures { IfOk result (λ outlines. AreOutlines children.now ports.now (length children.now) outlines.items) }
{
    let mut outlines = Vec::with_capacity(alloc, children.len())?;
    for i in 0..children.len() {
        outlines.push(outline_of(&children[i], ports[i].as_slice()))?;
    }
    Ok(outlines)
}
