//! A child of a level with its ports.
ghost use Rattle.std.specs.Prelude.{◌≡◌, ◌<◌, ◌+ℤ◌, length};
ghost use Rattle.elk_doc.specs.Sound.{along};
ghost use Rattle.port_order.specs.Child.{is_pinned, is_pinned_spot, port_at};
ghost use Rattle.port_order.specs.Conditions.{IsChild, IsSpot};

use crate::spots::Spot;
use drawing_types::list::Items;
use drawing_types::shape::{Point, Side, Size};
use elk_doc::document::{Direction, PortRule};
use elk_doc::sides::along;

/// A port of a child. `half` is the anchor's offset within the port along its side; `side` is the side that it asks for.
#[derive(Clone, Copy)]
pub struct ChildPort {
    pub size: Size,
    pub place: Point,
    pub half: i64,
    pub side: Option<Side>,
    pub index: i64,
}

/// A child of a level, in the working frame. `direction` is that of the level: by it, orders and roundings that are
/// stated in the document's frame are rotated. `position` is the place that it keeps among the children of its layer.
#[derive(Drop)]
pub struct Child {
    pub size: Size,
    pub compound: bool,
    pub rule: PortRule,
    pub direction: Direction,
    pub position: Option<i64>,
    pub ports: Items<ChildPort>,
}

/// A port of a child.
pub(crate) fn port_at(child: &Child, port: u32) -> ChildPort
    requires { port < length child.now.ports }
    ensures { result ≡ port_at child.now port }
{
    *child.ports.at(port as usize)
}

/// Whether a port is pinned: it keeps its given place along its side.
pub fn is_pinned(child: &Child, port: u32) -> bool
    requires { port < length child.now.ports }
    ensures { result ≡ is_pinned child.now port }
{
    match child.rule {
        PortRule::FixedPos => !child.compound || port_at(child, port).side.is_some(),
        _ => false,
    }
}

/// Whether the port of a spot is pinned; every other spot is spread.
pub fn is_pinned_spot(child: &Child, spot: &Spot) -> bool
    requires { IsSpot child.now spot.now }
    ensures { result ≡ is_pinned_spot child.now spot.now }
{
    match spot.port {
        Some(port) => is_pinned(child, port),
        None => false,
    }
}

/// The offset along a side of a port's anchor at the port's given place.
pub(crate) fn given_offset(child: &Child, side: Side, port: u32) -> i64
    requires child { IsChild child.now }
    requires port { port < length child.now.ports }
    ensures { result ≡ along side (port_at child.now port).place +ℤ (port_at child.now port).half }
{
    let found = port_at(child, port);
    along(side, found.place) + found.half
}
