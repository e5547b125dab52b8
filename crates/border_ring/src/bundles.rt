//! What leads to each crossing of a level's border: the pieces that end there, as one bundle.

use crate::ring::Content;
use border_levels::{Model, PieceEnd, PortRule, line_of};
use graph_draft::{Point, Side};
use route_curves::Frame;
use std::alloc::{AllocError, Global};

// How near a line may come to another or to a port.
pub(crate) const NEAR: f64 = 3.0;

/// An end of a level along its direction: before its first column, or behind its last.
#[derive(Clone, Copy, Debug, Drop, PartialEq, Eq)]
pub(crate) enum LevelEnd {
    First,
    Last,
}

/// A side of a level across its direction.
#[derive(Clone, Copy, Debug, Drop, PartialEq, Eq)]
pub(crate) enum LevelSide {
    Low,
    High,
}

// A piece that leads to the border: at which of its ends, and at which height it arrives.
#[derive(Clone, Copy, Drop)]
pub(crate) struct Net {
    pub(crate) piece: usize,
    pub(crate) end: LevelEnd,
    pub(crate) pin: f64,
}

// The pieces that lead to one crossing. Heights are measured across the direction.
#[derive(Drop)]
pub(crate) struct Bundle {
    // Its place in the list of bundles.
    pub(crate) number: usize,
    pub(crate) crossing: usize,
    // The side of the node at which it crosses the border.
    pub(crate) side: Side,
    // The end of the level to which it leads.
    pub(crate) end: LevelEnd,
    // The side of the level to which it turns before the border.
    pub(crate) turn: Option<LevelSide>,
    // Whether ports from the left or the top on take slots from the columns outwards.
    pub(crate) is_rising: bool,
    // The rank of the node's own port at which it ends.
    pub(crate) rank: Option<i64>,
    // The room of this port's labels behind the line.
    pub(crate) label_room: f64,
    // Where along its side it has to cross the border.
    pub(crate) given: Option<f64>,
    // Its height, if that keeps the order of ports.
    pub(crate) kept: Option<f64>,
    // Whether it gets a place of its own at the side to which it turns.
    pub(crate) is_moved: bool,
    pub(crate) nets: Vec<Net>,
    // The height at which it goes on to the border.
    pub(crate) at: f64,
    pub(crate) is_straight: bool,
    // How far from the columns its vertical runs.
    pub(crate) slot: f64,
    // How far from the side its lane runs.
    pub(crate) lane: f64,
}

impl Bundle {
    // The height at which its first piece arrives.
    pub(crate) fn pin(&self) -> f64 {
        match self.nets.first() {
            Some(net) => net.pin,
            None => 0.0,
        }
    }

    // Whether it leads on a lane to its place at a side across the direction.
    pub(crate) fn takes_lane(&self) -> bool {
        self.turn.is_some() && (self.given.is_some() || self.is_moved)
    }

    // Whether a piece arrives near a height when the content is moved so far.
    pub(crate) fn is_met(&self, shift: f64, at: f64) -> bool {
        for net in self.nets.iter() {
            if (net.pin + shift - at).abs() < NEAR {
                return true;
            }
        }
        false
    }
}

// A port of the node that has its own place along its side.
#[derive(Clone, Copy, Drop)]
pub(crate) struct PlacedPort {
    pub(crate) side: Side,
    pub(crate) at: f64,
}

// The bundle of a crossing, with its first piece.
fn bundle_of(
    alloc: Global,
    model: &Model,
    number: usize,
    at: usize,
    net: Net,
) -> Result<Option<Bundle>, AllocError> {
    let crossing = match model.crossing(at) {
        Some(crossing) => crossing,
        None => return Ok(None),
    };
    let low = if model.direction_of(crossing.node).is_level() {
        Side::North
    } else {
        Side::West
    };
    let turn = if crossing.is_on_axis() {
        None
    } else if crossing.side == low {
        Some(LevelSide::Low)
    } else {
        Some(LevelSide::High)
    };
    let mut bundle = Bundle {
        number,
        crossing: at,
        side: crossing.side,
        end: net.end,
        turn,
        is_rising: matches!(crossing.exit, Side::East | Side::South),
        rank: None,
        label_room: 0.0,
        given: None,
        kept: None,
        is_moved: false,
        nets: vec![in alloc; net]?,
        at: 0.0,
        is_straight: false,
        slot: 0.0,
        lane: 0.0,
    };
    if let Some(port) = crossing.port {
        let known = model.port(port);
        bundle.rank = Some(known.rank);
        bundle.label_room = known.length;
        if model.rule_of(crossing.node) == PortRule::FixedPos {
            bundle.given = Some(line_of(&model.draft, port, crossing.side));
        }
    }
    Ok(Some(bundle))
}

// Adds an end of a piece to the bundle of its crossing, if it is the border of the level.
fn add_net(
    alloc: Global,
    bundles: &mut Vec<Bundle>,
    model: &Model,
    end: PieceEnd,
    net: Net,
) -> Result<(), AllocError> {
    let crossing = match end {
        PieceEnd::Frame(crossing) => crossing,
        _ => return Ok(()),
    };
    for bundle in bundles.iter_mut() {
        if bundle.crossing == crossing {
            bundle.nets.push(net)?;
            return Ok(());
        }
    }
    let number = bundles.len();
    if let Some(bundle) = bundle_of(alloc, model, number, crossing, net)? {
        bundles.push(bundle)?;
    }
    Ok(())
}

fn height_of(frame: Frame, point: Option<&Point>) -> f64 {
    match point {
        Some(point) => frame.of(*point).v,
        None => 0.0,
    }
}

// The bundles of a level, in the order in which its pieces find them.
pub(crate) fn bundles_of(
    alloc: Global,
    model: &Model,
    content: &Content<'_>,
) -> Result<Vec<Bundle>, AllocError> {
    let frame = Frame(model.direction_of(content.level));
    let mut bundles = Vec::new(alloc);
    for (at, points) in content.pieces.iter().zip(content.cut.iter()) {
        if let Some(piece) = model.piece(*at) {
            let first = Net {
                piece: *at,
                end: LevelEnd::First,
                pin: height_of(frame, points.first()),
            };
            add_net(alloc, &mut bundles, model, piece.from, first)?;
            let last = Net {
                piece: *at,
                end: LevelEnd::Last,
                pin: height_of(frame, points.last()),
            };
            add_net(alloc, &mut bundles, model, piece.to, last)?;
        }
    }
    Ok(bundles)
}

// The ports of a level's node that have their own places.
pub(crate) fn placed_ports(
    alloc: Global,
    model: &Model,
    level: usize,
) -> Result<Vec<PlacedPort>, AllocError> {
    let mut ports = Vec::new(alloc);
    if model.rule_of(level) == PortRule::FixedPos {
        for port in model.draft.ports_of(level) {
            let side = model.port(*port).side;
            let at = line_of(&model.draft, *port, side);
            ports.push(PlacedPort { side, at })?;
        }
    }
    Ok(ports)
}
