//! What arrives at the columns of a level, led on to the border of its node.

use crate::bundles::{Bundle, LevelEnd, Net};
use crate::ring::{Content, Ring};
use crate::ways::Way;
use border_levels::Model;
use graph_draft::{Point, Size};
use route_curves::Along;
use std::alloc::{AllocError, Global};
use std::collections::BTreeMap;

/// A level whose pieces are led on to the border of its node. Places are measured from the node's corner.
#[derive(Drop)]
pub struct Led {
    /// The size of the node.
    pub size: Size,
    /// How far the content of the level is moved.
    pub shift: Point,
    /// The points that are added to pieces, by the numbers of these.
    pub ends: BTreeMap<usize, Ends>,
    /// Where along its side each crossing lies, by its number.
    pub pins: BTreeMap<usize, f64>,
}

/// The points that are added to a piece. A list is empty if that end doesn't lie at the border.
#[derive(Drop)]
pub struct Ends {
    /// The points before its first one, from the border on.
    pub from: Vec<Point>,
    /// The points behind its last one, as far as the border.
    pub to: Vec<Point>,
}

// The points that a bundle adds to one of its pieces.
fn points_of(
    alloc: Global,
    ring: &Ring,
    bundle: &Bundle,
    net: Net,
    way: &Way,
) -> Result<Vec<Point>, AllocError> {
    let mut points = Vec::new(alloc);
    if bundle.turn.is_none() && net.pin == bundle.at {
        if let Some(last) = way.points.last() {
            points.push(ring.point_at(*last))?;
        }
        return Ok(points);
    }
    points.push(ring.point_at(Along {
        u: way.slot,
        v: net.pin,
    }))?;
    for point in way.points.iter() {
        points.push(ring.point_at(*point))?;
    }
    if net.end == LevelEnd::First {
        points.reverse();
    }
    Ok(points)
}

fn add_points(
    alloc: Global,
    ends: &mut BTreeMap<usize, Ends>,
    net: Net,
    points: Vec<Point>,
) -> Result<(), AllocError> {
    if ends.get(&net.piece).is_none() {
        let none = Ends {
            from: Vec::new(alloc),
            to: Vec::new(alloc),
        };
        ends.insert(net.piece, none)?;
    }
    if let Some(ends) = ends.get_mut(&net.piece) {
        match net.end {
            LevelEnd::First => ends.from = points,
            LevelEnd::Last => ends.to = points,
        }
    }
    Ok(())
}

/// Leads what arrives at the columns of a level on to the border of its node, which is at least so large.
pub fn led_on(
    alloc: Global,
    model: &Model,
    content: &Content<'_>,
    least: Size,
) -> Result<Led, AllocError> {
    let ring = Ring::of(alloc, model, content, least)?;
    let mut led = Led {
        size: ring.node_size(),
        shift: ring.shift(),
        ends: BTreeMap::new(alloc),
        pins: BTreeMap::new(alloc),
    };
    for bundle in ring.bundles.iter() {
        let way = ring.way_of(alloc, bundle)?;
        if let Some(last) = way.points.last() {
            let pin = ring.offset_of(bundle.side, *last);
            led.pins.insert(bundle.crossing, pin)?;
        }
        for net in bundle.nets.iter() {
            let points = points_of(alloc, &ring, bundle, *net, &way)?;
            add_points(alloc, &mut led.ends, *net, points)?;
        }
    }
    Ok(led)
}
