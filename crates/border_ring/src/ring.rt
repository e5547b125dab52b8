//! The layout of the ring around a level, in the level's frame: u and v are measured from the corner of the node.

use crate::bundles::{Bundle, LevelEnd, LevelSide, NEAR, PlacedPort, bundles_of, placed_ports};
use crate::heights::{
    keep_apart, keep_order, keep_room_for_labels, move_across, on_axis_at, shift_across,
};
use crate::rectangles::{Bounds, Reach};
use crate::rooms::Rooms;
use crate::slots::{in_order_of_slots, out_of_order};
use border_levels::{Model, PortRule};
use graph_draft::{Direction, Element, Point, Size, rounded};
use label_room::{Padding, padding_in};
use route_curves::{Along, Frame};
use std::alloc::{AllocError, Global};
use std::num::nearest_usize_to_f64;

// The room between two slots, and between two lanes.
const STEP: f64 = 10.0;

const ENDS: [LevelEnd; 2] = [LevelEnd::First, LevelEnd::Last];

/// What stands in a level between its borders.
#[derive(Clone, Copy, Drop)]
pub struct Content<'a> {
    pub level: usize,
    /// The pieces at the level, by their numbers in the model.
    pub pieces: &'a [usize],
    /// The points of each piece, as far as the columns of the level reach.
    pub cut: &'a [Vec<Point>],
    /// The rectangle around everything.
    pub bounds: Bounds,
    /// The padding of the level's node.
    pub padding: Padding,
}

// The ring around the content of a level.
#[derive(Drop)]
pub(crate) struct Ring {
    pub(crate) direction: Direction,
    pub(crate) bundles: Vec<Bundle>,
    pub(crate) ports: Vec<PlacedPort>,
    pub(crate) label_rooms: Rooms,
    rooms: Rooms,
    // How far the content reaches, before it is moved.
    reach: Reach,
    // Whether ports of the node are in a fixed order.
    is_ranked: bool,
    // Bundles whose ports need places of their own, one list for each side.
    out_of_order: Vec<Vec<usize>>,
    // How far the content is moved across the direction.
    shift: f64,
    // The size of the node.
    pub(crate) size: Along,
    // Where the columns of the level begin and end.
    columns: (f64, f64),
}

// The room at each side that labels within a level's node take: what its padding has beyond the one that is asked for.
fn label_rooms(model: &Model, content: &Content<'_>) -> Padding {
    let level = content.level;
    let asked = padding_in(model.draft.option(Element::Node(level), "padding"), 12.0);
    let (ports, padding) = (model.label_rooms_of(level), content.padding);
    Padding {
        top: (padding.top - asked.top).max(ports.top),
        left: (padding.left - asked.left).max(ports.left),
        bottom: (padding.bottom - asked.bottom).max(ports.bottom),
        right: (padding.right - asked.right).max(ports.right),
    }
}

impl Ring {
    // The ring of a level whose node is at least so large.
    pub(crate) fn of(
        alloc: Global,
        model: &Model,
        content: &Content<'_>,
        least: Size,
    ) -> Result<Ring, AllocError> {
        let level = content.level;
        let direction = model.direction_of(level);
        let frame = Frame(direction);
        let mut ring = Ring {
            direction,
            bundles: bundles_of(alloc, model, content)?,
            ports: placed_ports(alloc, model, level)?,
            label_rooms: Rooms::of(direction, label_rooms(model, content)),
            rooms: Rooms::of(direction, content.padding),
            reach: content.bounds.reach(frame),
            is_ranked: model.rule_of(level) == PortRule::FixedOrder,
            out_of_order: Vec::new(alloc),
            shift: 0.0,
            size: if direction.is_level() {
                Along {
                    u: least.width,
                    v: least.height,
                }
            } else {
                Along {
                    u: least.height,
                    v: least.width,
                }
            },
            columns: (0.0, 0.0),
        };
        ring.find_moved(alloc)?;
        ring.shift_content(alloc)?;
        ring.lay_across(alloc)?;
        ring.lay_along(alloc)?;
        ring.place_moved();
        ring.number_lanes();
        Ok(ring)
    }

    fn is_backward(&self) -> bool {
        matches!(self.direction, Direction::Left | Direction::Up)
    }

    // Finds the bundles whose ports need places of their own.
    fn find_moved(&mut self, alloc: Global) -> Result<(), AllocError> {
        if !self.is_ranked {
            return Ok(());
        }
        let before = if self.is_backward() {
            LevelEnd::Last
        } else {
            LevelEnd::First
        };
        self.out_of_order = out_of_order(alloc, self.bundles.as_slice(), before)?;
        for list in self.out_of_order.iter() {
            for at in list.iter() {
                if let Some(bundle) = self.bundles.get_mut(*at) {
                    bundle.is_moved = true;
                }
            }
        }
        Ok(())
    }

    // The room for the lanes at one side across the direction.
    fn strip(&self, side: LevelSide) -> f64 {
        let mut strip = 0.0;
        for bundle in self.bundles.iter() {
            if bundle.turn == Some(side) && bundle.takes_lane() {
                strip += STEP;
            }
        }
        strip
    }

    // How far the content is moved across the direction.
    fn shift_content(&mut self, alloc: Global) -> Result<(), AllocError> {
        if self.is_ranked {
            for end in ENDS {
                let list = on_axis_at(alloc, self.bundles.as_slice(), end)?;
                keep_order(alloc, self.bundles.as_mut_slice(), list.as_slice())?;
            }
        }
        let nearest = self.rooms.beside(LevelSide::Low) + self.strip(LevelSide::Low);
        let nearest = nearest - self.reach.v0;
        let shift = shift_across(self.bundles.as_slice(), self.ports.as_slice(), nearest);
        let room = self.rooms.beside(LevelSide::High);
        let needs = self.reach.v1 + shift + room + self.strip(LevelSide::High);
        self.size.v = needs.max(self.size.v);
        self.shift = shift;
        for bundle in self.bundles.iter_mut() {
            move_across(alloc, bundle, shift)?;
        }
        Ok(())
    }

    // The heights at which bundles cross the border at the ends of the level.
    fn lay_across(&mut self, alloc: Global) -> Result<(), AllocError> {
        for end in ENDS {
            let list = on_axis_at(alloc, self.bundles.as_slice(), end)?;
            keep_apart(alloc, self.bundles.as_mut_slice(), list.as_slice())?;
            keep_room_for_labels(alloc, self.bundles.as_mut_slice(), list.as_slice())?;
        }
        let mut needs = self.size.v;
        for bundle in self.bundles.iter_mut() {
            if bundle.turn.is_none() {
                let at = bundle.at;
                needs = needs.max(at + bundle.label_room + NEAR);
                bundle.is_straight = bundle.nets.iter().all(|net| net.pin == at);
            }
        }
        self.size.v = needs;
        Ok(())
    }

    // Gives slots to what bends at an end of the level. It answers the room between the columns and the border there.
    fn lay_slots(&mut self, alloc: Global, end: LevelEnd) -> Result<f64, AllocError> {
        let bent = in_order_of_slots(alloc, self.bundles.as_slice(), end, self.is_ranked)?;
        let mut slot = 0.0;
        for at in bent.iter() {
            slot += STEP;
            if let Some(bundle) = self.bundles.get_mut(*at) {
                bundle.slot = slot;
            }
        }
        Ok(self.rooms.at(end) + slot)
    }

    // The vertical of a bundle that turns to a side across the direction at its slot, with the room of the labels that stand behind it
    // in the document; none where there are no labels. The columns begin and end where it is told.
    fn labelled_slot(&self, bundle: &Bundle, first: f64, end: f64) -> Option<(f64, f64)> {
        let is_there = bundle.turn.is_some() && !bundle.takes_lane() && bundle.label_room > 0.0;
        if !is_there {
            return None;
        }
        let slot = match bundle.end {
            LevelEnd::First => first - bundle.slot,
            LevelEnd::Last => end + bundle.slot,
        };
        Some((slot, bundle.label_room + NEAR))
    }

    // How far labels of ports at the sides across the direction reach along it.
    fn end_of_labels(&self, first: f64, end: f64) -> f64 {
        let mut most: f64 = 0.0;
        for bundle in self.bundles.iter() {
            if let Some((slot, room)) = self.labelled_slot(bundle, first, end) {
                most = most.max(slot + room);
            }
        }
        most
    }

    // How much further behind the first end the columns have to begin, so that labels of ports at the sides across the direction, which
    // stand before their verticals where the direction leads to the left or up, lie within the node.
    fn lack_of_labels(&self, first: f64) -> f64 {
        let end = first + (self.reach.u1 - self.reach.u0);
        let mut lack: f64 = 0.0;
        for bundle in self.bundles.iter() {
            if let Some((slot, room)) = self.labelled_slot(bundle, first, end) {
                lack = lack.max(room - slot);
            }
        }
        lack
    }

    // The room of the longest labels at the ports of some bundles.
    fn longest_label(&self, list: &[usize]) -> f64 {
        let mut longest: f64 = 0.0;
        for at in list {
            if let Some(bundle) = self.bundles.get(*at) {
                longest = longest.max(bundle.label_room);
            }
        }
        longest
    }

    // The columns, with room for the slots.
    fn lay_along(&mut self, alloc: Global) -> Result<(), AllocError> {
        let mut first = self.lay_slots(alloc, LevelEnd::First)?;
        let last = self.lay_slots(alloc, LevelEnd::Last)?;
        if self.is_backward() {
            first += self.lack_of_labels(first);
        }
        let end = first + (self.reach.u1 - self.reach.u0);
        let mut needs = self.size.u.max(end + last);
        if !self.is_backward() {
            needs = needs.max(self.end_of_labels(first, end));
        }
        for list in self.out_of_order.iter() {
            let step = STEP.max(self.longest_label(list.as_slice()));
            needs = needs.max(step * (nearest_usize_to_f64(list.len()) + 1.0));
        }
        self.size.u = needs;
        self.columns = (first, end);
        Ok(())
    }

    // Spreads the ports that need places of their own along their sides.
    fn place_moved(&mut self) {
        for list in self.out_of_order.iter() {
            let parts = nearest_usize_to_f64(list.len()) + 1.0;
            let mut part = 0.0;
            for at in list.iter() {
                part += 1.0;
                if let Some(bundle) = self.bundles.get_mut(*at) {
                    bundle.given = Some(rounded((self.size.u * part) / parts));
                }
            }
        }
    }

    // Gives lanes to what leads to its place at a side across the direction.
    fn number_lanes(&mut self) {
        let (mut low, mut high) = (0.0, 0.0);
        for bundle in self.bundles.iter_mut() {
            if bundle.takes_lane() {
                if bundle.turn == Some(LevelSide::Low) {
                    low += STEP;
                    bundle.lane = low;
                } else {
                    high += STEP;
                    bundle.lane = high;
                }
            }
        }
    }

    // Where the columns of the level begin or end.
    pub(crate) fn column_at(&self, end: LevelEnd) -> f64 {
        let (first, last) = self.columns;
        match end {
            LevelEnd::First => first,
            LevelEnd::Last => last,
        }
    }

    // Where in the frame a place along a side across the direction lies.
    pub(crate) fn place_along(&self, place: f64) -> f64 {
        if self.is_backward() {
            self.size.u - place
        } else {
            place
        }
    }

    // A point of the frame, measured from the node's corner.
    pub(crate) fn point_at(&self, point: Along) -> Point {
        let Point { x, y } = Frame(self.direction).back(point);
        match self.direction {
            Direction::Left => Point {
                x: x + self.size.u,
                y,
            },
            Direction::Up => Point {
                x,
                y: y + self.size.u,
            },
            _ => Point { x, y },
        }
    }

    // How far the content is moved.
    pub(crate) fn shift(&self) -> Point {
        self.point_at(Along {
            u: self.column_at(LevelEnd::First) - self.reach.u0,
            v: self.shift,
        })
    }

    // The size of the node.
    pub(crate) fn node_size(&self) -> Size {
        let Along { u, v } = self.size;
        if self.direction.is_level() {
            Size {
                width: u,
                height: v,
            }
        } else {
            Size {
                width: v,
                height: u,
            }
        }
    }
}
