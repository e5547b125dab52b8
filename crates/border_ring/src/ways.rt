//! The ways of bundles from the columns of a level to the border.

use crate::bundles::{Bundle, LevelEnd, LevelSide, NEAR};
use crate::ring::Ring;
use graph_draft::Side;
use route_curves::Along;
use std::alloc::{AllocError, Global};

// How far beside its place a line may run if something else is there, the best first.
const BESIDE: [f64; 9] = [0.0, 1.0, -1.0, 2.0, -2.0, 3.0, -3.0, 4.0, -4.0];

// The way of a bundle in the frame of its level.
#[derive(Drop)]
pub(crate) struct Way {
    // Where its vertical runs.
    pub(crate) slot: f64,
    // Its points from there on. The last one lies at the border.
    pub(crate) points: Vec<Along>,
}

impl Ring {
    // Where a point lies along a side of the node.
    pub(crate) fn offset_of(&self, side: Side, point: Along) -> f64 {
        side.down(self.point_at(point))
    }

    // Whether a vertical runs on to another place with its own port.
    fn is_at_port(&self, bundle: &Bundle, u: f64) -> bool {
        for other in self.bundles.iter() {
            if other.number != bundle.number && other.takes_lane() {
                let given = self.place_along(other.given.unwrap_or(0.0));
                if (given - u).abs() < NEAR {
                    return true;
                }
            }
        }
        false
    }

    // Whether a vertical that turns to a side meets another port there.
    fn is_near_port(&self, bundle: &Bundle, point: Along) -> bool {
        let at = self.offset_of(bundle.side, point);
        for port in self.ports.iter() {
            let is_other = port.side == bundle.side && bundle.given != Some(port.at);
            if is_other && (port.at - at).abs() < NEAR {
                return true;
            }
        }
        false
    }

    // Whether a lane runs over a line that leads to an end of the level.
    fn is_on_line(&self, v: f64) -> bool {
        for bundle in self.bundles.iter() {
            if bundle.turn.is_none() {
                let is_near = (bundle.at - v).abs() < NEAR;
                if is_near || bundle.is_met(0.0, v) {
                    return true;
                }
            }
        }
        false
    }

    // Where the vertical of a bundle runs: at its slot, or a little beside it if that meets something. `border` is the height of the
    // side to which it turns.
    fn free_slot(&self, bundle: &Bundle, border: Option<f64>) -> f64 {
        let column = self.column_at(bundle.end);
        let slot = match bundle.end {
            LevelEnd::First => column - bundle.slot,
            LevelEnd::Last => column + bundle.slot,
        };
        for more in BESIDE {
            let u = slot + more;
            let is_near = match border {
                Some(v) => self.is_near_port(bundle, Along { u, v }),
                None => false,
            };
            if !is_near && !self.is_at_port(bundle, u) {
                return u;
            }
        }
        slot
    }

    // Where the lane of a bundle runs.
    fn free_lane(&self, bundle: &Bundle, side: LevelSide) -> f64 {
        let away = self.label_rooms.beside(side) + bundle.lane;
        let lane = match side {
            LevelSide::Low => away,
            LevelSide::High => self.size.v - away,
        };
        for more in BESIDE {
            if !self.is_on_line(lane + more) {
                return lane + more;
            }
        }
        lane
    }

    // The way of a bundle that turns to a side across the direction.
    fn way_across(
        &self,
        alloc: Global,
        bundle: &Bundle,
        side: LevelSide,
    ) -> Result<Way, AllocError> {
        let border = match side {
            LevelSide::Low => 0.0,
            LevelSide::High => self.size.v,
        };
        let slot = self.free_slot(bundle, Some(border));
        let mut points = Vec::new(alloc);
        let mut u = slot;
        if bundle.takes_lane() {
            let v = self.free_lane(bundle, side);
            points.push(Along { u, v })?;
            u = self.place_along(bundle.given.unwrap_or(0.0));
            points.push(Along { u, v })?;
        }
        points.push(Along { u, v: border })?;
        Ok(Way { slot, points })
    }

    // The way by which a bundle leads on from its columns.
    pub(crate) fn way_of(&self, alloc: Global, bundle: &Bundle) -> Result<Way, AllocError> {
        if let Some(side) = bundle.turn {
            return self.way_across(alloc, bundle, side);
        }
        let slot = self.free_slot(bundle, None);
        let border = match bundle.end {
            LevelEnd::First => 0.0,
            LevelEnd::Last => self.size.u,
        };
        let v = bundle.at;
        let points = vec![in alloc; Along { u: slot, v }, Along { u: border, v }]?;
        Ok(Way { slot, points })
    }
}
