//! Where along the sides of a node what stands at it has its lines.

use crate::sorting::sort_among;
use crate::spots::{PinnedSpot, SpotKey};
use border_levels::{Model, PortRule, line_of};
use graph_draft::{Element, Point, Side, Size, rounded};
use std::alloc::{AllocError, Global};
use std::cmp::OrderedFloat;
use std::collections::BTreeMap;
use std::num::nearest_i64_to_f64;

// How far from its neighbours something stands if there is room, and how far if there is less.
const CLEARANCES: [f64; 5] = [10.0, 7.0, 5.0, 3.0, NEAREST];

const NEAREST: f64 = 2.0;

/// What is known of the places of lines at a node, from its corner on along the side.
#[derive(Clone, Copy, Drop)]
pub struct Pins<'a> {
    /// By crossing where the border is crossed.
    pub pins: &'a BTreeMap<usize, f64>,
    /// Where the level around wants the rest.
    pub wishes: &'a BTreeMap<SpotKey, f64>,
}

// Something at one side of a node.
#[derive(Clone, Copy, Drop)]
struct Standing {
    // Its place among all that stands at the node.
    place: usize,
    key: SpotKey,
    // Where it comes among the ports of the side, if these are in a fixed order.
    rank: Option<i64>,
    // The room along the side behind its line that its labels take within the node.
    room: f64,
    // Where its line lies, once that is known.
    line: Option<f64>,
}

// A part of a side.
#[derive(Clone, Copy, Drop)]
struct Stretch {
    from: f64,
    to: f64,
}

impl Stretch {
    fn length(self) -> f64 {
        self.to - self.from
    }
}

fn rank_in(model: &Model, node: usize, spot: &PinnedSpot) -> Option<i64> {
    match spot.port {
        Some(port) if model.rule_of(node) == PortRule::FixedOrder => Some(model.port(port).rank),
        _ => None,
    }
}

// Where the line of a spot lies as far as that is known from within.
fn line_in(
    model: &Model,
    node: usize,
    spot: &PinnedSpot,
    pins: &BTreeMap<usize, f64>,
) -> Option<f64> {
    if let Some(crossing) = spot.crossing {
        if let Some(pin) = pins.get(&crossing) {
            return Some(*pin);
        }
    }
    match spot.port {
        Some(port) if model.rule_of(node) == PortRule::FixedPos => {
            Some(line_of(&model.draft, port, spot.side))
        }
        _ => None,
    }
}

fn standing_at(
    alloc: Global,
    model: &Model,
    node: usize,
    side: Side,
    spots: &[PinnedSpot],
    pins: &BTreeMap<usize, f64>,
) -> Result<Vec<Standing>, AllocError> {
    let mut here = Vec::new(alloc);
    for (place, spot) in spots.iter().enumerate() {
        if spot.side == side {
            here.push(Standing {
                place,
                key: spot.key,
                rank: rank_in(model, node, spot),
                room: match spot.port {
                    Some(port) => model.port(port).length,
                    None => 0.0,
                },
                line: line_in(model, node, spot, pins),
            })?;
        }
    }
    Ok(here)
}

// What has no line yet: first the ports in a fixed order, in that order.
fn without_lines(alloc: Global, here: &[Standing]) -> Result<Vec<usize>, AllocError> {
    let mut rest = Vec::new(alloc);
    let mut ranks = Vec::new(alloc);
    for (at, it) in here.iter().enumerate() {
        if it.line.is_none() {
            ranks.push((
                rest.len(),
                match it.rank {
                    Some(rank) => nearest_i64_to_f64(rank),
                    None => f64::INFINITY,
                },
            ))?;
            rest.push(at)?;
        }
    }
    sort_among(alloc, rest.as_mut_slice(), ranks.as_slice())?;
    Ok(rest)
}

// How many ports in a fixed order have no line yet.
fn ranked_without_lines(here: &[Standing]) -> f64 {
    let mut count = 0.0;
    for it in here {
        if it.rank.is_some() && it.line.is_none() {
            count += 1.0;
        }
    }
    count
}

// Where something may stand: if it is a port in a fixed order, behind what comes before it, and before what comes behind it.
fn stretch_for(it: Standing, length: f64, here: &[Standing]) -> Stretch {
    let mut stretch = Stretch {
        from: 0.0,
        to: length,
    };
    for other in here {
        if let (Some(rank), Some(others), Some(line)) = (it.rank, other.rank, other.line) {
            if others < rank {
                stretch.from = stretch.from.max(line);
            } else if others > rank {
                stretch.to = stretch.to.min(line);
            }
        }
    }
    stretch
}

// How much room something takes behind its line, whether that of others counts, and how long a gap has to be for its line.
#[derive(Clone, Copy, Drop)]
struct Need {
    own: f64,
    with_others: bool,
    least: f64,
}

// The gaps of a stretch between the lines in it that meet a need.
fn gaps_for(
    alloc: Global,
    stretch: Stretch,
    here: &[Standing],
    need: Need,
) -> Result<Vec<Stretch>, AllocError> {
    let mut lines = Vec::new(alloc);
    for it in here {
        if let Some(line) = it.line {
            if stretch.from < line && line < stretch.to {
                let room = if need.with_others { it.room } else { 0.0 };
                lines.push((line, room))?;
            }
        }
    }
    lines.push((stretch.to, 0.0))?;
    lines.sort_by_key(|(line, _)| OrderedFloat(*line))?;
    let mut gaps = Vec::new(alloc);
    let mut from = stretch.from;
    for (line, room) in lines.iter() {
        let to = *line - need.own;
        if to - from >= need.least {
            gaps.push(Stretch { from, to })?;
        }
        from = *line + *room;
    }
    Ok(gaps)
}

// The gaps of a stretch of a side in which something has its room and leaves others theirs; if there is none, those between the lines
// alone, as far as its labels don't reach beyond the side.
fn gaps_in(
    alloc: Global,
    stretch: Stretch,
    length: f64,
    here: &[Standing],
    own: f64,
) -> Result<Vec<Stretch>, AllocError> {
    let wide = 2.0 * NEAREST;
    for (with_others, least) in [(true, wide), (false, wide), (false, NEAREST)] {
        let need = Need {
            own,
            with_others,
            least,
        };
        let gaps = gaps_for(alloc, stretch, here, need)?;
        if !gaps.is_empty() {
            return Ok(gaps);
        }
    }
    let need = Need {
        own: 0.0,
        with_others: false,
        least: f64::NEG_INFINITY,
    };
    let short = Stretch {
        to: stretch.to.min(length - own),
        ..stretch
    };
    let stretch = if short.length() >= NEAREST {
        short
    } else {
        stretch
    };
    gaps_for(alloc, stretch, here, need)
}

fn is_nearer(place: f64, wish: f64, best: Option<f64>) -> bool {
    match best {
        Some(best) => (place - wish).abs() < (best - wish).abs(),
        None => true,
    }
}

// The place nearest to a wish that is so far from both ends of its gap, where `share` things need so much room each.
fn nearest_to(wish: f64, gaps: &[Stretch], clear: f64, share: f64) -> Option<f64> {
    let mut best = None;
    for gap in gaps {
        if gap.length() >= clear * (share + 1.0) {
            let place = rounded(wish)
                .max(gap.from + clear)
                .min(gap.to - clear * share);
            if is_nearer(place, wish, best) {
                best = Some(place);
            }
        }
    }
    best
}

// A place in the widest gap.
fn place_in_widest(gaps: &[Stretch], share: f64) -> f64 {
    let mut widest = Stretch { from: 0.0, to: 0.0 };
    for (at, gap) in gaps.iter().enumerate() {
        if at == 0 || gap.length() > widest.length() {
            widest = *gap;
        }
    }
    (widest.from + widest.length() / (share + 1.0)).floor()
}

// A place in gaps: near its wish, or else in the widest gap. Of a gap that several share it is in the first part.
fn place_for(gaps: &[Stretch], wish: Option<f64>, share: f64) -> f64 {
    if let Some(wish) = wish {
        for clear in CLEARANCES {
            if let Some(place) = nearest_to(wish, gaps, clear, share) {
                return place;
            }
        }
    }
    place_in_widest(gaps, share)
}

// Gives lines to what has none.
fn place_rest(
    alloc: Global,
    mut here: Vec<Standing>,
    length: f64,
    wishes: &BTreeMap<SpotKey, f64>,
) -> Result<Vec<Standing>, AllocError> {
    for at in without_lines(alloc, here.as_slice())? {
        if let Some(it) = here.get(at).copied() {
            let share = if it.rank.is_some() {
                ranked_without_lines(here.as_slice())
            } else {
                1.0
            };
            let stretch = stretch_for(it, length, here.as_slice());
            let gaps = gaps_in(alloc, stretch, length, here.as_slice(), it.room)?;
            let wish = wishes.get(&it.key).copied();
            let line = place_for(gaps.as_slice(), wish, share);
            if let Some(it) = here.get_mut(at) {
                it.line = Some(line);
            }
        }
    }
    Ok(here)
}

/// Where the ports of a node with an open level stand, from its corner on: first what is known from within has its lines, then the rest
/// gets its own between them. There is one place for each spot.
pub fn pinned_places(
    alloc: Global,
    model: &Model,
    node: usize,
    size: Size,
    spots: &[PinnedSpot],
    known: Pins<'_>,
) -> Result<Vec<Point>, AllocError> {
    let mut places = vec![in alloc; Point { x: 0.0, y: 0.0 }; spots.len()]?;
    for side in Side::ALL {
        let here = standing_at(alloc, model, node, side, spots, known.pins)?;
        for it in place_rest(alloc, here, side.along(size), known.wishes)? {
            let port = match spots.get(it.place) {
                Some(spot) => size_of(model, spot),
                None => Size::NONE,
            };
            if let (Some(place), Some(line)) = (places.get_mut(it.place), it.line) {
                *place = side.place_at(port, line - side.middle(port), 0.0, size);
            }
        }
    }
    Ok(places)
}

fn size_of(model: &Model, spot: &PinnedSpot) -> Size {
    match spot.port {
        Some(port) => model.draft.size_of(Element::Port(port)),
        None => Size::NONE,
    }
}
