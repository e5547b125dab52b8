//! The points of sections, and the routes through sections that follow one another.

use crate::element::{elements_of, has_items, place_of};
use crate::geometry::Point;
use crate::ids::{Key, key_of};
use crate::levels::{Edge, Levels};
use crate::ways::turns_of;
use serde_json::Value;
use std::alloc::{AllocError, Global};
use std::collections::BTreeMap;

// The most steps from section to section of one edge. No drawing has more, unless its sections branch again and again.
const MOST_STEPS: usize = 65536;

// A section, with its points from its start to its end.
#[derive(Drop)]
pub(crate) struct Section<'a> {
    pub(crate) value: &'a Value,
    pub(crate) points: Vec<Point>,
}

// A route of an edge from one node to another, in the whole drawing.
#[derive(Drop)]
pub(crate) struct Route {
    pub(crate) edge: usize,
    pub(crate) points: Vec<Point>,
    pub(crate) turns: Vec<Point>,
    pub(crate) source: Option<usize>,
    pub(crate) target: Option<usize>,
}

// A section on a chain, and how many of those behind it have been followed.
#[derive(Clone, Copy, Drop)]
struct Link {
    section: usize,
    followed: usize,
}

fn push_point(points: &mut Vec<Point>, point: Point) -> Result<(), AllocError> {
    match points.last() {
        Some(last) if last.is_at(point) => Ok(()),
        _ => {
            points.push(point)?;
            Ok(())
        }
    }
}

// Adds the points of a section, from its start to its end. A section without places has none.
fn add_points(alloc: Global, section: &Value, points: &mut Vec<Point>) -> Result<(), AllocError> {
    match (section.get("startPoint"), section.get("endPoint")) {
        (Some(start), Some(end)) if start.is_object() && end.is_object() => {
            push_point(points, place_of(start))?;
            for bend in elements_of(alloc, section, "bendPoints")? {
                push_point(points, place_of(bend))?;
            }
            push_point(points, place_of(end))
        }
        _ => Ok(()),
    }
}

fn points_of(alloc: Global, section: &Value) -> Result<Vec<Point>, AllocError> {
    let mut points = Vec::new(alloc);
    add_points(alloc, section, &mut points)?;
    Ok(points)
}

// The sections of an edge, in document order.
pub(crate) fn sections_of(alloc: Global, edge: &Value) -> Result<Vec<Section<'_>>, AllocError> {
    let mut sections = Vec::new(alloc);
    for value in elements_of(alloc, edge, "sections")? {
        let points = points_of(alloc, value)?;
        sections.push(Section { value, points })?;
    }
    Ok(sections)
}

// The numbers of sections by their ids. The last one of an id counts. A section alone is never looked for.
fn numbers_of<'a>(
    alloc: Global,
    sections: &[Section<'a>],
) -> Result<BTreeMap<Key<'a>, usize>, AllocError> {
    let mut numbers = BTreeMap::new(alloc);
    if sections.len() > 1 {
        for (at, section) in sections.iter().enumerate() {
            if let Some(key) = key_of(section.value.get("id")) {
                numbers.insert(key, at)?;
            }
        }
    }
    Ok(numbers)
}

fn number_of<'a>(numbers: &BTreeMap<Key<'a>, usize>, id: &'a Value) -> Option<usize> {
    match key_of(Some(id)) {
        Some(key) => numbers.get(&key).copied(),
        None => None,
    }
}

// The sections that follow one, by their numbers.
fn next_of<'a>(
    alloc: Global,
    numbers: &BTreeMap<Key<'a>, usize>,
    section: &'a Value,
) -> Result<Vec<usize>, AllocError> {
    let mut next = Vec::new(alloc);
    if let Some(ids) = section.get("outgoingSections").and_then(Value::as_array) {
        for id in ids {
            if let Some(at) = number_of(numbers, id) {
                next.push(at)?;
            }
        }
    }
    Ok(next)
}

fn points_along(
    alloc: Global,
    sections: &[Section<'_>],
    chain: &[Link],
    origin: Point,
) -> Result<Vec<Point>, AllocError> {
    let mut points = Vec::new(alloc);
    for link in chain {
        if let Some(section) = sections.get(link.section) {
            for point in section.points.iter() {
                push_point(&mut points, *point)?;
            }
        }
    }
    for point in points.iter_mut() {
        *point = point.moved(origin);
    }
    Ok(points)
}

fn route_along<'a>(
    alloc: Global,
    (number, edge): (usize, &Edge<'a>),
    chain: &[Link],
    levels: &Levels<'a>,
) -> Result<Route, AllocError> {
    let sections = edge.sections.as_slice();
    let points = points_along(alloc, sections, chain, levels.origin_of(edge.home))?;
    let turns = turns_of(alloc, points.as_slice())?;
    // If there are several sections, each one names its own ends.
    let (source, target) = if sections.len() == 1 {
        (edge.source, edge.target)
    } else {
        (
            shape_at(sections, chain.first(), "incomingShape", levels),
            shape_at(sections, chain.last(), "outgoingShape", levels),
        )
    };
    Ok(Route {
        edge: number,
        points,
        turns,
        source,
        target,
    })
}

fn shape_at<'a>(
    sections: &[Section<'a>],
    link: Option<&Link>,
    key: &str,
    levels: &Levels<'a>,
) -> Option<usize> {
    let section = sections.get(link?.section)?;
    levels.ids.node_of(section.value.get(key))
}

fn is_on(chain: &[Link], section: usize) -> bool {
    chain.iter().any(|link| link.section == section)
}

// The next section behind the end of a chain that is not on it, and the number of those behind it that are then followed.
fn step_from(chain: &[Link], next: &[Vec<usize>]) -> Option<Link> {
    let last = chain.last()?;
    let behind = next.get(last.section)?;
    for at in last.followed..behind.len() {
        if !is_on(chain, behind[at]) {
            return Some(Link {
                section: behind[at],
                followed: at.saturating_add(1),
            });
        }
    }
    None
}

fn chains_from<'a>(
    alloc: Global,
    first: usize,
    edge: (usize, &Edge<'a>),
    next: &[Vec<usize>],
    levels: &Levels<'a>,
    routes: &mut Vec<Route>,
) -> Result<(), AllocError> {
    let mut chain = Vec::new(alloc);
    chain.push(Link {
        section: first,
        followed: 0,
    })?;
    for _ in 0..MOST_STEPS {
        match step_from(chain.as_slice(), next) {
            Some(step) => {
                if let Some(last) = chain.last_mut() {
                    last.followed = step.followed;
                }
                chain.push(Link {
                    section: step.section,
                    followed: 0,
                })?;
            }
            None => {
                let is_end = match chain.last() {
                    Some(last) => last.followed == 0,
                    None => return Ok(()),
                };
                if is_end {
                    routes.push(route_along(alloc, edge, chain.as_slice(), levels)?)?;
                }
                chain.pop();
            }
        }
    }
    Ok(())
}

// Adds the routes of an edge, from each section without one before it to each without one after it.
pub(crate) fn add_routes<'a>(
    alloc: Global,
    edge: (usize, &Edge<'a>),
    levels: &Levels<'a>,
    routes: &mut Vec<Route>,
) -> Result<(), AllocError> {
    let sections = edge.1.sections.as_slice();
    let numbers = numbers_of(alloc, sections)?;
    let mut next = Vec::new(alloc);
    for section in sections.iter() {
        next.push(next_of(alloc, &numbers, section.value)?)?;
    }
    for at in 0..sections.len() {
        if !has_items(sections[at].value, "incomingSections") {
            chains_from(alloc, at, edge, next.as_slice(), levels, routes)?;
        }
    }
    Ok(())
}
