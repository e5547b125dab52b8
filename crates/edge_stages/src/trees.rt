//! The tree of sections of routes that begin together: one section for each stretch along which the same of them run.

use graph_draft::{Kind, Point, Section, tidy};
use std::alloc::{AllocError, Global};
use std::cmp::OrderedFloat;
use std::collections::BTreeMap;

// A point of a line that runs along one of the axes: first the coordinate that all its points have, then the other one.
#[derive(Clone, Copy, Drop, PartialEq, Eq, PartialOrd, Ord)]
struct Spot {
    line: OrderedFloat<f64>,
    along: OrderedFloat<f64>,
}

fn spot_at(line: f64, along: f64) -> Spot {
    Spot {
        line: OrderedFloat(line),
        along: OrderedFloat(along),
    }
}

// The spot that is nearest to one place of a line, strictly between it and another place of the line.
fn nearest(spots: &[Spot], line: f64, from: f64, to: f64) -> Option<f64> {
    let here = spot_at(line, from);
    let at = if from < to {
        spots.partition_point(|spot| *spot <= here)
    } else {
        spots.partition_point(|spot| *spot < here).checked_sub(1)?
    };
    let found = spots.get(at)?;
    let along = found.along.0;
    let is_between = (from < along && along < to) || (to < along && along < from);
    if found.line == here.line && is_between {
        Some(along)
    } else {
        None
    }
}

// The bends of some routes, sorted along vertical and along horizontal lines.
#[derive(Drop)]
struct Bends {
    upright: Vec<Spot>,
    level: Vec<Spot>,
}

impl Bends {
    fn of(alloc: Global, routes: &[Vec<Point>]) -> Result<Bends, AllocError> {
        let mut upright = Vec::new(alloc);
        let mut level = Vec::new(alloc);
        for route in routes {
            for at in 1..route.len().saturating_sub(1) {
                if let Some(bend) = route.get(at) {
                    upright.push(spot_at(bend.x, bend.y))?;
                    level.push(spot_at(bend.y, bend.x))?;
                }
            }
        }
        upright.sort()?;
        level.sort()?;
        Ok(Bends { upright, level })
    }

    // The first bend on the way from one point to another; that other point if there is none between.
    fn next(&self, from: Point, to: Point) -> Point {
        if from.x == to.x {
            match nearest(self.upright.as_slice(), from.x, from.y, to.y) {
                Some(y) => Point { x: from.x, y },
                None => to,
            }
        } else if from.y == to.y {
            match nearest(self.level.as_slice(), from.y, from.x, to.x) {
                Some(x) => Point { x, y: from.y },
                None => to,
            }
        } else {
            to
        }
    }
}

// Routes from a common end on, and which point each of them has come to.
#[derive(Drop)]
struct Walk<'a> {
    routes: &'a [Vec<Point>],
    bends: Bends,
    reached: Vec<usize>,
}

// Some of the routes, by their numbers in ascending order, with the point to which all of them go next; no point for one that ends.
#[derive(Drop)]
struct Way {
    members: Vec<usize>,
    to: Option<Point>,
}

impl Walk<'_> {
    // The point of a route behind the one that it has come to.
    fn ahead(&self, route: usize) -> Option<Point> {
        let at = self.reached.get(route)?.checked_add(1)?;
        self.routes.get(route)?.get(at).copied()
    }

    // Where a route goes from a point on it: to its next point, or to a bend of another route before that.
    fn next(&self, route: usize, from: Point) -> Option<Point> {
        Some(self.bends.next(from, self.ahead(route)?))
    }

    fn step(&mut self, members: &[usize], to: Point) {
        for route in members {
            let is_reached = match self.ahead(*route) {
                Some(ahead) => ahead.is_at(to),
                None => false,
            };
            if let Some(reached) = self.reached.get_mut(*route) {
                if is_reached {
                    *reached = reached.saturating_add(1);
                }
            }
        }
    }

    fn goes_to(&self, route: usize, from: Point, to: Point) -> bool {
        match self.next(route, from) {
            Some(next) => next.is_at(to),
            None => false,
        }
    }

    // The ways on which routes go on from a point.
    fn ways(&self, alloc: Global, members: &[usize], from: Point) -> Result<Vec<Way>, AllocError> {
        let mut ways = Ways::none(alloc);
        for route in members {
            ways.add(alloc, *route, self.next(*route, from))?;
        }
        Ok(ways.list)
    }
}

// Ways, in the order in which they come up.
#[derive(Drop)]
struct Ways {
    list: Vec<Way>,
    places: BTreeMap<Spot, usize>,
}

impl Ways {
    fn none(alloc: Global) -> Ways {
        Ways {
            list: Vec::new(alloc),
            places: BTreeMap::new(alloc),
        }
    }

    // Adds a route to those that go to the same point. Each route that ends has a way of its own.
    fn add(&mut self, alloc: Global, route: usize, to: Option<Point>) -> Result<(), AllocError> {
        let next = self.list.len();
        let place = match to {
            Some(point) => *self
                .places
                .entry(spot_at(point.x, point.y))?
                .or_insert(next),
            None => next,
        };
        if place == next {
            let members = Vec::new(alloc);
            self.list.push(Way { members, to })?;
        }
        match self.list.get_mut(place) {
            Some(way) => Ok(way.members.push(route)?),
            None => Ok(()),
        }
    }
}

// A stretch along which some routes run together.
#[derive(Drop)]
struct Stretch {
    points: Vec<Point>,
    before: Option<usize>,
    after: Vec<usize>,
    // The first of its routes.
    route: usize,
}

// Routes that begin a stretch at a point.
#[derive(Drop)]
struct Branch {
    members: Vec<usize>,
    from: Point,
    before: Option<usize>,
}

impl Walk<'_> {
    // How far routes run together, and how they part there; no ways where a single route ends. Several may end at one point.
    fn run(
        &mut self,
        alloc: Global,
        members: &[usize],
        from: Point,
    ) -> Result<(Vec<Point>, Vec<Way>), AllocError> {
        let mut points = vec![in alloc; from]?;
        let mut here = from;
        for _ in 0..usize::MAX {
            let next = match members.first() {
                Some(first) => self.next(*first, here),
                None => None,
            };
            let next = match next {
                Some(next) => next,
                None => break,
            };
            if !members.iter().all(|route| self.goes_to(*route, here, next)) {
                return Ok((points, self.ways(alloc, members, here)?));
            }
            self.step(members, next);
            points.push(next)?;
            here = next;
        }
        let ways = if members.len() < 2 {
            Vec::new(alloc)
        } else {
            self.ways(alloc, members, here)?
        };
        Ok((points, ways))
    }

    // The branches at which routes begin, the last one first.
    fn roots(&self, alloc: Global) -> Result<Vec<Branch>, AllocError> {
        let mut ways = Ways::none(alloc);
        for (at, route) in self.routes.iter().enumerate() {
            ways.add(alloc, at, route.first().copied())?;
        }
        let mut roots = Vec::new(alloc);
        push_branches(&mut roots, ways.list, None, None)?;
        Ok(roots)
    }

    fn stretches(&mut self, alloc: Global) -> Result<Vec<Stretch>, AllocError> {
        let mut found: Vec<Stretch> = Vec::new(alloc);
        let mut waiting = self.roots(alloc)?;
        // Where a stretch doesn't end, routes part, so there are fewer than twice as many stretches as routes.
        for _ in 0..self.routes.len().saturating_mul(2) {
            let branch = match waiting.pop() {
                Some(branch) => branch,
                None => break,
            };
            let members = branch.members.as_slice();
            let (points, ways) = self.run(alloc, members, branch.from)?;
            let at = found.len();
            let here = points.last().copied();
            found.push(Stretch {
                points,
                before: branch.before,
                after: Vec::new(alloc),
                route: members.first().copied().unwrap_or(0),
            })?;
            if let Some(before) = branch.before {
                if let Some(stretch) = found.get_mut(before) {
                    stretch.after.push(at)?;
                }
            }
            push_branches(&mut waiting, ways, here, Some(at))?;
        }
        Ok(found)
    }
}

// Adds the branches of ways to those that wait, so that the first is taken first. Those without a stretch before them begin where
// their ways lead to.
fn push_branches(
    waiting: &mut Vec<Branch>,
    mut ways: Vec<Way>,
    here: Option<Point>,
    before: Option<usize>,
) -> Result<(), AllocError> {
    ways.reverse();
    for way in ways {
        if let Some(from) = here.or(way.to) {
            waiting.push(Branch {
                members: way.members,
                from,
                before,
            })?;
        }
    }
    Ok(())
}

fn section_of(alloc: Global, stretch: Stretch, stem: Kind) -> Result<Section, AllocError> {
    let mut points = tidy(alloc, stretch.points.as_slice())?;
    let only = match points.as_slice() {
        [only] => Some(*only),
        _ => None,
    };
    if let Some(only) = only {
        points.push(only)?;
    }
    let mut towards = Vec::new(alloc);
    if let Some(before) = stretch.before {
        towards.push(before)?;
    }
    let root = if stretch.before.is_none() {
        Some(0)
    } else {
        None
    };
    let tip = if stretch.after.is_empty() {
        Some(stretch.route)
    } else {
        None
    };
    if stem == Kind::Source {
        return Ok(Section {
            points,
            incoming: towards,
            outgoing: stretch.after,
            source: root,
            target: tip,
        });
    }
    points.reverse();
    Ok(Section {
        points,
        incoming: stretch.after,
        outgoing: towards,
        source: tip,
        target: root,
    })
}

/// The sections of routes that begin, or end, together; nothing if one of them has no points. The routes are in the order of the
/// edge's other ends.
pub(crate) fn sections_of(
    alloc: Global,
    mut routes: Vec<Vec<Point>>,
    stem: Kind,
) -> Result<Vec<Section>, AllocError> {
    let mut sections = Vec::new(alloc);
    if routes.iter().any(|route| route.is_empty()) {
        return Ok(sections);
    }
    if stem == Kind::Target {
        for route in routes.iter_mut() {
            route.reverse();
        }
    }
    let mut walk = Walk {
        routes: routes.as_slice(),
        bends: Bends::of(alloc, routes.as_slice())?,
        reached: vec![in alloc; 0; routes.len()]?,
    };
    for stretch in walk.stretches(alloc)? {
        sections.push(section_of(alloc, stretch, stem)?)?;
    }
    Ok(sections)
}
