//! The section of a trace.
ghost use Rattle.std.specs.Prelude.{◌≡◌, ◌+◌, ◌<◌, List, [], ◌∷◌, ◌++◌, map, length, ℕ, ℤ, drop, OnOk, IfOk};
ghost use Rattle.std.specs.List.{All};
ghost use Rattle.drawing_types.specs.declared.shape.Point.{Point};
ghost use Rattle.drawing_types.specs.Ranges.{IsNear};
ghost use Rattle.net_routes.specs.Pieces.{slot};
ghost use Rattle.route_lines.specs.Tidied.{IsTidied, IsSectionOf};
ghost use Rattle.route_lines.specs.Points.{PlainGap, plain_gap, stand, leg_points, net_leg, last_point, points_on, step_points, point_at, trace_points, height_next, IsStepIn, IsTrace, IsInRange, IsGapInRange, IsJoinOf};
ghost use Rattle.route_lines.specs.Waypoints.{points_in, waypoint_at};
ghost use Rattle.route_lines.specs.Path.{points_along};
ghost use Rattle.smallvec.specs.SmallVec.{small_vec_len};

use crate::tidying::Path;
use crate::{Gap, Step, Trace};
use drawing_types::section::Section;
use drawing_types::shape::Point;
use net_routes::NetRoute;
use smallvec::SmallVec;
use std::alloc::{AllocError, Global};

// A point of a trace.
#[derive(Clone, Copy, Default)]
struct Waypoint {
    x: i64,
    y: i64,
}

// The point.
fn point_of(waypoint: Waypoint) -> Point
    ensures { result ≡ waypoint_at waypoint }
{
    Point {
        x: waypoint.x,
        y: waypoint.y,
    }
}

// Most traces have few points.
type Waypoints = SmallVec<Waypoint, 16>;

// The x of a slot of the gap.
fn slot_x(gap: &Gap, number: u32) -> i64
    requires first { IsInRange gap.now.first }
    requires there { IsInRange (stand (plain_gap gap.now) (slot number)) }
    ensures { result ≡ stand (plain_gap gap.now) (slot number) }
{
    gap.first + i64::from(number) * gap.step
}

// The heights before and after a leg.
#[derive(Clone, Copy)]
struct Rise {
    before: i64,
    after: i64,
}

// One more point.
fn push_point(points: &mut Waypoints, point: Point) -> Result<(), AllocError>
    ensures { OnOk result (points_in points.new.items ≡ points_in points.old.items ++ point ∷ []) }
{
    points.push(Waypoint {
        x: point.x,
        y: point.y,
    })?;
    Ok(())
}

// Two more points.
fn push_both(points: &mut Waypoints, near: Point, far: Point) -> Result<(), AllocError>
    ensures { OnOk result (points_in points.new.items ≡ points_in points.old.items ++ near ∷ far ∷ []) }
{
    push_point(points, near)?;
    push_point(points, far)
}

// Goes along one slot to the point `near`, and along another from the point `far`.
fn push_two(points: &mut Waypoints, near: Point, far: Point, rise: Rise) -> Result<(), AllocError>
    ensures { OnOk result
        (points_in points.new.items
        ≡ points_in points.old.items ++ point_at near.x rise.before ∷ near ∷ far ∷ point_at far.x rise.after ∷ []) }
{
    push_both(
        points,
        Point {
            x: near.x,
            y: rise.before,
        },
        near,
    )?;
    push_both(
        points,
        far,
        Point {
            x: far.x,
            y: rise.after,
        },
    )?;
    Ok(())
}

// Passes a net of a gap by its route.
fn push_leg(
    points: &mut Waypoints,
    gap: &Gap,
    route: NetRoute,
    from_a: bool,
    rise: Rise,
) -> Result<(), AllocError>
    requires first { IsInRange gap.now.first }
    requires there { All IsNear (leg_points (plain_gap gap.now) route from_a rise.before rise.after) }
    ensures { OnOk result (points_in points.new.items ≡ points_in points.old.items ++ leg_points (plain_gap gap.now) route from_a rise.before rise.after) }
{
    match route {
        NetRoute::Straight => Ok(()),
        NetRoute::One { slot } => {
            let x = slot_x(gap, slot);
            push_both(
                points,
                Point { x, y: rise.before },
                Point { x, y: rise.after },
            )
        }
        NetRoute::Two {
            first,
            height,
            second,
        } => {
            let a = Point {
                x: slot_x(gap, first),
                y: height,
            };
            let b = Point {
                x: slot_x(gap, second),
                y: height,
            };
            if from_a {
                push_two(points, a, b, rise)
            } else {
                push_two(points, b, a, rise)
            }
        }
    }
}

// The height at which the step with this number begins, and the end's where it is a leg or there is none.
fn height_from(steps: &[Step], number: usize, end: Point) -> i64
    ensures { result ≡ height_next end (drop number steps.now) }
{
    match steps.get(number) {
        Some(Step::Lane(height)) => *height,
        _ => end.y,
    }
}

/// The section of a trace: its points, tidied. Where one point is left, it is both start and end.
///
/// Proved:
/// - The section of a trace has its points, tidied.
pub fn join(alloc: Global, gaps: &[Gap], trace: &Trace) -> Result<Section, AllocError>
    requires trace { IsTrace (map plain_gap gaps.now) trace.now.steps.items }
    requires gaps { All IsGapInRange gaps.now }
    requires points { All IsNear (trace_points (map plain_gap gaps.now) trace.now.start trace.now.steps.items trace.now.end) }
    ensures { IfOk result (λ section. IsJoinOf (trace_points (map plain_gap gaps.now) trace.now.start trace.now.steps.items trace.now.end) section) }
{
    let points = points_of(alloc, gaps, trace)?;
    let path = tidied(alloc, points)?;
    Ok(path.into_section())
}

// The path of these points, tidied.
fn tidied(alloc: Global, mut points: Waypoints) -> Result<Path, AllocError>
    requires { 0 < small_vec_len points }
    ensures { IfOk result (λ path. IsTidied (points_in points.items) (points_along path)) }
{
    let end = points.pop().unwrap();
    let mut path = Path::new(alloc, point_of(end));
    'points: while let Some(point) = points.pop() {
        path.put_before(point_of(point))?;
    }
    Ok(path)
}

// A lane that is the first step gives a point at the start.
fn push_first(points: &mut Waypoints, start: Point, steps: &[Step]) -> Result<(), AllocError>
    ensures { OnOk result
        ((gs : List PlainGap) (end : Point)
        → points_in points.new.items ++ points_on gs end start.y steps.now
        ≡ points_in points.old.items ++ step_points gs start steps.now end) }
{
    if let Some(Step::Lane(height)) = steps.first() {
        push_point(
            points,
            Point {
                x: start.x,
                y: *height,
            },
        )?;
    }
    Ok(())
}

// A lane that is the last step gives a point at the end.
fn push_last(
    points: &mut Waypoints,
    steps: &[Step],
    number: usize,
    end: Point,
    height: i64,
) -> Result<(), AllocError>
    requires { number < length steps.now }
    ensures { OnOk result (points_in points.new.items ≡ points_in points.old.items ++ last_point end height (drop (number + 1) steps.now)) }
{
    if number + 1 < steps.len() {
        return Ok(());
    }
    push_point(
        points,
        Point {
            x: end.x,
            y: height,
        },
    )
}

// Passes a net, by its gap and its place there.
fn push_net(
    points: &mut Waypoints,
    gaps: &[Gap],
    gap: u32,
    net: u32,
    from_a: bool,
    rise: Rise,
) -> Result<(), AllocError>
    requires step { IsStepIn (map plain_gap gaps.now) (Step.Leg gap net from_a) }
    requires gaps { All IsGapInRange gaps.now }
    requires points { All IsNear (net_leg (map plain_gap gaps.now) gap net from_a rise.before rise.after) }
    ensures { OnOk result (points_in points.new.items ≡ points_in points.old.items ++ net_leg (map plain_gap gaps.now) gap net from_a rise.before rise.after) }
{
    let gap = &gaps[gap as usize];
    let routes = gap.slots.routes.as_slice();
    push_leg(points, gap, routes[net as usize], from_a, rise)
}

// Passes the step with this number from the height before it, and answers the height behind it.
fn push_step(
    points: &mut Waypoints,
    gaps: &[Gap],
    steps: &[Step],
    number: usize,
    end: Point,
    before: i64,
) -> Result<i64, AllocError>
    requires number { number < length steps.now }
    requires steps { All (IsStepIn (map plain_gap gaps.now)) steps.now }
    requires gaps { All IsGapInRange gaps.now }
    requires points { All IsNear (points_on (map plain_gap gaps.now) end before (drop number steps.now)) }
    ensures { IfOk result
        (λ after. points_in points.new.items ++ points_on (map plain_gap gaps.now) end after (drop (number + 1) steps.now)
        ≡ points_in points.old.items ++ points_on (map plain_gap gaps.now) end before (drop number steps.now)) }
{
    match steps[number] {
        Step::Lane(height) => {
            push_last(points, steps, number, end, height)?;
            Ok(height)
        }
        Step::Leg { gap, net, from_a } => {
            let after = height_from(steps, number + 1, end);
            push_net(points, gaps, gap, net, from_a, Rise { before, after })?;
            Ok(after)
        }
    }
}

// The points of a trace, one after the other.
fn points_of(alloc: Global, gaps: &[Gap], trace: &Trace) -> Result<Waypoints, AllocError>
    requires trace { IsTrace (map plain_gap gaps.now) trace.now.steps.items }
    requires gaps { All IsGapInRange gaps.now }
    requires points { All IsNear (trace_points (map plain_gap gaps.now) trace.now.start trace.now.steps.items trace.now.end) }
    ensures { IfOk result (λ points. points_in points.items ≡ trace_points (map plain_gap gaps.now) trace.now.start trace.now.steps.items trace.now.end) }
{
    let steps = trace.steps.as_slice();
    let mut points: Waypoints = SmallVec::new(alloc);
    push_point(&mut points, trace.start)?;
    push_first(&mut points, trace.start, steps)?;
    let mut height = trace.start.y;
    'steps: for number in 0..steps.len() {
        height = push_step(&mut points, gaps, steps, number, trace.end, height)?;
    }
    push_point(&mut points, trace.end)?;
    Ok(points)
}
