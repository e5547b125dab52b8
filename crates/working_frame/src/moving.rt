//! Gaps, traces, points and sections that are moved in place.
ghost use Rattle.std.specs.Prelude.{◌≡◌, map, length, IfOk};
ghost use Rattle.std.specs.List.{All};
ghost use Rattle.route_lines.specs.Points.{plain_gap};
ghost use Rattle.working_frame.specs.Moved as spec;
ghost use Rattle.working_frame.specs.Ranges.{IsFar, IsFarGap, IsFarNet, IsFarPoint, IsFarRoute, IsFarSection, IsFarStep, IsFarTrace, plain_trace};

use drawing_types::list::Items;
use drawing_types::section::Section;
use drawing_types::shape::Point;
use net_routes::{Net, NetRoute, Pin};
use route_lines::{Gap, Step, Trace};
use std::alloc::{AllocError, Global};

fn moved_point(point: Point, by: Point) -> Point
    requires point { IsFarPoint point }
    requires by { IsFarPoint by }
    ensures { result ≡ spec.moved_point by.x by.y point }
{
    Point {
        x: point.x - by.x,
        y: point.y - by.y,
    }
}

/// Moves points to the left and up.
pub fn move_points(points: &mut [Point], by: Point)
    requires points { All IsFarPoint points.old }
    requires by { IsFarPoint by }
    ensures { points.new ≡ map (spec.moved_point by.x by.y) points.old }
{
    for i in 0..points.len() {
        points[i] = moved_point(points[i], by);
    }
}

fn moved_pin(pin: Pin, by: Point) -> Pin
    requires pin { IsFar pin.height }
    requires by { IsFarPoint by }
    ensures { result ≡ spec.moved_pin by.y pin }
{
    Pin {
        on_left: pin.on_left,
        height: pin.height - by.y,
    }
}

fn moved_net(net: Net, by: Point) -> Net
    requires net { IsFarNet net }
    requires by { IsFarPoint by }
    ensures { result ≡ spec.moved_net by.y net }
{
    Net {
        a: moved_pin(net.a, by),
        b: moved_pin(net.b, by),
    }
}

fn move_nets(nets: &mut [Net], by: Point)
    requires nets { All IsFarNet nets.old }
    requires by { IsFarPoint by }
    ensures { nets.new ≡ map (spec.moved_net by.y) nets.old }
{
    for i in 0..nets.len() {
        nets[i] = moved_net(nets[i], by);
    }
}

fn moved_route(route: NetRoute, by: Point) -> NetRoute
    requires route { IsFarRoute route }
    requires by { IsFarPoint by }
    ensures { result ≡ spec.moved_route by.y route }
{
    match route {
        NetRoute::Straight => NetRoute::Straight,
        NetRoute::One { slot } => NetRoute::One { slot },
        NetRoute::Two {
            first,
            height,
            second,
        } => NetRoute::Two {
            first,
            height: height - by.y,
            second,
        },
    }
}

fn move_routes(routes: &mut [NetRoute], by: Point)
    requires routes { All IsFarRoute routes.old }
    requires by { IsFarPoint by }
    ensures { routes.new ≡ map (spec.moved_route by.y) routes.old }
{
    for i in 0..routes.len() {
        routes[i] = moved_route(routes[i], by);
    }
}

fn move_net_list(nets: &mut Vec<Net>, by: Point)
    requires nets { All IsFarNet nets.old.items }
    requires by { IsFarPoint by }
    ensures { nets.new.items ≡ map (spec.moved_net by.y) nets.old.items }
{
    move_nets(nets.as_mut_slice(), by);
}

fn move_route_list(routes: &mut Vec<NetRoute>, by: Point)
    requires routes { All IsFarRoute routes.old.items }
    requires by { IsFarPoint by }
    ensures { routes.new.items ≡ map (spec.moved_route by.y) routes.old.items }
{
    move_routes(routes.as_mut_slice(), by);
}

fn move_gap(gap: &mut Gap, by: Point)
    requires gap { IsFarGap (plain_gap gap.old) }
    requires by { IsFarPoint by }
    ensures { plain_gap gap.new ≡ spec.moved_gap by.x by.y (plain_gap gap.old) }
{
    gap.left = gap.left - by.x;
    gap.first = gap.first - by.x;
    gap.right = gap.right - by.x;
    move_net_list(&mut gap.nets, by);
    move_route_list(&mut gap.slots.routes, by);
}

/// Moves gaps to the left, and their nets and routes up.
///
/// Proved:
/// - Gaps, traces, boxes and sections are moved. (`move_traces`, `move_points`, `moved_sections`)
pub fn move_gaps(gaps: &mut [Gap], by: Point)
    requires gaps { All IsFarGap (map plain_gap gaps.old) }
    requires by { IsFarPoint by }
    ensures { map plain_gap gaps.new ≡ map (spec.moved_gap by.x by.y) (map plain_gap gaps.old) }
{
    for i in 0..gaps.len() {
        move_gap(&mut gaps[i], by);
    }
}

fn moved_step(step: Step, by: Point) -> Step
    requires step { IsFarStep step }
    requires by { IsFarPoint by }
    ensures { result ≡ spec.moved_step by.y step }
{
    match step {
        Step::Lane(height) => Step::Lane(height - by.y),
        Step::Leg { gap, net, from_a } => Step::Leg { gap, net, from_a },
    }
}

fn move_steps(steps: &mut [Step], by: Point)
    requires steps { All IsFarStep steps.old }
    requires by { IsFarPoint by }
    ensures { steps.new ≡ map (spec.moved_step by.y) steps.old }
{
    for i in 0..steps.len() {
        steps[i] = moved_step(steps[i], by);
    }
}

fn move_trace(trace: &mut Trace, by: Point)
    requires trace { IsFarTrace (plain_trace trace.old) }
    requires by { IsFarPoint by }
    ensures { plain_trace trace.new ≡ spec.moved_trace by.x by.y (plain_trace trace.old) }
{
    trace.start = moved_point(trace.start, by);
    trace.end = moved_point(trace.end, by);
    move_steps(trace.steps.as_mut_slice(), by);
}

/// Moves traces to the left and up.
pub fn move_traces(traces: &mut [Trace], by: Point)
    requires traces { All IsFarTrace (map plain_trace traces.old) }
    requires by { IsFarPoint by }
    ensures { map plain_trace traces.new ≡ map (spec.moved_trace by.x by.y) (map plain_trace traces.old) }
{
    for i in 0..traces.len() {
        move_trace(&mut traces[i], by);
    }
}

fn moved_section(section: Section, by: Point) -> Section
    requires section { IsFarSection section }
    requires by { IsFarPoint by }
    ensures { result ≡ spec.moved_section by.x by.y section }
{
    let mut bends = section.bends.into_vec();
    move_points(bends.as_mut_slice(), by);
    Section {
        start: moved_point(section.start, by),
        bends: Items::from_vec(bends),
        end: moved_point(section.end, by),
    }
}

/// The same sections further to the left and up.
pub fn moved_sections(
    alloc: Global,
    sections: Vec<Section>,
    by: Point,
) -> Result<Vec<Section>, AllocError>
    requires sections { All IsFarSection sections.items }
    requires by { IsFarPoint by }
    ensures { IfOk result (λ v. v.items ≡ map (spec.moved_section by.x by.y) sections.items) }
{
    let mut moved = Vec::with_capacity(alloc, sections.len())?;
    for section in sections {
        moved.push(moved_section(section, by))?;
    }
    Ok(moved)
}
