//! The least and the greatest coordinates, found in one pass.
ghost use Rattle.std.specs.Prelude.{◌≡◌, ◌↔◌, ◌∷◌, [], Some, None, IfSome};
ghost use Rattle.std.specs.List.{All};
ghost use Rattle.working_frame.specs.Reach.{IsNear, IsReach, corners, corners_of, points_along, points_of, reached};
ghost use Rattle.working_frame.specs.Walk.{joined, reach_over};

use drawing_types::section::Section;
use drawing_types::shape::{Point, Rect};

/// The least and the greatest coordinates of some points.
#[derive(Clone, Copy)]
pub struct Reach {
    pub low: Point,
    pub high: Point,
}

/// How far the outlines and the sections of a drawing reach together, in the frame that they share. Outlines count with
/// all their corners, sections with their ends and bends. `None` where there are neither.
///
/// Proved:
/// - The least and the greatest coordinates of the outlines and sections of a drawing.
pub fn reach_of(outlines: &[Rect], sections: &[Section]) -> Option<Reach>
    requires outlines { All IsNear outlines.now }
    ensures none { result ≡ None ↔ reached outlines.now sections.now ≡ [] }
    ensures some { IfSome result (IsReach (reached outlines.now sections.now)) }
{
    let boxed = over_outlines(None, outlines);
    over_sections(boxed, sections)
}

// The reach with one more point.
fn joined(reach: Reach, point: Point) -> Reach
    ensures { result ≡ joined reach point }
{
    Reach {
        low: Point {
            x: reach.low.x.min(point.x),
            y: reach.low.y.min(point.y),
        },
        high: Point {
            x: reach.high.x.max(point.x),
            y: reach.high.y.max(point.y),
        },
    }
}

// The same where there may be no point yet.
fn with_point(reach: Option<Reach>, point: Point) -> Option<Reach>
    ensures { result ≡ reach_over reach (point ∷ []) }
{
    match reach {
        None => Some(Reach {
            low: point,
            high: point,
        }),
        Some(some) => Some(joined(some, point)),
    }
}

fn over_points(reach: Option<Reach>, points: &[Point]) -> Option<Reach>
    ensures { result ≡ reach_over reach points.now }
{
    let mut found = reach;
    for point in points {
        found = with_point(found, *point);
    }
    found
}

fn over_section(reach: Option<Reach>, section: &Section) -> Option<Reach>
    ensures { result ≡ reach_over reach (points_along section.now) }
{
    let begun = with_point(reach, section.start);
    let bent = over_points(begun, section.bends.as_slice());
    with_point(bent, section.end)
}

fn over_sections(reach: Option<Reach>, sections: &[Section]) -> Option<Reach>
    ensures { result ≡ reach_over reach (points_of sections.now) }
{
    let mut found = reach;
    for section in sections {
        found = over_section(found, section);
    }
    found
}

// The upper left and the lower right corner hold the coordinates of all four.
fn over_outline(reach: Option<Reach>, outline: &Rect) -> Option<Reach>
    requires { IsNear outline.now }
    ensures { result ≡ reach_over reach (corners outline.now) }
{
    let begun = with_point(
        reach,
        Point {
            x: outline.x,
            y: outline.y,
        },
    );
    let right = outline.x + outline.width;
    let bottom = outline.y + outline.height;
    with_point(
        begun,
        Point {
            x: right,
            y: bottom,
        },
    )
}

fn over_outlines(reach: Option<Reach>, outlines: &[Rect]) -> Option<Reach>
    requires { All IsNear outlines.now }
    ensures { result ≡ reach_over reach (corners_of outlines.now) }
{
    let mut found = reach;
    for outline in outlines {
        found = over_outline(found, outline);
    }
    found
}
