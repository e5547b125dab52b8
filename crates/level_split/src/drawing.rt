//! The boxes, ports and sections of a level from those of its parts.
ghost use Rattle.std.specs.Prelude.{◌≡◌, ◌<◌, [], length, map, slice_index_or, IfOk};
ghost use Rattle.std.specs.List.{All};
ghost use Rattle.box_pack.specs.Boxes.{point_at};
ghost use Rattle.rotated_levels.specs.Joined.{moved_section};
ghost use Rattle.level_model.specs.FromPlan.{point_or, section_at};
ghost use Rattle.working_frame.specs.Drawing.{plus};
ghost use Rattle.level_split.specs.Gathered.{AreBoxes, ArePartDrawings, ArePorts, AreSeated, AreSections, IsInPart, IsPartPlace, IsSectionInPart, drawing_at};

use drawing_types::list::Items;
use drawing_types::section::Section;
use drawing_types::shape::Point;
use level_draw::LevelOut;
use std::alloc::{AllocError, Global};

// A point of a part that stands here.
fn moved(by: Point, point: Point) -> Point
    requires by { IsPartPlace by }
    requires point { IsInPart point }
    ensures { result ≡ plus by point }
{
    Point {
        x: by.x + point.x,
        y: by.y + point.y,
    }
}

// The points of a part that stands here.
fn moved_points(alloc: Global, by: Point, points: &[Point]) -> Result<Vec<Point>, AllocError>
    requires by { IsPartPlace by }
    requires points { All IsInPart points.now }
    ensures { IfOk result (λ moved. moved.items ≡ map (plus by) points.now) }
{
    let mut found = Vec::with_capacity(alloc, points.len())?;
    for point in points {
        found.push(moved(by, *point))?;
    }
    Ok(found)
}

// A section of a part that stands here.
fn moved_section(alloc: Global, by: Point, section: &Section) -> Result<Section, AllocError>
    requires by { IsPartPlace by }
    requires section { IsSectionInPart section.now }
    ensures { IfOk result (λ s. s ≡ moved_section by section.now) }
{
    let bends = moved_points(alloc, by, section.bends.as_slice())?;
    Ok(Section {
        start: moved(by, section.start),
        bends: Items::from_vec(bends),
        end: moved(by, section.end),
    })
}

// The box of a child, by its part and its place there.
fn box_at(outs: &[LevelOut], at: &[Point], part: u32, place: u32) -> Point
    requires drawings { ArePartDrawings outs.now at.now }
    requires part { part < length outs.now }
    requires place { place < length (drawing_at outs.now part).boxes }
    ensures { result ≡ plus (point_at at.now part) (point_or (drawing_at outs.now part).boxes place) }
{
    let found = outs[part as usize].boxes.as_slice()[place as usize];
    moved(at[part as usize], found)
}

/// The boxes of all children.
pub(crate) fn boxes_of(
    alloc: Global,
    outs: &[LevelOut],
    at: &[Point],
    parts: &[u32],
    places: &[u32],
) -> Result<Vec<Point>, AllocError>
    requires drawings { ArePartDrawings outs.now at.now }
    requires seats { AreSeated parts.now places.now (length outs.now) (λ k. length (drawing_at outs.now k).boxes) }
    ensures { IfOk result (λ boxes. AreBoxes outs.now at.now parts.now places.now (length parts.now) boxes.items) }
{
    let mut boxes = Vec::with_capacity(alloc, parts.len())?;
    for i in 0..parts.len() {
        boxes.push(box_at(outs, at, parts[i], places[i]))?;
    }
    Ok(boxes)
}

// The same points again.
fn copied(alloc: Global, points: &[Point]) -> Result<Vec<Point>, AllocError>
    ensures { IfOk result (λ found. found.items ≡ points.now) }
{
    let mut found = Vec::with_capacity(alloc, points.len())?;
    for point in points {
        found.push(*point)?;
    }
    Ok(found)
}

// The places of the ports of a child, by its part and its place there.
fn ports_at(
    alloc: Global,
    outs: &[LevelOut],
    part: u32,
    place: u32,
) -> Result<Vec<Point>, AllocError>
    requires part { part < length outs.now }
    requires place { place < length (drawing_at outs.now part).ports }
    ensures { IfOk result (λ found. found.items ≡ slice_index_or (drawing_at outs.now part).ports place []) }
{
    copied(
        alloc,
        outs[part as usize].ports.as_slice()[place as usize].as_slice(),
    )
}

/// The places of the ports of all children.
pub(crate) fn ports_of(
    alloc: Global,
    outs: &[LevelOut],
    parts: &[u32],
    places: &[u32],
) -> Result<Vec<Items<Point>>, AllocError>
    requires seats { AreSeated parts.now places.now (length outs.now) (λ k. length (drawing_at outs.now k).ports) }
    ensures { IfOk result (λ ports. ArePorts outs.now parts.now places.now (length parts.now) ports.items) }
{
    let mut ports = Vec::with_capacity(alloc, parts.len())?;
    for i in 0..parts.len() {
        let own = ports_at(alloc, outs, parts[i], places[i])?;
        ports.push(Items::from_vec(own))?;
    }
    Ok(ports)
}

// The section of an edge, by its part and its place there.
fn section_at(
    alloc: Global,
    outs: &[LevelOut],
    at: &[Point],
    part: u32,
    place: u32,
) -> Result<Section, AllocError>
    requires drawings { ArePartDrawings outs.now at.now }
    requires part { part < length outs.now }
    requires place { place < length (drawing_at outs.now part).sections }
    ensures { IfOk result (λ s. s ≡ moved_section (point_at at.now part) (section_at (drawing_at outs.now part) place)) }
{
    let sections = outs[part as usize].sections.as_slice();
    moved_section(alloc, at[part as usize], &sections[place as usize])
}

/// The sections of all edges.
pub(crate) fn sections_of(
    alloc: Global,
    outs: &[LevelOut],
    at: &[Point],
    parts: &[u32],
    places: &[u32],
) -> Result<Vec<Section>, AllocError>
    requires drawings { ArePartDrawings outs.now at.now }
    requires seats { AreSeated parts.now places.now (length outs.now) (λ k. length (drawing_at outs.now k).sections) }
    ensures { IfOk result (λ sections. AreSections outs.now at.now parts.now places.now (length parts.now) sections.items) }
{
    let mut sections = Vec::with_capacity(alloc, parts.len())?;
    for i in 0..parts.len() {
        let section = section_at(alloc, outs, at, parts[i], places[i])?;
        sections.push(section)?;
    }
    Ok(sections)
}
