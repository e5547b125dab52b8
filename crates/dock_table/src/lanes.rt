//! The lanes of a child's docks.
ghost use Rattle.std.specs.Prelude.{◌≡◌, ◌≢◌, ℕ, ℤ, ◌+◌, ◌<◌, ◌≤◌, ◌-◌, ◌^◌, ◌+ℤ◌, ◌*ℤ◌, ◌&&◌, pos, neg_ℤ, int_lt, false, length, slice_index, slice_index_or, slice_set, true, cond, IfOk, OnOk, Some, None, unwrap_or};
ghost use Rattle.std.specs.List.{All};
ghost use Rattle.std.specs.Ordering.{int_cmp};
ghost use Rattle.std.specs.BTreeMap.{get};
ghost use Rattle.drawing_types.specs.declared.shape.Dock.{Dock as ADock};
ghost use Rattle.drawing_types.specs.declared.shape.Side.TheVariants.{North, South};
ghost use Rattle.elk_doc.specs.Sound.{IsSoundSpacing};
ghost use Rattle.drawing_types.specs.Ranges.{IsWithin};
ghost use Rattle.level_model.specs.Lanes as plan;
ghost use Rattle.dock_table.specs.Bounds.{IsIn};
ghost use Rattle.level_model.specs.Lanes.{side_by, height_by};
ghost use Rattle.dock_table.specs.Lanes.{AreAsked, AreDockLanes, AreFirstSpots, AreLanePlaces, AreLaneSides, AreReadable, NotesFirstSpot, NumbersLanes, first_same, is_on, lane_place_in, lane_side_in, lanes_to, plain_lanes};
ghost use Rattle.dock_table.specs.Outlines.{dock_in};
ghost use Rattle.dock_table.specs.Narrow.{IsOffset};

use drawing_types::shape::{Dock, Side, Size};
use elk_doc::document::Spacing;
use port_order::Spot;
use std::alloc::{AllocError, Global};
use std::collections::BTreeMap;

// The number that was seen at a dock's offset, or another where there was none.
fn seen_or(seen: &BTreeMap<i64, u32>, dock: Dock, other: u32) -> u32
    ensures { result ≡ unwrap_or (get int_cmp seen.now dock.offset) other }
{
    match seen.get(&dock.offset) {
        None => other,
        Some(number) => *number,
    }
}

// The first number that was seen at a dock's offset, which is this one where there was none.
fn first_seen(seen: &mut BTreeMap<i64, u32>, dock: Dock, number: u32) -> Result<u32, AllocError>
    ensures first { IfOk result (λ n. n ≡ unwrap_or (get int_cmp seen.old dock.offset) number) }
    ensures there { OnOk result (get int_cmp seen.new dock.offset ≡ Some (unwrap_or (get int_cmp seen.old dock.offset) number)) }
    ensures kept { OnOk result ((z : ℤ) → z ≢ dock.offset → get int_cmp seen.new z ≡ get int_cmp seen.old z) }
{
    let first = seen_or(seen, dock, number);
    seen.insert(dock.offset, first)?;
    Ok(first)
}

// Notes for a spot on a side the first one with its dock.
fn note_first(
    firsts: &mut [u32],
    seen: &mut BTreeMap<i64, u32>,
    dock: Dock,
    side: Side,
    number: u32,
) -> Result<(), AllocError>
    requires { number < length firsts.old }
    ensures { OnOk result (NotesFirstSpot dock side number firsts.old firsts.new (get int_cmp seen.old) (get int_cmp seen.new)) }
{
    if dock.side != side {
        return Ok(());
    }
    let first = first_seen(seen, dock, number)?;
    firsts[number as usize] = first;
    Ok(())
}

// Notes for each spot on a side the first one with its dock.
fn note_firsts(
    alloc: Global,
    firsts: &mut [u32],
    docks: &[Dock],
    side: Side,
) -> Result<(), AllocError>
    requires as_long { length firsts.old ≡ length docks.now }
    requires few { length docks.now ≤ 2 ^ 16 }
    ensures noted { OnOk result ((i : ℕ) → i < length docks.now → (dock_in docks.now i).side ≡ side → slice_index firsts.new i ≡ first_same docks.now i) }
    ensures kept { OnOk result ((i : ℕ) → (dock_in docks.now i).side ≢ side → slice_index firsts.new i ≡ slice_index firsts.old i) }
{
    let mut seen: BTreeMap<i64, u32> = BTreeMap::new(alloc);
    for (i, dock) in docks.iter().enumerate() {
        note_first(firsts, &mut seen, *dock, side, i as u32)?;
    }
    Ok(())
}

// Notes for each spot the first one with its dock.
fn note_all_firsts(alloc: Global, firsts: &mut [u32], docks: &[Dock]) -> Result<(), AllocError>
    requires as_long { length firsts.old ≡ length docks.now }
    requires few { length docks.now ≤ 2 ^ 16 }
    ensures { OnOk result (AreFirstSpots docks.now firsts.new) }
{
    note_firsts(alloc, firsts, docks, Side::North)?;
    note_firsts(alloc, firsts, docks, Side::East)?;
    note_firsts(alloc, firsts, docks, Side::South)?;
    note_firsts(alloc, firsts, docks, Side::West)?;
    Ok(())
}

// By spot, the first one with its dock.
fn first_spots(alloc: Global, docks: &[Dock]) -> Result<Vec<u32>, AllocError>
    requires { length docks.now ≤ 2 ^ 16 }
    ensures { IfOk result (λ firsts. AreFirstSpots docks.now firsts.items) }
{
    let mut firsts: Vec<u32> = vec![in alloc; 0; docks.len()]?;
    note_all_firsts(alloc, firsts.as_mut_slice(), docks)?;
    Ok(firsts)
}

// Whether a spot asks for a lane at its dock.
fn asks_lane(side: Side, leaves: bool, enters: bool) -> bool
    ensures { result ≡ plan.asks_lane side leaves enters }
{
    match side {
        Side::North => leaves || enters,
        Side::East => enters,
        Side::South => leaves || enters,
        Side::West => leaves,
    }
}

// Marks the first spot of a spot's dock, where the spot asks for a lane.
fn mark_spot(marks: &mut [bool], dock: Dock, spot: Spot, first: u32)
    requires { first < length marks.old }
    ensures { marks.new ≡ cond (plan.asks_lane dock.side spot.leaves spot.enters) (slice_set marks.old first true) marks.old }
{
    if asks_lane(dock.side, spot.leaves, spot.enters) {
        marks[first as usize] = true;
    }
}

// Marks the first spots of docks at which a spot asks for a lane.
fn mark_asked(marks: &mut [bool], docks: &[Dock], spots: &[Spot], firsts: &[u32])
    requires as_long { length marks.old ≡ length docks.now }
    requires spots { length spots.now ≡ length docks.now }
    requires firsts { AreFirstSpots docks.now firsts.now }
    requires clear { (j : ℕ) → j < length docks.now → slice_index_or marks.old j false ≡ false }
    ensures { AreAsked docks.now spots.now (length docks.now) marks.new }
{
    for (i, dock) in docks.iter().enumerate() {
        let spot = spots[i];
        let first = firsts[i];
        mark_spot(marks, *dock, spot, first);
    }
}

// By spot, whether some spot asks for a lane at the dock that first stands there.
fn asked_spots(
    alloc: Global,
    docks: &[Dock],
    spots: &[Spot],
    firsts: &[u32],
) -> Result<Vec<bool>, AllocError>
    requires spots { length spots.now ≡ length docks.now }
    requires firsts { AreFirstSpots docks.now firsts.now }
    ensures { IfOk result (λ marks. AreAsked docks.now spots.now (length docks.now) marks.items) }
{
    let mut marks: Vec<bool> = vec![in alloc; false; docks.len()]?;
    mark_asked(marks.as_mut_slice(), docks, spots, firsts);
    Ok(marks)
}

// Whether an offset lies in the lower half of a box.
fn is_lower(height: i64, offset: i64) -> bool
    requires { IsIn offset }
    ensures { result ≡ int_lt height (offset +ℤ offset) }
{
    offset + offset > height
}

/// The side of the lane of a dock, which lies on a side of a box of this height at an offset along the side. The lane of a
/// dock in the west or the east is in the south if the dock lies in the lower half of the box, and else in the north.
pub fn lane_side(height: i64, side: Side, offset: i64) -> Side
    requires { IsIn offset }
    ensures { result ≡ side_by height side offset }
{
    let beside = if is_lower(height, offset) {
        Side::South
    } else {
        Side::North
    };
    match side {
        Side::North => Side::North,
        Side::East => beside,
        Side::South => Side::South,
        Side::West => beside,
    }
}

// The side of the lane of the dock that first stands at a spot, where it has one.
fn lane_at(size: Size, dock: Dock, first: bool, asked: bool) -> Option<Side>
    requires { IsOffset dock.offset }
    ensures { result ≡ cond (first && asked) (Some (side_by size.height dock.side dock.offset)) None }
{
    if first && asked {
        Some(lane_side(size.height, dock.side, dock.offset))
    } else {
        None
    }
}

// By spot, the side of the lane of the dock that first stands there.
fn lane_sides(
    alloc: Global,
    size: Size,
    docks: &[Dock],
    spots: &[Spot],
    firsts: &[u32],
) -> Result<Vec<Option<Side>>, AllocError>
    requires spots { length spots.now ≡ length docks.now }
    requires firsts { AreFirstSpots docks.now firsts.now }
    requires offsets { All (λ (d : ADock). IsOffset d.offset) docks.now }
    ensures { IfOk result (λ sides. AreLaneSides size.height docks.now spots.now sides.items) }
{
    let asked = asked_spots(alloc, docks, spots, firsts)?;
    let mut sides: Vec<Option<Side>> = Vec::with_capacity(alloc, docks.len())?;
    for (j, dock) in docks.iter().enumerate() {
        let first = firsts[j];
        let mark = asked[j];
        sides.push(lane_at(size, *dock, first as usize == j, mark))?;
    }
    Ok(sides)
}

// Whether a lane is there and on a side.
fn is_on(side: Side, lane: Option<Side>) -> bool
    ensures { result ≡ is_on side lane }
{
    match lane {
        None => false,
        Some(other) => other == side,
    }
}

// Numbers a lane where it is on a side, and gives the number after it.
fn number_lane(places: &mut [u32], lane: Option<Side>, side: Side, at: usize, next: u32) -> u32
    requires at { at < length places.old }
    requires few { next ≤ 2 ^ 17 }
    ensures places { places.new ≡ cond (is_on side lane) (slice_set places.old at next) places.old }
    ensures after { result ≡ cond (is_on side lane) (next + 1) next }
{
    if !is_on(side, lane) {
        return next;
    }
    places[at] = next;
    next + 1
}

// Numbers the lanes on a side from a start on, and gives the number after the last.
fn number_lanes(places: &mut [u32], sides: &[Option<Side>], side: Side, start: u32) -> u32
    requires as_long { length places.old ≡ length sides.now }
    requires few { start + length sides.now ≤ 2 ^ 17 }
    ensures numbered { NumbersLanes side sides.now start (length sides.now) places.old places.new }
    ensures after { result ≡ start + lanes_to side sides.now (length sides.now) }
{
    let mut next = start;
    for (j, lane) in sides.iter().enumerate() {
        next = number_lane(places, *lane, side, j, next);
    }
    next
}

/// The lanes of a child's docks, by the numbers of its spots: the first spot with the same dock, and at such a spot the side
/// of the dock's lane, where it has one, and the lane's place from the outline. `north` and `south` count all lanes.
#[derive(Drop)]
pub(crate) struct DockLanes {
    firsts: Vec<u32>,
    sides: Vec<Option<Side>>,
    places: Vec<u32>,
    pub(crate) north: u32,
    pub(crate) south: u32,
}

impl DockLanes {
    /// The side of the lane of a spot's dock, where it has one.
    pub(crate) fn side_of(&self, number: u32) -> Option<Side>
        requires lanes { (count : ℕ) × AreReadable (plain_lanes self.now) count × (number < count) }
        ensures { result ≡ lane_side_in (plain_lanes self.now) number }
    {
        self.sides[self.firsts[number as usize] as usize]
    }

    /// The place of that lane from the outline.
    pub(crate) fn place_of(&self, number: u32) -> u32
        requires lanes { (count : ℕ) × AreReadable (plain_lanes self.now) count × (number < count) }
        ensures { result ≡ lane_place_in (plain_lanes self.now) number }
    {
        self.places[self.firsts[number as usize] as usize]
    }
}

// Numbers the lanes on both sides, and gives how many lanes there are.
fn number_both(places: &mut [u32], sides: &[Option<Side>], north: u32, south: u32) -> (u32, u32)
    requires as_long { length places.old ≡ length sides.now }
    requires few_north { north + length sides.now ≤ 2 ^ 17 }
    requires few_south { south + length sides.now ≤ 2 ^ 17 }
    requires few { (j : ℕ) → slice_index places.old j ≤ 2 ^ 17 }
    ensures places { AreLanePlaces sides.now north south places.new }
    ensures north { result.0 ≡ north + lanes_to North sides.now (length sides.now) }
    ensures south { result.1 ≡ south + lanes_to South sides.now (length sides.now) }
{
    let after_north = number_lanes(places, sides, Side::North, north);
    let after_south = number_lanes(places, sides, Side::South, south);
    (after_north, after_south)
}

// The places of lanes on both sides, and how many lanes there are.
#[derive(Drop)]
struct LanePlaces {
    places: Vec<u32>,
    north: u32,
    south: u32,
}

// The places of the lanes on both sides, behind so many others.
fn lane_places(
    alloc: Global,
    sides: &[Option<Side>],
    north: u32,
    south: u32,
) -> Result<LanePlaces, AllocError>
    requires few_north { north + length sides.now ≤ 2 ^ 17 }
    requires few_south { south + length sides.now ≤ 2 ^ 17 }
    ensures places { IfOk result (λ v. AreLanePlaces sides.now north south v.places.items) }
    ensures north { IfOk result (λ v. v.north ≡ north + lanes_to North sides.now (length sides.now)) }
    ensures south { IfOk result (λ v. v.south ≡ south + lanes_to South sides.now (length sides.now)) }
{
    let mut places: Vec<u32> = vec![in alloc; 0; sides.len()]?;
    let counts = number_both(places.as_mut_slice(), sides, north, south);
    Ok(LanePlaces {
        places,
        north: counts.0,
        south: counts.1,
    })
}

/// The lanes of a child's docks, at a box of this size, behind so many lanes of self-loops to the north and south.
pub(crate) fn lanes_of_child(
    alloc: Global,
    size: Size,
    docks: &[Dock],
    spots: &[Spot],
    north: u32,
    south: u32,
) -> Result<DockLanes, AllocError>
    requires few { length docks.now ≤ 2 ^ 16 }
    requires spots { length spots.now ≡ length docks.now }
    requires offsets { All (λ (d : ADock). IsOffset d.offset) docks.now }
    requires few_north { north ≤ 2 ^ 16 }
    requires few_south { south ≤ 2 ^ 16 }
    ensures { IfOk result (λ v. AreDockLanes size.height docks.now spots.now north south (plain_lanes v)) }
{
    let firsts = first_spots(alloc, docks)?;
    let sides = lane_sides(alloc, size, docks, spots, firsts.as_slice())?;
    let placed = lane_places(alloc, sides.as_slice(), north, south)?;
    Ok(DockLanes {
        firsts,
        sides,
        places: placed.places,
        north: placed.north,
        south: placed.south,
    })
}

// A distance, so many times.
fn times(count: u32, distance: i64) -> i64
    requires few { count ≤ 2 ^ 18 }
    requires distance { IsWithin (pos 1) (pos (2 ^ 20)) distance }
    ensures value { result ≡ pos count *ℤ distance }
    ensures small { IsWithin (pos 0) (pos (2 ^ 38)) result }
{
    count as i64 * distance
}

/// The room of lanes beside an outline.
pub fn room(spacing: &Spacing, count: u32) -> i64
    requires spacing { IsSoundSpacing spacing.now }
    requires few { count ≤ 2 ^ 18 }
    ensures value { result ≡ plan.room spacing.now count }
    ensures small { IsWithin (pos 0) (pos (2 ^ 40)) result }
{
    if count == 0 {
        0
    } else {
        room_of(spacing, count)
    }
}

// The same of one lane or more.
fn room_of(spacing: &Spacing, count: u32) -> i64
    requires spacing { IsSoundSpacing spacing.now }
    requires some { 0 < count }
    requires few { count ≤ 2 ^ 18 }
    ensures value { result ≡ spacing.now.edge_node +ℤ (pos (count - 1) *ℤ spacing.now.edge_edge) }
    ensures small { IsWithin (pos 0) (pos (2 ^ 40)) result }
{
    let more = times(count - 1, spacing.edge_edge);
    spacing.edge_node + more
}

/// The height of a lane below the top of its child's unit, by its place from the outline, which has this height. The child
/// has `north` lanes above its outline.
pub(crate) fn lane_height(spacing: &Spacing, north: u32, height: i64, side: Side, place: u32) -> i64
    requires spacing { IsSoundSpacing spacing.now }
    requires few { north ≤ 2 ^ 17 }
    requires height { IsWithin (pos 0) (pos (2 ^ 49 - 2 ^ 42)) height }
    requires place { place ≤ 2 ^ 17 }
    ensures value { result ≡ height_by spacing.now north height side place }
    ensures near { IsWithin (neg_ℤ (pos (2 ^ 49))) (pos (2 ^ 49)) result }
{
    let above = room(spacing, north);
    let beside = room(spacing, place + 1);
    match side {
        Side::North => above - beside,
        Side::East => above + height + beside,
        Side::South => above + height + beside,
        Side::West => above + height + beside,
    }
}
