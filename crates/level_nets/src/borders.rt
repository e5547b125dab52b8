//! The widths of columns, and the borders and slots of gaps.
ghost use Rattle.std.specs.Prelude.{◌≡◌, ℕ, ◌+◌, ◌<◌, ◌≤◌, ◌^◌, pos, ◌+ℤ◌, ◌-◌, ◌*ℤ◌, [], length, slice_index_or, slice_set, IfOk, OnOk};
ghost use Rattle.std.specs.Int.{int_max};
ghost use Rattle.elk_doc.specs.Sound.{IsDistance, IsSoundSpacing};
ghost use Rattle.elk_layers.specs.Layered.{IsFromZero};
ghost use Rattle.std.specs.List.{All};
ghost use Rattle.net_routes.specs.GapFree.{AreHeights, IsNet};
ghost use Rattle.net_routes.specs.Limits.{net_limit};
ghost use Rattle.route_lines.specs.Points.{gap_in, plain_gap};
ghost use Rattle.level_model.specs.Conditions.{plain_level};
ghost use Rattle.level_model.specs.FromPlan.{AreSlots};
ghost use Rattle.level_model.specs.Nets as nets;
ghost use Rattle.level_nets.specs.Parts.{plan_of};
ghost use Rattle.level_nets.specs.Held.{plain_gaps};
ghost use Rattle.level_nets.specs.Placed.{HaveBorders, AreWidest, AreWidths, IsPlaced};
ghost use Rattle.level_nets.specs.Reach.{AreColumnsIn, AreNetsIn, IsSheet, parts_in};

use crate::sheet::{Sheet, child_at, unit_at};
use elk_doc::document::Slotting;
use level_model::LevelIn;
use net_routes::{Net, Slots};
use route_lines::Gap;
use route_slots::{assign_near, assign_uncrossed_near};
use std::alloc::{AllocError, Global};

// Makes a column at least so wide.
fn widen(widths: &mut [i64], layer: u32, width: i64)
    requires { layer < length widths.old }
    ensures { widths.new ≡ slice_set widths.old layer (int_max width (slice_index_or widths.old layer (pos 0))) }
{
    widths[layer as usize] = width.max(widths[layer as usize]);
}

// Makes each column as wide as the widest outline of its layer.
fn widen_all(sheet: &Sheet<'_>, widths: &mut [i64])
    requires sheet { IsSheet sheet.now }
    requires narrow { AreWidest (parts_in sheet.now) 0 widths.old }
    requires long { length widths.old ≡ sheet.now.layered.now.layers + 1 }
    ensures { AreWidths (parts_in sheet.now) widths.new }
{
    let count = sheet.level.children.len() as u32;
    'children: for done in 0..count {
        let child = child_at(sheet, count - 1 - done);
        let layer = unit_at(sheet, child.unit).layer;
        widen(widths, layer, child.outline.width);
    }
}

/// The greatest width of the outlines of each layer, and a last 0.
pub(crate) fn column_widths(alloc: Global, sheet: &Sheet<'_>) -> Result<Vec<i64>, AllocError>
    requires { IsSheet sheet.now }
    ensures { IfOk result (λ widths. AreWidths (parts_in sheet.now) widths.items) }
{
    let mut widths: Vec<i64> = vec![in alloc; 0; sheet.layered.layers as usize + 1]?;
    widen_all(sheet, widths.as_mut_slice());
    Ok(widths)
}

// So many steps.
fn steps(count: u32, step: i64) -> i64
    requires { IsDistance step }
    ensures value { result ≡ pos count *ℤ step }
    ensures range { IsFromZero result (pos (2 ^ 52)) }
{
    i64::from(count) * step
}

// The room of so many slots, at least one.
fn slots_room(level: &LevelIn, count: u32) -> i64
    requires spacing { IsSoundSpacing level.now.spacing }
    requires some { 0 < count }
    ensures value { result ≡ level.now.spacing.edge_node_layers +ℤ (pos (count - 1) *ℤ level.now.spacing.edge_edge_layers) }
    ensures range { IsFromZero result (pos (2 ^ 53)) }
{
    level.spacing.edge_node_layers + steps(count - 1, level.spacing.edge_edge_layers)
}

// The width of the first or the last gap with so many slots.
fn outer_width(level: &LevelIn, count: u32) -> i64
    requires { IsSoundSpacing level.now.spacing }
    ensures value { result ≡ nets.outer_width (plain_level level.now) count }
    ensures range { IsFromZero result (pos (2 ^ 54)) }
{
    if count == 0 {
        return 0;
    }
    slots_room(level, count)
}

// The greater of two lengths.
fn greater(length: i64, other: i64) -> i64
    requires length { IsFromZero length (pos (2 ^ 54)) }
    requires other { IsFromZero other (pos (2 ^ 54)) }
    ensures value { result ≡ int_max length other }
    ensures range { IsFromZero result (pos (2 ^ 54)) }
{
    length.max(other)
}

// The width of a gap between two columns with so many slots.
fn inner_width(level: &LevelIn, count: u32) -> i64
    requires { IsSoundSpacing level.now.spacing }
    ensures value { result ≡ nets.inner_width (plain_level level.now) count }
    ensures range { IsFromZero result (pos (2 ^ 54)) }
{
    if count == 0 {
        return level.spacing.node_layers;
    }
    greater(
        level.spacing.node_layers,
        level.spacing.edge_node_layers + slots_room(level, count),
    )
}

// The width of a gap with so many slots.
fn gap_width(sheet: &Sheet<'_>, gap: u32, count: u32) -> i64
    requires { IsSoundSpacing sheet.now.level.now.spacing }
    ensures value { result ≡ nets.gap_width (parts_in sheet.now).level (plan_of (parts_in sheet.now) []) gap count }
    ensures range { IsFromZero result (pos (2 ^ 54)) }
{
    if gap == 0 || gap == sheet.layered.layers {
        outer_width(sheet.level, count)
    } else {
        inner_width(sheet.level, count)
    }
}

// How far right of its left border a gap's slots begin.
fn first_slot(level: &LevelIn, gap: u32) -> i64
    requires { IsSoundSpacing level.now.spacing }
    ensures value { result ≡ nets.first_slot (plain_level level.now) gap }
    ensures range { IsFromZero result (pos (2 ^ 20)) }
{
    if gap == 0 {
        0
    } else {
        level.spacing.edge_node_layers
    }
}

// Slots for the nets of a gap, as the level asks for them. Lines are kept `edge_edge` apart if that costs no crossing and, under
// FEWEST, no slot.
fn slots_for(alloc: Global, level: &LevelIn, nets: &[Net]) -> Result<Slots, AllocError>
    requires few { length nets.now ≤ net_limit }
    requires pins { All IsNet nets.now }
    requires heights { All AreHeights nets.now }
    ensures { IfOk result (λ v. AreSlots level.now.choices.slots nets.now v.count v.routes.items) }
{
    match level.choices.slots {
        Slotting::Fewest => assign_near(alloc, nets, level.spacing.edge_edge),
        Slotting::Uncrossed => assign_uncrossed_near(alloc, nets, level.spacing.edge_edge),
    }
}

// Finds slots for a gap's nets, and sets its borders.
fn place_gap(
    alloc: Global,
    sheet: &Sheet<'_>,
    gap: &mut Gap,
    number: u32,
    left: i64,
) -> Result<(), AllocError>
    requires spacing { IsSoundSpacing sheet.now.level.now.spacing }
    requires nets { AreNetsIn gap.old.nets.items }
    requires left { IsFromZero left (pos (2 ^ 60)) }
    ensures placed { OnOk result (IsPlaced (parts_in sheet.now) number left (plain_gap gap.new)) }
    ensures nets { OnOk result ((plain_gap gap.new).nets ≡ (plain_gap gap.old).nets) }
{
    gap.slots = slots_for(alloc, sheet.level, gap.nets.as_slice())?;
    gap.left = left;
    gap.first = left + first_slot(sheet.level, number);
    gap.step = sheet.level.spacing.edge_edge_layers;
    gap.right = left + gap_width(sheet, number, gap.slots.count);
    Ok(())
}

/// Finds slots for the nets of all gaps, and sets the borders of these, from left to right.
pub(crate) fn place_gaps(
    alloc: Global,
    sheet: &Sheet<'_>,
    widths: &[i64],
    gaps: &mut [Gap],
) -> Result<(), AllocError>
    requires spacing { IsSoundSpacing sheet.now.level.now.spacing }
    requires layers { sheet.now.layered.now.layers ≤ 2048 }
    requires widths { AreWidths (parts_in sheet.now) widths.now }
    requires columns { AreColumnsIn (parts_in sheet.now) }
    requires long { length gaps.old ≡ sheet.now.layered.now.layers + 1 }
    requires nets { (g : ℕ) → g < length gaps.old → AreNetsIn (gap_in (plain_gaps gaps.old) g).nets }
    ensures { OnOk result (HaveBorders (parts_in sheet.now) (length gaps.new) (plain_gaps gaps.old) (plain_gaps gaps.new)) }
{
    let mut left = 0;
    'gaps: for number in 0..gaps.len() as u32 {
        place_gap(alloc, sheet, &mut gaps[number as usize], number, left)?;
        left = gaps[number as usize].right + widths[number as usize];
    }
    Ok(())
}
