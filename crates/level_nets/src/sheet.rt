//! What the nets of a level are read off.
ghost use Rattle.std.specs.Prelude.{◌≡◌, ◌<◌, length};
ghost use Rattle.elk_layers.specs.Layered.{unit_at, link_at};
ghost use Rattle.elk_layers.specs.Lines.{top_of};
ghost use Rattle.level_model.specs.Level.{end_at, is_loop};
ghost use Rattle.level_model.specs.Table.{child_in, loop_in};
ghost use Rattle.level_nets.specs.Read.{at_end};
ghost use Rattle.level_nets.specs.Reach.{IsSheet, parts_in};

use elk_layers::{Layered, Link, Unit};
use level_model::{ChildAt, EndAt, LevelIn, LoopAt, Table};

/// A level with its units and links, their tops, the edges that are reversed, by list and by edge, and its table.
#[derive(Clone, Copy)]
pub struct Sheet<'a> {
    pub level: &'a LevelIn,
    pub layered: &'a Layered,
    pub tops: &'a [i64],
    pub reversed: &'a [u32],
    pub is_reversed: &'a [bool],
    pub table: &'a Table,
}

/// A unit.
pub fn unit_at(sheet: &Sheet<'_>, unit: u32) -> Unit
    requires { unit < length sheet.now.layered.now.units.items }
    ensures { result ≡ unit_at (parts_in sheet.now).layered.units unit }
{
    sheet.layered.units.as_slice()[unit as usize]
}

/// A link.
pub fn link_at(sheet: &Sheet<'_>, link: u32) -> Link
    requires { link < length sheet.now.layered.now.links.items }
    ensures { result ≡ link_at (parts_in sheet.now).layered.links link }
{
    sheet.layered.links.as_slice()[link as usize]
}

/// The top of a unit.
pub fn top_of(sheet: &Sheet<'_>, unit: u32) -> i64
    requires { unit < length sheet.now.tops.now }
    ensures { result ≡ top_of (parts_in sheet.now).tops unit }
{
    sheet.tops[unit as usize]
}

/// A child.
pub fn child_at<'a>(sheet: &Sheet<'a>, child: u32) -> &'a ChildAt
    requires { child < length sheet.now.table.now.children }
    ensures { result.now ≡ child_in (parts_in sheet.now).table.children child }
{
    sheet.table.children.at(child as usize)
}

/// An end of an edge.
pub fn end_at(sheet: &Sheet<'_>, edge: u32, at_source: bool) -> EndAt
    requires sheet { IsSheet sheet.now }
    requires edge { edge < length sheet.now.level.now.edges }
    ensures { result ≡ at_end (parts_in sheet.now) (end_at edge at_source) }
{
    sheet.table.end(edge, at_source)
}

/// The lanes of an edge as a self-loop.
pub fn loop_at(sheet: &Sheet<'_>, edge: u32) -> LoopAt
    requires sheet { IsSheet sheet.now }
    requires edge { edge < length sheet.now.level.now.edges }
    ensures { result ≡ loop_in (parts_in sheet.now).table.loops edge }
{
    *sheet.table.loops.at(edge as usize)
}

/// Whether an edge is a self-loop.
pub fn is_loop(sheet: &Sheet<'_>, edge: u32) -> bool
    requires { edge < length sheet.now.level.now.edges }
    ensures { result ≡ is_loop (parts_in sheet.now).level edge }
{
    sheet.level.edges.at(edge as usize).is_loop()
}
