//! The heights at which links leave and enter their units.
ghost use Rattle.std.specs.Prelude.{◌≡◌, ℕ, ◌<◌, length};
ghost use Rattle.elk_layers.specs.Layered.{link_at};
ghost use Rattle.level_model.specs.Conditions.{plain_level};
ghost use Rattle.level_model.specs.Table.{child_in};
ghost use Rattle.dock_table.specs.Bounds.{IsEndIn};
ghost use Rattle.layer_units.specs.Reading.{AreFittedLinks, IsLinkIn, IsReadable, is_on_lane, link_with, pin_at, pin_of};

use dock_table::room;
use drawing_types::shape::Side;
use elk_layers::{Link, Unit};
use level_model::{ChildAt, EndAt, LevelIn, Table};

/// A level, its table, and by edge whether it is reversed.
#[derive(Clone, Copy)]
pub(crate) struct Fitting<'a> {
    pub level: &'a LevelIn,
    pub table: &'a Table,
    pub marks: &'a [bool],
}

/// A child of the table.
pub(crate) fn entry_at<'a>(fitting: &Fitting<'a>, child: u32) -> &'a ChildAt
    requires { child < length fitting.now.table.now.children }
    ensures { result.now ≡ child_in fitting.now.table.now.children child }
{
    fitting.table.children.at(child as usize)
}

/// Whether the end of a link lies on its dock's lane, where the edge enters or leaves.
pub(crate) fn is_on_lane(side: Side, enters: bool) -> bool
    ensures { result ≡ is_on_lane side enters }
{
    match side {
        Side::North => true,
        Side::East => enters,
        Side::South => true,
        Side::West => !enters,
    }
}

// The height of an end of a link below the top of its child's unit.
fn pin_of(fitting: &Fitting<'_>, end: EndAt, enters: bool) -> i64
    requires fitting { IsReadable (plain_level fitting.now.level.now) fitting.now.table.now fitting.now.marks.now }
    requires dock { end.dock.node < length fitting.now.table.now.children }
    requires near { IsEndIn end }
    ensures { result ≡ pin_of fitting.now.level.now.spacing fitting.now.table.now end enters }
{
    if is_on_lane(end.dock.side, enters) {
        return end.lane;
    }
    let child = entry_at(fitting, end.dock.node);
    room(&fitting.level.spacing, child.north) - child.outline.y + end.anchor.y
}

// The height of an end of a link below the top of its unit.
fn pin_at(fitting: &Fitting<'_>, unit: Unit, edge: u32, at_source: bool, enters: bool) -> i64
    requires fitting { IsReadable (plain_level fitting.now.level.now) fitting.now.table.now fitting.now.marks.now }
    requires edge { edge < length fitting.now.level.now.edges }
    ensures { result ≡ pin_at fitting.now.level.now.spacing fitting.now.table.now unit edge at_source enters }
{
    match unit.child {
        None => 0,
        Some(_) => {
            let end = fitting.table.end(edge, at_source);
            pin_of(fitting, end, enters)
        }
    }
}

// A link with its pins.
fn fitted_link(fitting: &Fitting<'_>, units: &[Unit], link: Link) -> Link
    requires fitting { IsReadable (plain_level fitting.now.level.now) fitting.now.table.now fitting.now.marks.now }
    requires link { IsLinkIn (plain_level fitting.now.level.now) units.now link }
    ensures { result ≡ link_with fitting.now.level.now.spacing fitting.now.table.now units.now fitting.now.marks.now link }
{
    let edge = link.edge;
    let is_reversed = fitting.marks[edge as usize];
    let tail_at = pin_at(
        fitting,
        units[link.tail as usize],
        edge,
        !is_reversed,
        false,
    );
    let head_at = pin_at(fitting, units[link.head as usize], edge, is_reversed, true);
    Link {
        edge,
        tail: link.tail,
        head: link.head,
        tail_rank: link.tail_rank,
        head_rank: link.head_rank,
        tail_at,
        head_at,
    }
}

/// Gives all links their pins.
pub(crate) fn fit_links(fitting: &Fitting<'_>, units: &[Unit], links: &mut [Link])
    requires fitting { IsReadable (plain_level fitting.now.level.now) fitting.now.table.now fitting.now.marks.now }
    requires links { (k : ℕ) → k < length links.old → IsLinkIn (plain_level fitting.now.level.now) units.now (link_at links.old k) }
    ensures { AreFittedLinks fitting.now.level.now.spacing fitting.now.table.now units.now fitting.now.marks.now links.old (length links.old) links.new }
{
    for k in 0..links.len() {
        links[k] = fitted_link(fitting, units, links[k]);
    }
}
