//! The ranks of links' ends.
ghost use Rattle.std.specs.Prelude.{◌≡◌, ℕ, ◌<◌, ◌≤◌, length, map, true, Some, IfSome};
ghost use Rattle.elk_layers.specs.Layered.{link_at};
ghost use Rattle.port_order.specs.Child.{is_pinned};
ghost use Rattle.level_model.specs.Conditions.{plain_level};
ghost use Rattle.level_model.specs.Units as units;
ghost use Rattle.dock_table.specs.Bounds.{IsEndIn};
ghost use Rattle.level_model.specs.Lanes.{side_by};
ghost use Rattle.layer_units.specs.Reading.{IsLinkIn};
ghost use Rattle.layer_units.specs.Ports.{plain_ranks};
ghost use Rattle.layer_units.specs.RankReading as spec;
ghost use Rattle.layer_units.specs.RankReading.{AreRankedLinks, HasRanksIn, IsReadable, last_in};

use crate::children::is_fixed;
use crate::pins::is_on_lane;
use crate::ports::PortRanks;
use crate::runs::spoke_of;
use dock_table::lane_side;
use drawing_types::shape::Side;
use elk_doc::document::PortRule;
use elk_layers::{Link, Unit};
use level_model::{EndAt, LevelIn, Table};
use port_order::{Child, is_pinned};

/// A level, its table, the ranks of its children's ports, and by edge whether it is reversed.
#[derive(Clone, Copy)]
pub(crate) struct Ranking<'a> {
    pub level: &'a LevelIn,
    pub table: &'a Table,
    pub ranks: &'a [PortRanks],
    pub marks: &'a [bool],
}

// The side of the lane of an end's dock.
fn end_side(child: &Child, end: EndAt) -> Side
    requires { IsEndIn end }
    ensures { result ≡ side_by child.now.size.height end.dock.side end.anchor.y }
{
    lane_side(child.size.height, end.dock.side, end.anchor.y)
}

// The rank of an end on a lane: before all ports in the north, behind them in the south.
fn lane_rank(last: u32, side: Side) -> u32
    requires { last ≤ 4096 }
    ensures value { result ≡ units.lane_rank last side }
    ensures few { result ≤ 4098 }
{
    match side {
        Side::North => 0,
        Side::East => last + 2,
        Side::South => last + 2,
        Side::West => last + 2,
    }
}

// Whether a port is spread though its child has fixed positions.
fn is_spread(child: &Child, port: u32) -> bool
    requires { port < length child.now.ports }
    ensures { result ≡ units.is_spread_fixed child.now.rule (Some port) (is_pinned child.now port) }
{
    match child.rule {
        PortRule::FixedPos => !is_pinned(child, port),
        _ => false,
    }
}

// How many ports are ranked on the side of a link's end.
fn last_in(ranks: &PortRanks, enters: bool) -> u32
    requires west { ranks.now.west ≤ 4096 }
    requires east { ranks.now.east ≤ 4096 }
    ensures value { result ≡ last_in (plain_ranks ranks.now) enters }
    ensures few { result ≤ 4096 }
{
    if enters { ranks.west } else { ranks.east }
}

// The rank of a link's end at a port.
fn port_rank(child: &Child, ranks: &PortRanks, end: EndAt, port: u32, enters: bool) -> u32
    requires ranks { HasRanksIn child.now (plain_ranks ranks.now) }
    requires end { IsEndIn end }
    requires port { port < length child.now.ports }
    ensures value { result ≡ spec.port_rank child.now (plain_ranks ranks.now) end port enters }
    ensures few { result ≤ 4098 }
{
    let last = last_in(ranks, enters);
    if is_spread(child, port) {
        return last + 1;
    }
    if is_on_lane(end.dock.side, enters) {
        return lane_rank(last, end_side(child, end));
    }
    ranks.before[port as usize] + 1
}

// The rank of a link's end at a child whose ports are ranked. An implicit end stands behind them.
fn end_rank(child: &Child, ranks: &PortRanks, end: EndAt, port: Option<u32>, enters: bool) -> u32
    requires ranks { HasRanksIn child.now (plain_ranks ranks.now) }
    requires end { IsEndIn end }
    requires port { IfSome port (λ k. k < length child.now.ports) }
    ensures value { result ≡ spec.end_rank child.now (plain_ranks ranks.now) end port enters }
    ensures few { result ≤ 4098 }
{
    match port {
        None => last_in(ranks, enters) + 1,
        Some(port) => port_rank(child, ranks, end, port, enters),
    }
}

// The rank of a link's end at a child, 0 where no ports are ranked.
fn child_rank(child: &Child, ranks: &PortRanks, end: EndAt, port: Option<u32>, enters: bool) -> u32
    requires ranks { units.is_fixed child.now.rule ≡ true → HasRanksIn child.now (plain_ranks ranks.now) }
    requires end { IsEndIn end }
    requires port { IfSome port (λ k. k < length child.now.ports) }
    ensures value { result ≡ spec.child_rank child.now (plain_ranks ranks.now) end port enters }
    ensures few { result ≤ 4098 }
{
    if !is_fixed(child.rule) {
        return 0;
    }
    end_rank(child, ranks, end, port, enters)
}

// The rank of a link's end, by its edge.
fn edge_rank(ranking: &Ranking<'_>, edge: u32, at_source: bool, enters: bool) -> u32
    requires ranking { IsReadable (plain_level ranking.now.level.now) ranking.now.table.now (map plain_ranks ranking.now.ranks.now) ranking.now.marks.now }
    requires edge { edge < length ranking.now.level.now.edges }
    ensures value { result
        ≡ spec.edge_rank (plain_level ranking.now.level.now) ranking.now.table.now (map plain_ranks ranking.now.ranks.now) edge
        at_source enters }
    ensures few { result ≤ 4098 }
{
    let spoke = spoke_of(ranking.level, edge, at_source);
    let end = ranking.table.end(edge, at_source);
    let child = ranking.level.children.at(spoke.child as usize);
    let ranks = &ranking.ranks[spoke.child as usize];
    child_rank(child, ranks, end, spoke.port, enters)
}

// The rank of a link's end at a unit, 0 at a lane of a long edge.
fn unit_rank(ranking: &Ranking<'_>, unit: Unit, edge: u32, at_source: bool, enters: bool) -> u32
    requires ranking { IsReadable (plain_level ranking.now.level.now) ranking.now.table.now (map plain_ranks ranking.now.ranks.now) ranking.now.marks.now }
    requires edge { edge < length ranking.now.level.now.edges }
    ensures value { result
        ≡ spec.unit_rank (plain_level ranking.now.level.now) ranking.now.table.now (map plain_ranks ranking.now.ranks.now) unit
        edge at_source enters }
    ensures few { result ≤ 4098 }
{
    match unit.child {
        None => 0,
        Some(_) => edge_rank(ranking, edge, at_source, enters),
    }
}

// A link with its ranks.
fn ranked_link(ranking: &Ranking<'_>, units: &[Unit], link: Link) -> Link
    requires ranking { IsReadable (plain_level ranking.now.level.now) ranking.now.table.now (map plain_ranks ranking.now.ranks.now) ranking.now.marks.now }
    requires link { IsLinkIn (plain_level ranking.now.level.now) units.now link }
    ensures value { result
        ≡ spec.link_with (plain_level ranking.now.level.now) ranking.now.table.now (map plain_ranks ranking.now.ranks.now)
        units.now ranking.now.marks.now link }
    ensures tail { result.tail_rank ≤ 4098 }
    ensures head { result.head_rank ≤ 4098 }
{
    let is_reversed = ranking.marks[link.edge as usize];
    let tail = units[link.tail as usize];
    let head = units[link.head as usize];
    let mut ranked = link;
    ranked.tail_rank = unit_rank(ranking, tail, link.edge, !is_reversed, false);
    ranked.head_rank = unit_rank(ranking, head, link.edge, is_reversed, true);
    ranked
}

/// Gives all links their ranks.
pub(crate) fn rank_links(ranking: &Ranking<'_>, units: &[Unit], links: &mut [Link])
    requires ranking { IsReadable (plain_level ranking.now.level.now) ranking.now.table.now (map plain_ranks ranking.now.ranks.now) ranking.now.marks.now }
    requires links { (k : ℕ) → k < length links.old → IsLinkIn (plain_level ranking.now.level.now) units.now (link_at links.old k) }
    ensures { AreRankedLinks (plain_level ranking.now.level.now) ranking.now.table.now (map plain_ranks ranking.now.ranks.now)
        units.now ranking.now.marks.now links.old (length links.old) links.new }
{
    for k in 0..links.len() {
        links[k] = ranked_link(ranking, units, links[k]);
    }
}
