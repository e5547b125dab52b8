//! Units and links with ranks.
ghost use Rattle.std.specs.Prelude.{◌≡◌, ℕ, List, [], ℤ, length, IfOk, IsFalse};
ghost use Rattle.elk_layers.specs.Layered.{plain, rows_of, IsSound, AreRows};
ghost use Rattle.level_model.specs.Conditions.{plain_level, plain_plan, IsLevel};
ghost use Rattle.level_model.specs.Level.{PlainLevel};
ghost use Rattle.level_model.specs.Units.{AreLinked};
ghost use Rattle.dock_table.specs.Courses.{ReversedAreMarked};
ghost use Rattle.layer_units.specs.Marks.{listed};
ghost use Rattle.layer_units.specs.Ranked as spec;
ghost use Rattle.layer_units.specs.Ranked.{AreBareLinks, AreRanked, AreReranked, IsRanking, plan_of};

use crate::children::{is_fixed, ranks_of_children};
use crate::ends::{Ranking, rank_links};
use dock_table::table_of;
use elk_layers::{Layered, Link, Order};
use level_model::LevelIn;
use port_order::Child;
use std::alloc::{AllocError, Global};

// Whether the ports of some child are ranked.
fn has_ranks(children: &[Child]) -> bool
    ensures { result ≡ spec.has_ranks children.now }
{
    for child in children {
        if is_fixed(child.rule) {
            return true;
        }
    }
    false
}

// A link without ranks.
fn bare_link(link: Link) -> Link
    ensures { result ≡ spec.bare_link link }
{
    Link {
        edge: link.edge,
        tail: link.tail,
        head: link.head,
        tail_rank: 0,
        head_rank: 0,
        tail_at: link.tail_at,
        head_at: link.head_at,
    }
}

// Takes their ranks from all links.
fn clear_ranks(links: &mut [Link])
    ensures { AreBareLinks links.old (length links.old) links.new }
{
    for k in 0..links.len() {
        links[k] = bare_link(links[k]);
    }
}

// The units and links of a level none of whose ports are ranked.
fn unranked(layered: Layered) -> Layered
    requires { IsSound (plain layered) }
    ensures { (l : PlainLevel) (reversed : List ℕ) → IsFalse (spec.has_ranks l.children) → IsRanking l (plain layered) (plain result) reversed }
{
    let mut bare = layered;
    clear_ranks(bare.links.as_mut_slice());
    bare
}

// The units and links of a level with the ranks that a table of its docks gives.
fn by_table(
    alloc: Global,
    level: &LevelIn,
    layered: Layered,
    order: &Order,
    is_reversed: &[bool],
) -> Result<Layered, AllocError>
    requires level { IsLevel (plain_level level.now) }
    requires sound { IsSound (plain layered) }
    requires rows { AreRows (plain layered) (rows_of order.now) }
    requires is_reversed { ReversedAreMarked (plain_level level.now) is_reversed.now (plain_plan layered order.now [] (listed is_reversed.now)) }
    ensures { IfOk result (λ v. IsRanking (plain_level level.now) (plain layered) (plain v) (listed is_reversed.now)) }
{
    let table = table_of(alloc, level, &layered, order, is_reversed)?;
    let ranks = ranks_of_children(alloc, level, is_reversed)?;
    let ranking = Ranking {
        level,
        table: &table,
        ranks: ranks.as_slice(),
        marks: is_reversed,
    };
    let mut ranked = layered;
    rank_links(
        &ranking,
        ranked.units.as_slice(),
        ranked.links.as_mut_slice(),
    );
    Ok(ranked)
}

/// The units and links of a level with the ranks of links' ends: where an end stands among those of its child's side, from the
/// top. Only children whose ports are in a fixed order or at fixed positions give ranks; all others are 0.
///
/// `is_reversed` marks the edges that are reversed. Ranks are the same for every order of the rows, so any order will do as
/// `order`. All but ranks stays as it is. The only error is out of memory; what was given is dropped then.
///
/// Proved:
/// - The ranks of links' ends. At a child with ports in a fixed order or at fixed positions, a rank is the place of an end among those
///   of its side. At other children it is 0.
/// - They hold for every order of the rows, all orders of the sides that follow from it, and all tops. (`ranks_need_no_rows`)
/// - Everything except ranks stays the same, and units and links are sound again.
pub fn ranked(
    alloc: Global,
    level: &LevelIn,
    layered: Layered,
    order: &Order,
    is_reversed: &[bool],
) -> Result<Layered, AllocError>
    requires level { IsLevel (plain_level level.now) }
    requires sound { IsSound (plain layered) }
    requires rows { AreRows (plain layered) (rows_of order.now) }
    requires is_reversed { ReversedAreMarked (plain_level level.now) is_reversed.now (plain_plan layered order.now [] (listed is_reversed.now)) }
    ensures ranks { IfOk result (λ v. AreRanked (plain_level level.now) (plain v) (listed is_reversed.now)) }
    ensures sound { IfOk result (λ v. IsSound (plain v)) }
    ensures rows { IfOk result (λ v. (rows : List (List ℕ)) → AreRows (plain layered) rows → AreRows (plain v) rows) }
    ensures linked { IfOk result
        (λ v. (rows : List (List ℕ)) (tops : List ℤ) (layers : List ℕ)
        → AreLinked (plain_level level.now) (plain_plan layered order.now [] (listed is_reversed.now)) layers
        → AreLinked (plain_level level.now) (plan_of (plain v) rows tops (listed is_reversed.now)) layers) }
    ensures kept { IfOk result (λ v. AreReranked (plain layered) (plain v)) }
{
    if has_ranks(level.children.as_slice()) {
        by_table(alloc, level, layered, order, is_reversed)
    } else {
        Ok(unranked(layered))
    }
}
