//! The ranks of the ports of a level's children.
ghost use Rattle.std.specs.Prelude.{◌≡◌, length, map, true, IfOk};
ghost use Rattle.port_order.specs.Conditions.{IsChild};
ghost use Rattle.level_model.specs.Conditions.{plain_level, IsLevel};
ghost use Rattle.level_model.specs.Units as units;
ghost use Rattle.layer_units.specs.Levels.{AreRanksTo};
ghost use Rattle.layer_units.specs.Ports.{ArePortSpots, AreRanksOf, plain_ranks};

use crate::passing::port_spots;
use crate::ports::{PortRanks, ranks_of};
use elk_doc::document::PortRule;
use level_model::LevelIn;
use port_order::{Child, Spot};
use std::alloc::{AllocError, Global};

/// Whether a child's ports are ranked.
pub(crate) fn is_fixed(rule: PortRule) -> bool
    ensures { result ≡ units.is_fixed rule }
{
    match rule {
        PortRule::Free => false,
        PortRule::FixedSide => false,
        PortRule::FixedOrder => true,
        PortRule::FixedPos => true,
    }
}

// The ranks of a child's ports by their spots, or none where they aren't ranked.
fn ranks_of_child(alloc: Global, child: &Child, spots: &[Spot]) -> Result<PortRanks, AllocError>
    requires child { IsChild child.now }
    requires spots { ArePortSpots child.now spots.now }
    ensures { IfOk result (λ v. units.is_fixed child.now.rule ≡ true → AreRanksOf child.now spots.now (plain_ranks v)) }
{
    if !is_fixed(child.rule) {
        return Ok(PortRanks {
            before: Vec::new(alloc),
            west: 0,
            east: 0,
        });
    }
    let ranks = ranks_of(alloc, child, spots)?;
    Ok(ranks)
}

/// By child, the ranks of its ports.
pub(crate) fn ranks_of_children(
    alloc: Global,
    level: &LevelIn,
    marks: &[bool],
) -> Result<Vec<PortRanks>, AllocError>
    requires level { IsLevel (plain_level level.now) }
    requires marks { length marks.now ≡ length level.now.edges }
    ensures { IfOk result (λ vs. AreRanksTo (plain_level level.now) marks.now (length level.now.children) (map plain_ranks vs.items)) }
{
    let spots = port_spots(alloc, level, marks)?;
    let count = level.children.len();
    let mut ranks: Vec<PortRanks> = Vec::with_capacity(alloc, count)?;
    for c in 0..count {
        let child = level.children.at(c);
        let own = ranks_of_child(alloc, child, spots.at(c))?;
        ranks.push(own)?;
    }
    Ok(ranks)
}
