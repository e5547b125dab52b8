//! The units and links of a level, read off the chains of its edges.
ghost use Rattle.std.specs.Prelude.{◌≡◌, ℕ, ℤ, ◌≤◌, List, length, IfOk};
ghost use Rattle.elk_layers.specs.Layered.{IsSound, plain};
ghost use Rattle.level_model.specs.Conditions.{IsLevel, plain_level};
ghost use Rattle.level_model.specs.Units.{AreLinked};
ghost use Rattle.layer_units.specs.Layering.{layering, AreLayersOf, IsLayerCount, plan_with};
ghost use Rattle.layer_units.specs.Marks.{listed};
ghost use Rattle.layer_units.specs.Numbered.{AreNumberedUnits};

use crate::chaining::chains_of;
use elk_layers::Layered;
use layer_units::units_of;
use level_model::LevelIn;
use std::alloc::{AllocError, Global};

/// The units and links of a level whose children lie in these layers, without heights, pins and ranks: its long edges are split
/// into chains, and units and links read off these.
pub(crate) fn units_for(
    alloc: Global,
    level: &LevelIn,
    layers: &[u32],
    is_reversed: &[bool],
) -> Result<Layered, AllocError>
    requires level { IsLevel (plain_level level.now) }
    requires layering { AreLayersOf (plain_level level.now) (listed is_reversed.now) layers.now }
    requires marks { length is_reversed.now ≡ length level.now.edges }
    ensures linked { IfOk result
        (λ v. (rows : List (List ℕ)) (tops : List ℤ) → AreLinked (plain_level level.now) (plan_with v rows tops (listed is_reversed.now)) layers.now) }
    ensures sound { IfOk result (λ v. IsSound (plain v)) }
    ensures numbered { IfOk result (λ v. AreNumberedUnits (layering (plain_level level.now) (listed is_reversed.now) layers.now) (plain v)) }
    ensures layers { IfOk result (λ v. IsLayerCount layers.now v.layers) }
    ensures few_layers { IfOk result (λ v. v.layers ≤ 2048) }
    ensures node_node { IfOk result (λ v. v.node_node ≡ level.now.spacing.node_node) }
    ensures edge_node { IfOk result (λ v. v.edge_node ≡ level.now.spacing.edge_node) }
    ensures edge_edge { IfOk result (λ v. v.edge_edge ≡ level.now.spacing.edge_edge) }
{
    let split = chains_of(alloc, level, layers, is_reversed)?;
    let keys = split.keys.as_slice();
    units_of(alloc, level, layers, is_reversed, keys, &split.chains)
}
