//! The keys by which the children of a layer are held.
ghost use Rattle.std.specs.Prelude.{◌≡◌, ◌↔◌, map, IfOk, IsNone, IsTrue};
ghost use Rattle.std.specs.List.{All};
ghost use Rattle.level_choices.specs.Choices.{order_of};
ghost use Rattle.level_model.specs.Conditions.{plain_level};
ghost use Rattle.level_model.specs.Level.{child_at};
ghost use Rattle.level_layout.specs.Chosen.{key_for, unit_key};

use elk_layers::Unit;
use level_choices::{RowOrder, order_of};
use level_model::LevelIn;
use std::alloc::{AllocError, Global};

// The position of a child, if it has one.
fn position_of(level: &LevelIn, child: u32) -> Option<i64>
    ensures { result ≡ (child_at (plain_level level.now) child).position }
{
    match level.children.as_slice().get(child as usize) {
        Some(child) => child.position,
        None => None,
    }
}

// The key of a child: its number, its position, or none, as the level asks.
fn child_key(level: &LevelIn, child: u32) -> Option<i64>
    ensures { result ≡ key_for (order_of level.now.choices) (plain_level level.now) child }
{
    match order_of(&level.choices) {
        RowOrder::Swept => None,
        RowOrder::Document => Some(child as i64),
        RowOrder::Kept => position_of(level, child),
    }
}

// The key of a unit: that of its child.
fn unit_key(level: &LevelIn, unit: &Unit) -> Option<i64>
    ensures { result ≡ unit_key (plain_level level.now) unit.now }
{
    match unit.child {
        Some(child) => child_key(level, child),
        None => None,
    }
}

/// The keys of these units: units of children have those of their children, and lanes of long edges none.
pub(crate) fn keys_of(
    alloc: Global,
    level: &LevelIn,
    units: &[Unit],
) -> Result<Vec<Option<i64>>, AllocError>
    ensures { IfOk result (λ v. v.items ≡ map (unit_key (plain_level level.now)) units.now) }
{
    let mut keys = Vec::with_capacity(alloc, units.len())?;
    for unit in units {
        keys.push(unit_key(level, unit))?;
    }
    Ok(keys)
}

fn is_free(key: Option<i64>) -> bool
    ensures { IsTrue result ↔ IsNone key }
{
    key.is_none()
}

/// Whether none of these is a key.
pub(crate) fn are_free(keys: &[Option<i64>]) -> bool
    ensures { IsTrue result ↔ All (λ k. IsNone k) keys.now }
{
    keys.iter().all(|key| is_free(*key))
}
