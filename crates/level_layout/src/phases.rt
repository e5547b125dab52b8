//! The units of a level with the ranks of pins, and the order of its rows.
ghost use Rattle.std.specs.Prelude.{◌≡◌, length, IfOk, IsNone};
ghost use Rattle.std.specs.List.{All};
ghost use Rattle.elk_layers.specs.Layered.{plain, rows_of, AreRows, IsSound};
ghost use Rattle.level_model.specs.Conditions.{plain_level, IsLevel};
ghost use Rattle.cross_reduce.specs.Reduced.{IsReduced};
ghost use Rattle.layer_units.specs.Marks.{listed};
ghost use Rattle.level_layout.specs.Certificate.{IsCertificateOf};
ghost use Rattle.level_layout.specs.Chosen.{AreChosenRows, IsHeldOrder, held_keys};
ghost use Rattle.level_layout.specs.Phases.{AreRankedUnits, IsStart};

use crate::keys::{are_free, keys_of};
use crate::units::units_for;
use cross_reduce::{reduce_held, reduce_with_effort};
use elk_doc::drawing::Certificate;
use elk_layers::{Layered, Order, copy_of};
use layer_units::{ranked, start_of};
use level_choices::{RowOrder, effort_of, order_of};
use level_model::LevelIn;
use std::alloc::{AllocError, Global};

/// The units and links of a level with the ranks of pins, and the rows to start with.
#[derive(Drop)]
pub(crate) struct Start {
    pub layered: Layered,
    pub rows: Order,
}

/// The units and links of a level by its certificate, without heights and pins, and its rows in document order. `is_reversed` marks
/// the certificate's reversed edges.
pub(crate) fn start_for(
    alloc: Global,
    level: &LevelIn,
    certificate: &Certificate,
    is_reversed: &[bool],
) -> Result<Start, AllocError>
    requires level { IsLevel (plain_level level.now) }
    requires certificate { IsCertificateOf (plain_level level.now) certificate.now }
    requires marks { length is_reversed.now ≡ length level.now.edges }
    requires listed { certificate.now.reversed ≡ listed is_reversed.now }
    ensures units { IfOk result (λ v. AreRankedUnits (plain_level level.now) certificate.now v.layered) }
    ensures rows { IfOk result (λ v. AreRows (plain v.layered) (rows_of v.rows)) }
    ensures start { IfOk result (λ v. IsStart (plain v.layered) (rows_of v.rows)) }
{
    let layers = certificate.layers.as_slice();
    let blank = units_for(alloc, level, layers, is_reversed)?;
    let rows = start_of(alloc, &blank)?;
    let layered = ranked(alloc, level, blank, &rows, is_reversed)?;
    Ok(Start { layered, rows })
}

/// The order of a start's rows with few crossings, by so much work.
fn swept_order(
    alloc: Global,
    layered: &Layered,
    start: &Order,
    effort: u32,
) -> Result<Order, AllocError>
    requires sound { IsSound (plain layered.now) }
    requires rows { AreRows (plain layered.now) (rows_of start.now) }
    ensures reduced { IfOk result (λ v. IsReduced (plain layered.now) (rows_of start.now) (rows_of v)) }
    ensures rows { IfOk result (λ v. AreRows (plain layered.now) (rows_of v)) }
{
    let copy = copy_of(alloc, start)?;
    let order = reduce_with_effort(alloc, layered, copy, effort)?;
    Ok(order)
}

/// The order of a start's rows in which the units with these keys are held.
fn order_by_keys(
    alloc: Global,
    layered: &Layered,
    start: &Order,
    keys: &[Option<i64>],
    effort: u32,
) -> Result<Order, AllocError>
    requires sound { IsSound (plain layered.now) }
    requires rows { AreRows (plain layered.now) (rows_of start.now) }
    requires keys { length keys.now ≡ length (plain layered.now).units }
    ensures held { IfOk result (λ v. IsHeldOrder (plain layered.now) keys.now (rows_of start.now) (rows_of v)) }
    ensures rows { IfOk result (λ v. AreRows (plain layered.now) (rows_of v)) }
{
    let copy = copy_of(alloc, start)?;
    let order = reduce_held(alloc, layered, copy, keys, effort)?;
    Ok(order)
}

/// The order that the usual search finds from a start's rows. No unit has a key, so none is held.
fn order_without_keys(
    alloc: Global,
    layered: &Layered,
    start: &Order,
    keys: &[Option<i64>],
    effort: u32,
) -> Result<Order, AllocError>
    requires sound { IsSound (plain layered.now) }
    requires rows { AreRows (plain layered.now) (rows_of start.now) }
    requires free { All (λ k. IsNone k) keys.now }
    ensures held { IfOk result (λ v. IsHeldOrder (plain layered.now) keys.now (rows_of start.now) (rows_of v)) }
    ensures rows { IfOk result (λ v. AreRows (plain layered.now) (rows_of v)) }
{
    let order = swept_order(alloc, layered, start, effort)?;
    Ok(order)
}

/// The order of a start's rows in which the units with these keys are held, and if none has a key, that of the usual search.
fn order_with(
    alloc: Global,
    layered: &Layered,
    start: &Order,
    keys: &[Option<i64>],
    effort: u32,
) -> Result<Order, AllocError>
    requires sound { IsSound (plain layered.now) }
    requires rows { AreRows (plain layered.now) (rows_of start.now) }
    requires keys { length keys.now ≡ length (plain layered.now).units }
    ensures held { IfOk result (λ v. IsHeldOrder (plain layered.now) keys.now (rows_of start.now) (rows_of v)) }
    ensures rows { IfOk result (λ v. AreRows (plain layered.now) (rows_of v)) }
{
    if are_free(keys) {
        return order_without_keys(alloc, layered, start, keys, effort);
    }
    order_by_keys(alloc, layered, start, keys, effort)
}

/// The order of a start's rows in which the children that the level holds ascend.
fn held_order(
    alloc: Global,
    level: &LevelIn,
    layered: &Layered,
    start: &Order,
) -> Result<Order, AllocError>
    requires sound { IsSound (plain layered.now) }
    requires rows { AreRows (plain layered.now) (rows_of start.now) }
    ensures held { IfOk result
        (λ v. IsHeldOrder (plain layered.now) (held_keys (plain_level level.now) (plain layered.now)) (rows_of start.now) (rows_of v)) }
    ensures rows { IfOk result (λ v. AreRows (plain layered.now) (rows_of v)) }
{
    let keys = keys_of(alloc, level, layered.units.as_slice())?;
    let order = order_with(
        alloc,
        layered,
        start,
        keys.as_slice(),
        effort_of(&level.choices),
    )?;
    Ok(order)
}

/// The order of a start's rows that the level asks for: one with few crossings, in which children are held or not.
pub(crate) fn order_for(
    alloc: Global,
    level: &LevelIn,
    layered: &Layered,
    start: &Order,
) -> Result<Order, AllocError>
    requires sound { IsSound (plain layered.now) }
    requires rows { AreRows (plain layered.now) (rows_of start.now) }
    ensures chosen { IfOk result (λ v. AreChosenRows (plain_level level.now) (plain layered.now) (rows_of start.now) (rows_of v)) }
    ensures rows { IfOk result (λ v. AreRows (plain layered.now) (rows_of v)) }
{
    match order_of(&level.choices) {
        RowOrder::Swept => swept_order(alloc, layered, start, effort_of(&level.choices)),
        RowOrder::Document => held_order(alloc, level, layered, start),
        RowOrder::Kept => held_order(alloc, level, layered, start),
    }
}
