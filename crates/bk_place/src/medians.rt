//! By unit, the medians of its links, so that a visit reads one entry of one list.
ghost use Rattle.std.specs.Prelude.{◌≡◌, ℕ, ◌<◌, List, length, map, slice_index, IfOk};
ghost use Rattle.std.specs.List.{All, range_with_len};
ghost use Rattle.elk_layers.specs.Layered.{plain, rows_of, link_at, IsSound, AreRows};
ghost use Rattle.elk_layers.specs.Alignment as spec;
ghost use Rattle.bk_place.specs.Choosing.{CanVisit, IsMarked};
ghost use Rattle.bk_place.specs.Medians.{median_for, medians_for, medians_at, ServesSide};
ghost use Rattle.bk_place.specs.Spokes.{numbers_of, AreFirsts};

use crate::choosing::Marked;
use crate::ends::far_end;
use crate::spokes::{Spoke, fan, firsts_of, spokes_of};
use drawing_types::sweep::Sweep;
use elk_layers::{Layered, Link};
use std::alloc::{AllocError, Global};

/// A link with the place of its far end.
#[derive(Clone, Copy)]
pub struct Median {
    pub number: u32,
    pub place: u32,
}

/// A unit's layer, and the medians of its links that are not marked: where their number is odd, both are one link.
#[derive(Clone, Copy)]
pub struct Medians {
    pub layer: u32,
    pub low: Option<Median>,
    pub high: Option<Median>,
}

/// A link with the place of its far end, if it isn't marked.
fn median_of(
    sweep: Sweep,
    links: &[Link],
    place: &[u32],
    marked: &[bool],
    number: u32,
) -> Option<Median>
    requires link { number < length links.now }
    requires marked { length marked.now ≡ length links.now }
    requires far { spec.far_end sweep (link_at links.now number) < length place.now }
    ensures { result ≡ median_for sweep links.now place.now marked.now number }
{
    if marked[number as usize] {
        return None;
    }
    let link = links[number as usize];
    Some(Median {
        number,
        place: place[far_end(sweep, link) as usize],
    })
}

/// The medians of a unit with these links.
fn medians_of(
    sweep: Sweep,
    links: &[Link],
    place: &[u32],
    marked: &[bool],
    layer: u32,
    fan: &[Spoke],
) -> Medians
    requires fan { All (λ k. k < length links.now) (numbers_of fan.now) }
    requires marked { length marked.now ≡ length links.now }
    requires far { (k : ℕ) → k < length links.now → spec.far_end sweep (link_at links.now k) < length place.now }
    ensures { result ≡ medians_for sweep links.now place.now marked.now layer (numbers_of fan.now) }
{
    if fan.is_empty() {
        return Medians {
            layer,
            low: None,
            high: None,
        };
    }
    let low = fan[(fan.len() - 1) / 2].number;
    let high = fan[fan.len() / 2].number;
    Medians {
        layer,
        low: median_of(sweep, links, place, marked, low),
        high: median_of(sweep, links, place, marked, high),
    }
}

/// The medians of all units, by the links of each.
fn medians_in(
    alloc: Global,
    layered: &Layered,
    known: &Marked,
    sweep: Sweep,
    spokes: &[Spoke],
    firsts: &[u32],
) -> Result<Vec<Medians>, AllocError>
    requires can { (rows : List (List ℕ)) × CanVisit (plain layered.now) rows sweep known.now.place.items known.now.marked.items spokes.now }
    requires firsts { AreFirsts spokes.now (length (plain layered.now).units) firsts.now }
    ensures { IfOk result
        (λ v. v.items
        ≡ map (medians_at (plain layered.now) sweep known.now.place.items known.now.marked.items spokes.now)
        (range_with_len 0 (length (plain layered.now).units))) }
{
    let units = layered.units.as_slice();
    let links = layered.links.as_slice();
    let place = known.place.as_slice();
    let marked = known.marked.as_slice();
    let mut table = Vec::with_capacity(alloc, units.len())?;
    for unit in 0..units.len() {
        let links_here = fan(spokes, firsts, unit as u32);
        let layer = units[unit].layer;
        table.push(medians_of(sweep, links, place, marked, layer, links_here))?;
    }
    Ok(table)
}

/// By unit, the medians that the sweeps to the side of this one try.
///
/// The only error is out of memory.
pub fn medians_by_unit(
    alloc: Global,
    layered: &Layered,
    known: &Marked,
    sweep: Sweep,
) -> Result<Vec<Medians>, AllocError>
    requires sound { IsSound (plain layered.now) }
    requires known { (rows : List (List ℕ)) × AreRows (plain layered.now) rows
        × IsMarked (plain layered.now) rows known.now.place.items known.now.marked.items }
    ensures { IfOk result
        (λ v. (rows : List (List ℕ)) → AreRows (plain layered.now) rows
        → IsMarked (plain layered.now) rows known.now.place.items known.now.marked.items
        → ServesSide (plain layered.now) rows sweep v.items) }
{
    let spokes = spokes_of(alloc, layered, sweep, known.place.as_slice())?;
    let firsts = firsts_of(alloc, spokes.as_slice(), layered.units.as_slice().len())?;
    medians_in(
        alloc,
        layered,
        known,
        sweep,
        spokes.as_slice(),
        firsts.as_slice(),
    )
}
