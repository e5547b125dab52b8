//! The gaps of a level.
ghost use Rattle.std.specs.Prelude.{◌≡◌, ◌+◌, [], length, IfOk, OnOk};
ghost use Rattle.level_model.specs.Marks.{AreMarks};
ghost use Rattle.level_nets.specs.Parts.{IsGiven};
ghost use Rattle.level_nets.specs.Held.{plain_gaps};
ghost use Rattle.level_nets.specs.Reach.{AreColumnsIn, IsSheet, parts_in};
ghost use Rattle.level_nets.specs.Read.{HoldNets, names_of};
ghost use Rattle.level_nets.specs.Routed.{AreEmpty, AreGapsIn, AreGapsOf, AreLegsOf, ArePlaces, AreRouted};

use crate::borders::{column_widths, place_gaps};
pub use crate::pushing::LoopLegs;
use crate::pushing::{push_docks, push_links, push_loops};
use crate::sheet::Sheet;
use drawing_types::list::Items;
use net_routes::Slots;
use route_lines::Gap;
use std::alloc::{AllocError, Global};

/// The gaps of a level from left to right, one more than its layers, with their nets and slots; and the places of nets in
/// their gaps: of each link, of each inverted dock by end (edge e has its source at the end 2e and its target at the end
/// 2e + 1), and of each self-loop's passages by edge. A place counts only where there is such a net.
#[derive(Drop)]
pub struct Routing {
    pub gaps: Items<Gap>,
    pub links: Items<u32>,
    pub docks: Items<u32>,
    pub loops: Items<LoopLegs>,
}

// The places of nets in their gaps.
#[derive(Drop)]
struct Places {
    links: Vec<u32>,
    docks: Vec<u32>,
    loops: Vec<LoopLegs>,
}

// So many gaps without nets.
fn empty_gaps(alloc: Global, count: usize) -> Result<Vec<Gap>, AllocError>
    ensures { IfOk result (λ gaps. AreEmpty count (plain_gaps gaps.items)) }
{
    let mut gaps = Vec::new(alloc);
    for _ in 0..count {
        gaps.push(Gap {
            left: 0,
            first: 0,
            step: 0,
            right: 0,
            nets: Vec::new(alloc),
            slots: Slots {
                count: 0,
                routes: Vec::new(alloc),
            },
        })?;
    }
    Ok(gaps)
}

// Puts all nets into gaps that have none, and tells their places there.
fn fill_gaps(alloc: Global, sheet: &Sheet<'_>, gaps: &mut [Gap]) -> Result<Places, AllocError>
    requires sheet { IsSheet sheet.now }
    requires empty { AreEmpty (sheet.now.layered.now.layers + 1) (plain_gaps gaps.old) }
    ensures held { OnOk result (HoldNets (parts_in sheet.now) (names_of (parts_in sheet.now)) (plain_gaps gaps.new)) }
    ensures places { IfOk result (λ places. ArePlaces (parts_in sheet.now) places) }
{
    let links = push_links(alloc, sheet, gaps)?;
    let docks = push_docks(alloc, sheet, gaps)?;
    let loops = push_loops(alloc, sheet, gaps)?;
    Ok(Places {
        links,
        docks,
        loops,
    })
}

// The same, and then finds slots and sets borders.
fn fill_and_place(alloc: Global, sheet: &Sheet<'_>, gaps: &mut [Gap]) -> Result<Places, AllocError>
    requires sheet { IsSheet sheet.now }
    requires given { IsGiven (parts_in sheet.now) }
    requires columns { AreColumnsIn (parts_in sheet.now) }
    requires empty { AreEmpty (sheet.now.layered.now.layers + 1) (plain_gaps gaps.old) }
    ensures routed { OnOk result (AreRouted (parts_in sheet.now) (plain_gaps gaps.new)) }
    ensures places { IfOk result (λ places. ArePlaces (parts_in sheet.now) places) }
{
    let places = fill_gaps(alloc, sheet, gaps)?;
    let widths = column_widths(alloc, sheet)?;
    place_gaps(alloc, sheet, widths.as_slice(), gaps)?;
    Ok(places)
}

/// The gaps of a level, with nets, slots and borders, before the level is moved: its first gap begins at 0, and its tops are
/// those of the sheet.
///
/// The nets of a gap are those of links, of inverted docks and of self-loops, in this order, each in document order.
///
/// Proved:
/// - The gaps of a level with their nets, slots and borders. The slots keep the promise that the level asks for, FEWEST or UNCROSSED
///   (see route_slots).
/// - Which net of its gap each link, each inverted dock and each passage of a self-loop is.
/// - All these are those of the plan, and in range.
pub fn gaps_of(alloc: Global, sheet: &Sheet<'_>) -> Result<Routing, AllocError>
    requires given { IsGiven (parts_in sheet.now) }
    requires marked { AreMarks sheet.now.reversed.now (length sheet.now.level.now.edges) sheet.now.is_reversed.now }
    ensures count { IfOk result (λ r. length r.gaps ≡ sheet.now.layered.now.layers + 1) }
    ensures gaps { IfOk result (λ r. AreGapsOf (parts_in sheet.now) r.gaps) }
    ensures legs { IfOk result (λ r. AreLegsOf (parts_in sheet.now) r) }
    ensures range { IfOk result (λ r. AreGapsIn r.gaps) }
{
    let mut gaps = empty_gaps(alloc, sheet.layered.layers as usize + 1)?;
    let places = fill_and_place(alloc, sheet, gaps.as_mut_slice())?;
    Ok(Routing {
        gaps: Items::from_vec(gaps),
        links: Items::from_vec(places.links),
        docks: Items::from_vec(places.docks),
        loops: Items::from_vec(places.loops),
    })
}
