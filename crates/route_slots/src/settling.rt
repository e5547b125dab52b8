//! Neighbouring slots are exchanged until no exchange lessens the crossings.
ghost use Rattle.std.specs.Prelude.{◌≡◌, ◌<◌, ◌≤◌, ◌+◌, ◌^◌, ◌⊎◌, true, false, length, IfOk};
ghost use Rattle.net_routes.specs.Limits.{exchange_limit};
ghost use Rattle.net_routes.specs.Crossings.{crossings};
ghost use Rattle.route_slots.specs.Exchanges.{AreLaid, IsStep, AreSteps};
ghost use Rattle.net_routes.specs.Exchanges.{NoBetterExchange};

use crate::exchanging::{exchange, improves};
use net_routes::{Net, NetRoute, Slots};
use std::alloc::{AllocError, Global};

// Routes, and whether any slots were exchanged.
#[derive(Drop)]
struct Swept {
    routes: Vec<NetRoute>,
    changed: bool,
}

// Exchanges the slot and the next one, if that lessens the crossings.
fn step(
    alloc: Global,
    nets: &[Net],
    count: u32,
    routes: Vec<NetRoute>,
    slot: u32,
) -> Result<Swept, AllocError>
    requires few { length nets.now ≤ exchange_limit }
    requires slot { slot + 1 < count }
    requires slots { count < 2 ^ 31 }
    requires laid { AreLaid nets.now count routes.items }
    ensures { IfOk result (λ swept. IsStep nets.now count slot routes.items swept.routes.items swept.changed) }
{
    if !improves(nets, routes.as_slice(), slot) {
        return Ok(Swept {
            routes,
            changed: false,
        });
    }
    let others = exchange(alloc, slot, routes.as_slice())?;
    Ok(Swept {
        routes: others,
        changed: true,
    })
}

// Whether either is so.
fn either(changed: bool, now: bool) -> bool
    ensures yes { result ≡ true → (changed ≡ true) ⊎ (now ≡ true) }
    ensures no { result ≡ false → (changed ≡ false) × (now ≡ false) }
{
    changed | now
}

// Tries each slot and the next one once.
fn sweep(
    alloc: Global,
    nets: &[Net],
    count: u32,
    routes: Vec<NetRoute>,
) -> Result<Swept, AllocError>
    requires few { length nets.now ≤ exchange_limit }
    requires slots { count < 2 ^ 31 }
    requires laid { AreLaid nets.now count routes.items }
    ensures { IfOk result (λ swept. AreSteps nets.now count count routes.items swept.routes.items swept.changed) }
{
    let mut routes = routes;
    let mut changed = false;
    'slots: for slot in 1..count {
        let stepped = step(alloc, nets, count, routes, slot - 1)?;
        routes = stepped.routes;
        changed = either(changed, stepped.changed);
    }
    Ok(Swept { routes, changed })
}

/// The slots after exchanges of two neighbours as a whole, until none lessens the crossings. In a gap of more than 1,024
/// nets nothing is tried.
pub fn settle(alloc: Global, nets: &[Net], slots: Slots) -> Result<Slots, AllocError>
    requires slots { slots.count < 2 ^ 31 }
    requires laid { AreLaid nets.now slots.count slots.routes.items }
    ensures count { IfOk result (λ settled. settled.count ≡ slots.count) }
    ensures laid { IfOk result (λ settled. AreLaid nets.now settled.count settled.routes.items) }
    ensures most { IfOk result (λ settled. crossings nets.now settled.routes.items ≤ crossings nets.now slots.routes.items) }
    ensures none { IfOk result (λ settled. length nets.now ≤ exchange_limit → NoBetterExchange nets.now settled.count settled.routes.items) }
{
    let count = slots.count;
    if nets.len() > 1024 {
        return Ok(slots);
    }
    let mut routes = slots.routes;
    'sweeps: loop {
        let swept = sweep(alloc, nets, count, routes)?;
        routes = swept.routes;
        if !swept.changed {
            return Ok(Slots { count, routes });
        }
    }
}
