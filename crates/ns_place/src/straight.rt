//! The weights of links: more for those that are horizontal.

ghost use Rattle.std.specs.Prelude.{◌≡◌, map, IfOk, replicate};
ghost use Rattle.std.specs.List.{All};
ghost use Rattle.ns_place.specs.Heights.{IsNearLink};
ghost use Rattle.ns_place.specs.Straight as straight;

use crate::heights::height_of;
use elk_layers::Link;
use std::alloc::{AllocError, Global};

/// For each link the weight 1.
pub(crate) fn even_weights(alloc: Global, links: usize) -> Result<Vec<u32>, AllocError>
    ensures { IfOk result (λ v. v.items ≡ replicate links 1) }
{
    vec![in alloc; 1; links]
}

/// The weight of a link at these tops.
fn weight_for(straightness: u32, top: &[i64], link: Link) -> u32
    requires { IsNearLink top.now link }
    ensures { result ≡ straight.weight_for straightness top.now link }
{
    if height_of(top, link) == 0 {
        straightness
    } else {
        1
    }
}

/// By link, `straightness` if it is horizontal at these tops, and else 1.
pub(crate) fn weigh_straight(
    alloc: Global,
    straightness: u32,
    top: &[i64],
    links: &[Link],
) -> Result<Vec<u32>, AllocError>
    requires { All (IsNearLink top.now) links.now }
    ensures { IfOk result (λ v. v.items ≡ map (straight.weight_for straightness top.now) links.now) }
{
    let mut weights = Vec::with_capacity(alloc, links.len())?;
    for link in links {
        weights.push(weight_for(straightness, top, *link))?;
    }
    Ok(weights)
}
