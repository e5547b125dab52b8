//! The nodes with a surplus, in the order in which they are drained.

ghost use Rattle.std.specs.Prelude.{◌≡◌, ◌≤◌, ◌^◌, length, IfOk};
ghost use Rattle.flow_dual.specs.Augmented.{AreWaiting};

use std::alloc::{AllocError, Global};

/// A node with a surplus, and the layer in which it stands.
#[derive(Clone, Copy)]
pub struct Source {
    pub layer: i64,
    pub node: u32,
}

// The nodes with a surplus, by number.
fn listed(alloc: Global, layer: &[i64], excess: &[i64]) -> Result<Vec<Source>, AllocError>
    requires as_many { length excess.now ≡ length layer.now }
    requires few { length layer.now ≤ 2 ^ 23 }
    ensures { IfOk result (λ v. AreWaiting (length layer.now) excess.now v.items) }
{
    let mut sources: Vec<Source> = Vec::new(alloc);
    for v in 0..layer.len() {
        if excess[v] > 0 {
            sources.push(Source {
                layer: layer[v],
                node: v as u32,
            })?;
        }
    }
    Ok(sources)
}

/// The nodes with a surplus, those in the least layers first.
pub fn sources_of(alloc: Global, layer: &[i64], excess: &[i64]) -> Result<Vec<Source>, AllocError>
    requires as_many { length excess.now ≡ length layer.now }
    requires few { length layer.now ≤ 2 ^ 23 }
    ensures { IfOk result (λ v. AreWaiting (length layer.now) excess.now v.items) }
{
    let mut sources = listed(alloc, layer, excess)?;
    sources.sort_by_key(|s| s.layer)?;
    Ok(sources)
}
