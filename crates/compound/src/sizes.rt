//! The sizes of boxes by node.
ghost use Rattle.std.specs.Prelude.{◌≡◌, IfOk, map};
ghost use Rattle.compound.specs.Work.{given_size};

use drawing_types::shape::Size;
use elk_doc::document::Node;
use std::alloc::{AllocError, Global};

/// The sizes that a document gives its nodes: none to a compound node. The only error is out of memory.
pub(crate) fn given_sizes(alloc: Global, nodes: &[Node]) -> Result<Vec<Size>, AllocError>
    ensures { IfOk result (λ sizes. sizes.items ≡ map given_size nodes.now) }
{
    let mut sizes = Vec::with_capacity(alloc, nodes.len())?;
    for node in nodes {
        sizes.push(node.size)?;
    }
    Ok(sizes)
}
