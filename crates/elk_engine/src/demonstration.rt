// What `demo` writes.
ghost use Rattle.std.specs.Prelude.{◌≡◌, ◌≤◌, ◌<◌, IfOk, IfSome, length};
ghost use Rattle.elk_doc.specs.Drawing.{certificate_of};
ghost use Rattle.elk_engine.specs.Demo.{demo_text, IsDemoLine};

use crate::counting::counts;
use crate::demo;
use crate::totals::Counts;
use compound::lay_out;
use elk_doc::drawing::Placed;
use std::alloc::{AllocError, Global};

// The span of the root's level.
fn root_span(placed: &Placed) -> u64
    requires { 0 < length placed.now.levels }
    ensures { IfSome (certificate_of placed.now 0) (λ c. result ≡ c.span) }
{
    match placed.certificate(0) {
        Some(certificate) => certificate.span,
        None => 0,
    }
}

// The line of a demo, with its counts and its span.
fn line_of(alloc: Global, leaves: u32, counts: Counts, span: u64) -> Result<Vec<u8>, AllocError>
    ensures { IfOk result (λ line. line.items ≡ demo_text leaves counts.edges counts.weight span) }
{
    let edges = counts.edges;
    let weight = counts.weight;
    let line = format!(in alloc; "nodes {leaves} edges {edges} weight {weight} span {span}\n")?;
    Ok(line.into_bytes())
}

/// The line of the document with this number of leaves, as it is laid out.
pub(crate) fn demo_line(alloc: Global, leaves: u32) -> Result<Vec<u8>, AllocError>
    requires some { 1 ≤ leaves }
    requires few { leaves ≤ 1024 }
    ensures { IfOk result (λ line. IsDemoLine leaves line.items) }
{
    let doc = demo(alloc, leaves)?;
    let placed = lay_out(alloc, &doc)?;
    line_of(alloc, leaves, counts(leaves), root_span(&placed))
}
