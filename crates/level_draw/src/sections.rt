//! The sections of traces.
ghost use Rattle.std.specs.Prelude.{◌≡◌, map, length, IfOk};
ghost use Rattle.std.specs.List.{All};
ghost use Rattle.route_lines.specs.Points.{plain_gap};
ghost use Rattle.level_draw.specs.Joined.{AreJoinable, AreJoined};

use drawing_types::section::Section;
use route_lines::{Gap, Trace, join};
use std::alloc::{AllocError, Global};

/// The sections of traces through gaps, one for each.
pub(crate) fn sections_of(
    alloc: Global,
    gaps: &[Gap],
    traces: &[Trace],
) -> Result<Vec<Section>, AllocError>
    requires { AreJoinable gaps.now traces.now }
    ensures { IfOk result (λ sections. AreJoined gaps.now traces.now (length traces.now) sections.items) }
{
    let mut sections = Vec::with_capacity(alloc, traces.len())?;
    for trace in traces {
        sections.push(join(alloc, gaps, trace)?)?;
    }
    Ok(sections)
}
