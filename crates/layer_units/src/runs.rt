//! The run of an edge through the layers.
ghost use Rattle.std.specs.Prelude.{◌≡◌, ◌<◌, ◌≤◌, ◌-◌, length, not};
ghost use Rattle.elk_layers.specs.Layered.{unit_at};
ghost use Rattle.level_model.specs.Conditions.{plain_level};
ghost use Rattle.level_model.specs.Level.{end_at, spoke};
ghost use Rattle.layer_units.specs.Grown.{IsShort};
ghost use Rattle.layer_units.specs.Layering.{tail_child};
ghost use Rattle.layer_units.specs.Numbered.{gaps_at, run_at, stop_of};

use level_model::{EdgeEnd, LevelIn};

/// The way of an oriented edge: from the unit of its tail in the layer `layer` through so many gaps to the unit of its head,
/// and between them over lanes that are numbered from `first` on. A self-loop passes no gap.
#[derive(Clone, Copy)]
pub struct Run {
    pub edge: u32,
    pub tail: u32,
    pub head: u32,
    pub layer: u32,
    pub gaps: u32,
    pub first: u32,
}

/// An end of an edge.
pub(crate) fn spoke_of(level: &LevelIn, edge: u32, at_source: bool) -> EdgeEnd
    requires { edge < length level.now.edges }
    ensures { result ≡ spoke (plain_level level.now) (end_at edge at_source) }
{
    let found = level.edges.at(edge as usize);
    if at_source {
        found.source
    } else {
        found.target
    }
}

/// The run of an edge, which may be reversed, through so many gaps.
pub(crate) fn run_of(
    level: &LevelIn,
    layers: &[u32],
    is_reversed: bool,
    edge: u32,
    gaps: u32,
    first: u32,
) -> Run
    requires edge { edge < length level.now.edges }
    requires tail { tail_child (plain_level level.now) is_reversed edge < length layers.now }
    requires gaps { gaps ≡ gaps_at (plain_level level.now) layers.now is_reversed edge }
    ensures { result ≡ run_at (plain_level level.now) layers.now is_reversed edge first }
{
    let tail = spoke_of(level, edge, !is_reversed).child;
    let head = spoke_of(level, edge, is_reversed).child;
    Run {
        edge,
        tail,
        head,
        layer: layers[tail as usize],
        gaps,
        first,
    }
}

/// How many lanes a run has.
pub(crate) fn lanes(run: Run) -> u32
    ensures { result ≡ run.gaps - 1 }
{
    if run.gaps == 0 {
        return 0;
    }
    run.gaps - 1
}

/// The unit that a run meets behind so many gaps.
pub(crate) fn stop(run: Run, gaps: u32) -> u32
    requires short { IsShort run }
    requires gaps { gaps ≤ run.gaps }
    ensures { result ≡ stop_of run gaps }
{
    if gaps == 0 {
        return run.tail;
    }
    if gaps == run.gaps {
        return run.head;
    }
    run.first + (gaps - 1)
}
