//! The certificate of a level from those of its parts.
ghost use Rattle.std.specs.Prelude.{◌≡◌, ◌<◌, ◌≤◌, ◌^◌, [], ℕ, length, slice_index, slice_index_or, IfOk};
ghost use Rattle.std.specs.List.{filter, range_with_len};
ghost use Rattle.level_parts.specs.Split.{part_at};
ghost use Rattle.rotated_levels.specs.CertificateJoined.{spans_to};
ghost use Rattle.level_split.specs.Gathered.{AreFlows, AreLayers, AreMarked, AreSeated, AreReversals, certificate_at, is_marked, marks_in};

use level_draw::LevelOut;
use level_parts::PartLevel;
use std::alloc::{AllocError, Global};

// The layer of a child, by its part and its place there.
fn layer_at(outs: &[LevelOut], part: u32, place: u32) -> u32
    requires part { part < length outs.now }
    requires place { place < length (certificate_at outs.now part).layers }
    ensures { result ≡ slice_index (certificate_at outs.now part).layers place }
{
    outs[part as usize].certificate.layers.as_slice()[place as usize]
}

/// The layers of all children.
pub(crate) fn layers_of(
    alloc: Global,
    outs: &[LevelOut],
    parts: &[u32],
    places: &[u32],
) -> Result<Vec<u32>, AllocError>
    requires { AreSeated parts.now places.now (length outs.now) (λ k. length (certificate_at outs.now k).layers) }
    ensures { IfOk result (λ layers. AreLayers outs.now parts.now places.now (length parts.now) layers.items) }
{
    let mut layers = Vec::with_capacity(alloc, parts.len())?;
    for i in 0..parts.len() {
        layers.push(layer_at(outs, parts[i], places[i]))?;
    }
    Ok(layers)
}

// The flow of an edge, by its part and its place there.
fn flow_at(outs: &[LevelOut], part: u32, place: u32) -> u64
    requires part { part < length outs.now }
    requires place { place < length (certificate_at outs.now part).flow }
    ensures { result ≡ slice_index (certificate_at outs.now part).flow place }
{
    outs[part as usize].certificate.flow.as_slice()[place as usize]
}

/// The flow of all edges.
pub(crate) fn flow_of(
    alloc: Global,
    outs: &[LevelOut],
    parts: &[u32],
    places: &[u32],
) -> Result<Vec<u64>, AllocError>
    requires { AreSeated parts.now places.now (length outs.now) (λ k. length (certificate_at outs.now k).flow) }
    ensures { IfOk result (λ flow. AreFlows outs.now parts.now places.now (length parts.now) flow.items) }
{
    let mut flow = Vec::with_capacity(alloc, parts.len())?;
    for i in 0..parts.len() {
        flow.push(flow_at(outs, parts[i], places[i]))?;
    }
    Ok(flow)
}

// Marks the numbers that are listed among those below a count.
fn listed_marks(alloc: Global, listed: &[u32], count: usize) -> Result<Vec<bool>, AllocError>
    requires { (i : ℕ) → i < length listed.now → slice_index listed.now i < count }
    ensures { IfOk result (λ marks. AreMarked listed.now count (length listed.now) marks.items) }
{
    let mut marks = vec![in alloc; false; count]?;
    for i in 0..listed.len() {
        marks[listed[i] as usize] = true;
    }
    Ok(marks)
}

/// For each part marks at the edges that are reversed.
pub(crate) fn reversals_of(
    alloc: Global,
    parts: &[PartLevel],
    outs: &[LevelOut],
) -> Result<Vec<Vec<bool>>, AllocError>
    requires same { length outs.now ≡ length parts.now }
    requires listed { (k i : ℕ) → k < length outs.now → i < length (certificate_at outs.now k).reversed
        → slice_index (certificate_at outs.now k).reversed i < length (part_at parts.now k).edges }
    ensures { IfOk result (λ marks. AreReversals outs.now (λ k. length (part_at parts.now k).edges) (length parts.now) (marks_in marks.items)) }
{
    let mut marks = Vec::with_capacity(alloc, parts.len())?;
    for i in 0..parts.len() {
        let listed = outs[i].certificate.reversed.as_slice();
        marks.push(listed_marks(alloc, listed, parts[i].edges.len())?)?;
    }
    Ok(marks)
}

/// The edges that are reversed, in ascending order.
pub(crate) fn reversed_of(
    alloc: Global,
    marks: &[Vec<bool>],
    parts: &[u32],
    places: &[u32],
) -> Result<Vec<u32>, AllocError>
    requires few { length parts.now ≤ 2048 }
    requires seats { AreSeated parts.now places.now (length marks.now) (λ k. length (slice_index_or (marks_in marks.now) k [])) }
    ensures { IfOk result (λ found. found.items ≡ filter (is_marked (marks_in marks.now) parts.now places.now) (range_with_len 0 (length parts.now))) }
{
    let mut found = Vec::new(alloc);
    for i in 0..parts.len() {
        if marks[parts[i] as usize][places[i] as usize] {
            found.push(i as u32)?;
        }
    }
    Ok(found)
}

/// The spans of all parts together.
pub(crate) fn total_span(outs: &[LevelOut]) -> u64
    requires { spans_to (certificate_at outs.now) (length outs.now) < 2 ^ 64 }
    ensures { result ≡ spans_to (certificate_at outs.now) (length outs.now) }
{
    let mut total = 0;
    for i in 0..outs.len() {
        total += outs[i].certificate.span;
    }
    total
}
