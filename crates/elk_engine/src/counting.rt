//! How many edges the document has, and their weights.
ghost use Rattle.std.specs.Prelude.{◌≡◌, ◌≤◌};
ghost use Rattle.elk_engine.specs.DemoDocument.{edge_count, total_weight, triple_weight};

use crate::totals::Counts;

// The weight of the edge from a leaf to the leaf of three times its number.
pub(crate) fn triple_weight(number: u32) -> u32
    ensures { result ≡ triple_weight number }
{
    1 + number % 4
}

/// The counts of the document of `demo`, with this number of leaves.
pub fn counts(nodes: u32) -> Counts
    requires some { 1 ≤ nodes }
    requires few { nodes ≤ 1024 }
    ensures edges { result.edges ≡ edge_count nodes }
    ensures weight { result.weight ≡ total_weight nodes }
{
    let mut weight = nodes - 1;
    for number in 1..nodes / 3 + 1 {
        weight += triple_weight(number);
    }
    Counts {
        edges: nodes - 1 + nodes / 3,
        weight,
    }
}
