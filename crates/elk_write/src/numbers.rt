// The numbers of nodes, ports and edges in document order.
ghost use Rattle.std.specs.Prelude.{◌≡◌, ◌+◌, IfOk, length};
ghost use Rattle.serde_json.specs.View.{view, items_view};
ghost use Rattle.elk_json.specs.Elements.{listed, items_list};
ghost use Rattle.elk_write.specs.Numbers.{past_own as past_own_of};

use serde_json::Value;
use std::alloc::AllocError;

// The numbers that the next node, port and edge have.
#[derive(Clone, Copy, Drop, PartialEq, Eq, Debug)]
pub(crate) struct Numbers {
    pub(crate) node: usize,
    pub(crate) port: usize,
    pub(crate) edge: usize,
}

// The numbers that follow a node, its ports and its edges.
pub(crate) fn past_own(at: Numbers, value: &Value) -> Result<Numbers, AllocError>
    ensures { IfOk result (λ next. next ≡ past_own_of at (view value.now)) }
{
    let node = advanced(at.node, 1)?;
    let port = advanced(at.port, count(value, "ports"))?;
    let edge = advanced(at.edge, count(value, "edges"))?;
    Ok(Numbers { node, port, edge })
}

// How many items a member of the value has.
fn count(value: &Value, key: &str) -> usize
    ensures { result ≡ length (listed key.now (view value.now)) }
{
    match value.get(key).and_then(Value::as_array) {
        None => 0,
        Some(items) => item_count(items),
    }
}

#[tactic(auto, using(crate::proofs::Lists::length_items))]
pub(crate) fn item_count(items: &Vec<Value>) -> usize
    ensures { result ≡ length (items_list (items_view items.now.items)) }
{
    items.len()
}

// A number further on.
pub(crate) fn advanced(number: usize, by: usize) -> Result<usize, AllocError>
    ensures { IfOk result (λ n. n ≡ number + by) }
{
    match number.checked_add(by) {
        Some(sum) => Ok(sum),
        None => Err(AllocError),
    }
}
