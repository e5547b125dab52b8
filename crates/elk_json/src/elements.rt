//! The elements of a value: nodes, ports and edges.
ghost use Rattle.std.specs.Prelude.{◌≡◌, option_map};
ghost use Rattle.serde_json.specs.View.{view};
ghost use Rattle.elk_json.specs.Members.{id_of, own_options, node_rule};
ghost use Rattle.elk_json.specs.Keys.{key_id};

pub use crate::collect::elements_of;
use crate::key::Key;
use elk_doc::document::PortRule;
use elk_options::Options;
use serde_json::Value;

/// What an element is.
#[derive(Clone, Copy, Drop, PartialEq, Eq)]
pub enum Kind {
    Node,
    Port,
    Edge,
}

/// A node, port or edge; the node that it stands at, by its place in the list, and that node's value; its own value, its
/// id, and its options, none where one that is read has a value outside its table; and at a port the rule for ports among
/// that node's options.
#[derive(Clone, Copy, Drop)]
pub struct Element<'a> {
    pub kind: Kind,
    pub owner: Option<usize>,
    pub holder: &'a Value,
    pub value: &'a Value,
    pub key: Option<Key<'a>>,
    pub options: Option<Options>,
    pub rule: Option<PortRule>,
    pub ghost keyed: { option_map key_id key ≡ id_of (view value.now) },
    pub ghost read: { options ≡ own_options (record { kind = kind; owner = owner; holder = view holder.now; value = view value.now }) },
    pub ghost ruled: { rule ≡ node_rule (record { kind = kind; owner = owner; holder = view holder.now; value = view value.now }) },
}
