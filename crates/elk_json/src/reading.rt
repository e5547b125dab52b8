//! Reading an element: its id and its options.
ghost use Rattle.std.specs.Prelude.{◌≡◌};
ghost use Rattle.serde_json.specs.View.{view};
ghost use Rattle.elk_json.specs.Members.{own_options as own_spec, options_in as options_spec, node_rule};
ghost use Rattle.elk_json.specs.Seen.{seen};

use crate::elements::{Element, Kind};
use crate::key::key_of;
use crate::members::has_children;
use elk_doc::document::PortRule;
use elk_options::{Options, Role, read_options};
use serde_json::Value;

// An element, with its id and its options read from its value.
pub(crate) fn element_of<'a>(
    kind: Kind,
    owner: Option<usize>,
    holder: &'a Value,
    value: &'a Value,
    rule: Option<PortRule>,
) -> Element<'a>
    requires { rule ≡ node_rule (record { kind = kind; owner = owner; holder = view holder.now; value = view value.now }) }
    ensures { seen result ≡ record { kind = kind; owner = owner; holder = view holder.now; value = view value.now } }
{
    let key = key_of(value);
    let options = own_options(kind, owner, value);
    Element {
        kind,
        owner,
        holder,
        value,
        key,
        options,
        rule,
    }
}

// The options of an element. They don't depend on what holds it, so its own value stands for that in the clause.
fn own_options(kind: Kind, owner: Option<usize>, value: &Value) -> Option<Options>
    ensures { result ≡ own_spec (record { kind = kind; owner = owner; holder = view value.now; value = view value.now }) }
{
    match kind {
        Kind::Node if owner.is_none() || has_children(value) => options_in(value, Role::Level),
        Kind::Node => options_in(value, Role::Leaf),
        Kind::Port => options_in(value, Role::Port),
        Kind::Edge => options_in(value, Role::Edge),
    }
}

fn options_in(value: &Value, role: Role) -> Option<Options>
    ensures { result ≡ options_spec role (view value.now) }
{
    read_options(value.get("layoutOptions"), role).ok()
}
