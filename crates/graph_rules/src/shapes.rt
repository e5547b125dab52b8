//! The rules on numbers and on kinds of values.

use crate::context::{Context, is_extended};
use crate::finds::{Case, Find};
use crate::ids::is_id;
use json_places::{Kind, Step, copied};
use serde_json::value::Map;
use serde_json::{Number, Value};
use std::alloc::{AllocError, Global};

// Whole numbers from here on are no numbers of the engine.
const TOO_LARGE: f64 = 18446744073709551616.0;

const TOO_SMALL: f64 = -9223372036854775808.0;

// Whether a number is written without a fraction and an exponent.
fn is_whole(number: &Number) -> bool {
    if number.as_i128().is_some() {
        return true;
    }
    match number.as_f64() {
        Some(number) => number == number.floor() && TOO_SMALL <= number && number < TOO_LARGE,
        None => false,
    }
}

// The numbers of a document that aren't whole.
#[derive(Drop)]
struct Fractions<'a> {
    alloc: Global,
    steps: Vec<Step>,
    finds: Vec<Find<'a>>,
}

impl<'a> Fractions<'a> {
    fn number(&mut self, value: &'a Value, number: &Number) -> Result<(), AllocError> {
        if !is_whole(number) {
            let names = copied(self.alloc, self.steps.as_slice())?;
            self.finds.push(Find {
                rule: 2,
                element: None,
                names,
                case: Case::Fraction(value),
            })?;
        }
        Ok(())
    }

    fn begin(&mut self, step: Step) -> Result<(), AllocError> {
        self.steps.push(step)?;
        Ok(())
    }

    fn end(&mut self) {
        self.steps.pop();
    }
}

#[cycle(fractions)]
fn fractions_in<'a>(
    value: &'a Value,
    alloc: Global,
    found: &mut Fractions<'a>,
) -> Result<(), AllocError> {
    match value {
        Value::Number(number) => found.number(value, number),
        Value::Array(items) => fractions_of_items(items, alloc, found),
        Value::Object(members) => fractions_of_members(members, alloc, found),
        _ => Ok(()),
    }
}

#[cycle(fractions)]
fn fractions_of_items<'a>(
    items: &'a Vec<Value>,
    alloc: Global,
    found: &mut Fractions<'a>,
) -> Result<(), AllocError> {
    let mut at: usize = 0;
    for item in items {
        found.begin(Step::At(at))?;
        fractions_in(item, alloc, found)?;
        found.end();
        at = at.saturating_add(1);
    }
    Ok(())
}

#[cycle(fractions)]
fn fractions_of_members<'a>(
    members: &'a Map<String, Value>,
    alloc: Global,
    found: &mut Fractions<'a>,
) -> Result<(), AllocError> {
    for (key, member) in members.iter() {
        found.begin(Step::named(alloc, key.as_str())?)?;
        fractions_in(member, alloc, found)?;
        found.end();
    }
    Ok(())
}

// Rule 2, with which the list of all that is found begins.
pub(crate) fn not_whole<'a>(
    alloc: Global,
    document: &'a Value,
) -> Result<Vec<Find<'a>>, AllocError> {
    let mut found = Fractions {
        alloc,
        steps: Vec::new(alloc),
        finds: Vec::new(alloc),
    };
    fractions_in(document, alloc, &mut found)?;
    Ok(found.finds)
}

// The kind of value that a member has.
#[derive(Clone, Copy, Debug, Drop, PartialEq, Eq)]
enum Form {
    Object,
    List,
    Ids,
    Id,
    Number,
}

impl Form {
    fn takes(self, value: &Value) -> bool {
        match self {
            Form::Object => value.is_object(),
            Form::List | Form::Ids => value.is_array(),
            Form::Id => is_id(value),
            Form::Number => value.is_number(),
        }
    }

    fn words(self) -> &'static str {
        match self {
            Form::Object => "an object",
            Form::List => "an array of objects",
            Form::Ids => "an array of ids",
            Form::Id => "a text or a whole number",
            Form::Number => "a number",
        }
    }
}

// A member with its form, and whether it must be there.
type Member = (&'static str, Form, bool);

const OF_NODES: [Member; 6] = [
    ("children", Form::List, false),
    ("ports", Form::List, false),
    ("edges", Form::List, false),
    ("layoutOptions", Form::Object, false),
    ("width", Form::Number, false),
    ("height", Form::Number, false),
];

const OF_PORTS: [Member; 5] = [
    ("layoutOptions", Form::Object, false),
    ("width", Form::Number, false),
    ("height", Form::Number, false),
    ("x", Form::Number, false),
    ("y", Form::Number, false),
];

const OF_EDGES: [Member; 1] = [("layoutOptions", Form::Object, false)];

const LISTED: [Member; 2] = [("sources", Form::Ids, true), ("targets", Form::Ids, true)];

const PLAIN: [Member; 4] = [
    ("source", Form::Id, true),
    ("target", Form::Id, true),
    ("sourcePort", Form::Id, false),
    ("targetPort", Form::Id, false),
];

fn members_of(kind: Kind) -> &'static [Member] {
    match kind {
        Kind::Node => &OF_NODES,
        Kind::Port => &OF_PORTS,
        Kind::Edge => &OF_EDGES,
    }
}

// The shapes of a document's elements, of which one is looked at.
#[derive(Drop)]
struct Shapes<'a> {
    alloc: Global,
    number: usize,
    value: &'a Value,
    finds: Vec<Find<'a>>,
}

impl<'a> Shapes<'a> {
    fn add(
        &mut self,
        name: Option<&str>,
        at: Option<usize>,
        case: Case<'a>,
    ) -> Result<(), AllocError> {
        let mut names = Vec::new(self.alloc);
        if let Some(name) = name {
            names.push(Step::named(self.alloc, name)?)?;
        }
        if let Some(at) = at {
            names.push(Step::At(at))?;
        }
        self.finds.push(Find {
            rule: 3,
            element: Some(self.number),
            names,
            case,
        })?;
        Ok(())
    }

    fn items(&mut self, name: &'static str, value: &'a Value) -> Result<(), AllocError> {
        if let Value::Array(items) = value {
            for (at, item) in items.iter().enumerate() {
                if !is_id(item) {
                    self.add(Some(name), Some(at), Case::Form(item, Form::Id.words()))?;
                }
            }
        }
        Ok(())
    }

    fn member(&mut self, member: Member) -> Result<(), AllocError> {
        let (name, form, is_due) = member;
        let Some(value) = self.value.get(name) else {
            return match (is_due, name) {
                (false, _) => Ok(()),
                (true, "id") => self.add(Some(name), None, Case::NoId),
                _ => self.add(Some(name), None, Case::Missing(form.words())),
            };
        };
        if form == Form::Ids && form.takes(value) {
            return self.items(name, value);
        }
        if form.takes(value) {
            return Ok(());
        }
        let case = if form == Form::Number && value.is_null() {
            Case::Unmeasured(value)
        } else {
            Case::Form(value, form.words())
        };
        self.add(Some(name), None, case)
    }

    fn members(&mut self, members: &[Member]) -> Result<(), AllocError> {
        for member in members {
            self.member(*member)?;
        }
        Ok(())
    }

    fn element(&mut self, kind: Kind, is_root: bool) -> Result<(), AllocError> {
        let value = self.value;
        if !value.is_object() {
            return self.add(None, None, Case::Form(value, Form::Object.words()));
        }
        if kind == Kind::Edge && !has_ends(value) {
            return self.add(None, None, Case::NoEnds);
        }
        self.members(members_of(kind))?;
        self.member(("id", Form::Id, !is_root))?;
        if kind != Kind::Edge {
            return Ok(());
        }
        self.members(if is_extended(value) { &LISTED } else { &PLAIN })
    }
}

fn has_ends(edge: &Value) -> bool {
    is_extended(edge) || edge.get("source").is_some() || edge.get("target").is_some()
}

// Rule 3.
pub(crate) fn bad_shapes<'a>(
    alloc: Global,
    context: &Context<'a>,
    document: &'a Value,
) -> Result<Vec<Find<'a>>, AllocError> {
    let mut shapes = Shapes {
        alloc,
        number: 0,
        value: document,
        finds: Vec::new(alloc),
    };
    for (number, element) in context.elements.iter().enumerate() {
        shapes.number = number;
        shapes.value = element.value;
        shapes.element(element.kind, element.holder.is_none())?;
    }
    Ok(shapes.finds)
}
