//! What is found in a document that is sent for a graph, told of the graph.

use crate::across::Levels;
use crate::details::Turned;
use graph_rules::{Case, Context, End, Find, is_same, key_of};
use json_places::{Kind, Step, carried_key, copied, general_key, steps_to, value_at};
use option_names::OptionTable;
use serde_json::Value;
use std::alloc::{AllocError, Global};
use std::collections::BTreeMap;

// A graph for which a document is sent.
#[derive(Drop)]
pub(crate) struct Origin<'g> {
    table: &'g OptionTable,
    pub(crate) graph: &'g Value,
    pub(crate) owners: &'g BTreeMap<String, Value>,
    pub(crate) general: &'g Value,
    // The levels of the graph, if edges cross any.
    pub(crate) levels: Option<Levels<'g>>,
    // Whether edges that cross borders are drawn, by their numbers in what is sent.
    across: BTreeMap<usize, bool>,
}

// Where a find stands: the steps, those to the element of the graph to which it belongs, and its id if it is made.
#[derive(Drop)]
struct Place<'g> {
    steps: Vec<Step>,
    owner: Vec<Step>,
    number: usize,
    made_of: Option<&'g Value>,
}

impl Place<'_> {
    fn into_steps(self) -> Vec<Step> {
        let Place {
            steps,
            owner,
            number: _,
            made_of: _,
        } = self;
        drop(owner);
        steps
    }
}

// These rules name no element.
fn is_nowhere(rule: u32) -> bool {
    matches!(rule, 2 | 3 | 5 | 6)
}

fn id_at<'a>(context: &Context<'a>, number: usize) -> Option<&'a Value> {
    let element = context.element(number)?;
    element.value.get("id")
}

// The id of what is found.
fn own_id(context: &Context, find: &Find) -> Result<Option<Value>, AllocError> {
    match find.element {
        Some(number) if !is_nowhere(find.rule) => match id_at(context, number) {
            Some(id) => Ok(Some(id.clone()?)),
            None => Ok(None),
        },
        _ => Ok(None),
    }
}

// The element for which another was made, by its id: one of the same kind if there is one. The root alone may have no id.
fn owner_of<'a>(context: &Context<'a>, number: usize, owner: &'a Value) -> usize {
    let (Some(element), Some(key)) = (context.element(number), key_of(Some(owner))) else {
        return 0;
    };
    let (end, edge) = (
        context.ends.get(&key).copied(),
        context.edges.get(&key).copied(),
    );
    let found = if element.kind == Kind::Edge {
        edge.or(end)
    } else {
        end.or(edge)
    };
    found.unwrap_or(number)
}

// Whether the graph has an element of an id where one stands in what is sent. Then that was sent under another id.
fn is_same_at(graph: &Value, steps: &[Step], id: &Value) -> bool {
    match value_at(graph, steps).and_then(|element| element.get("id")) {
        Some(own) => is_same(own, id),
        None => false,
    }
}

// How many ids an edge has at an end.
fn count_at(edge: Option<&Value>, end: End) -> usize {
    let ids = match edge {
        Some(edge) => edge.get(end.list()),
        None => None,
    };
    match ids {
        Some(Value::Array(ids)) => ids.len(),
        _ => 0,
    }
}

// The steps to the reference of an edge of several ends that was sent as the end of a pair; nothing where the edge has no such.
fn step_to_end(edge: &Value, found: &Value) -> Option<(&'static str, usize)> {
    for end in [End::Source, End::Target] {
        if let Some(Value::Array(ids)) = edge.get(end.list()) {
            if let Some(at) = ids.iter().position(|id| is_same(id, found)) {
                return Some((end.list(), at));
            }
        }
    }
    None
}

fn last_name(steps: &[Step]) -> &str {
    match steps.last() {
        Some(Step::Name(name)) => name.as_str(),
        _ => "",
    }
}

fn same_kind(context: &Context, one: usize, other: usize) -> bool {
    match (context.element(one), context.element(other)) {
        (Some(one), Some(other)) => one.kind == other.kind,
        _ => false,
    }
}

fn nowhere<'g>(alloc: Global, names: Vec<Step>) -> Place<'g> {
    Place {
        steps: names,
        owner: Vec::new(alloc),
        number: 0,
        made_of: None,
    }
}

// The steps to an element, and the names behind it if they are those of the same kind of element.
fn behind(
    alloc: Global,
    element: &[Step],
    names: Vec<Step>,
    is_same: bool,
) -> Result<Vec<Step>, AllocError> {
    let mut steps = copied(alloc, element)?;
    for name in names {
        if is_same {
            steps.push(name)?;
        }
    }
    Ok(steps)
}

// The id that is told of an element: that of the one for which it was made.
fn told_id(made_of: Option<&Value>, own: Option<Value>) -> Result<Option<Value>, AllocError> {
    let Some(owner) = made_of else {
        return Ok(own);
    };
    if own.is_none() || owner.is_null() {
        return Ok(None);
    }
    Ok(Some(owner.clone()?))
}

// The id of the graph that stands for that of a sent element; nothing if the graph has the same id there.
pub(crate) fn owner_in<'g>(
    owners: &'g BTreeMap<String, Value>,
    id: Option<&Value>,
) -> Option<&'g Value> {
    match id {
        Some(Value::String(id)) => owners.get(id.as_str()),
        _ => None,
    }
}

impl<'g> Origin<'g> {
    pub(crate) fn of(
        alloc: Global,
        table: &'g OptionTable,
        graph: &'g Value,
        owners: &'g BTreeMap<String, Value>,
        general: &'g Value,
    ) -> Origin<'g> {
        Origin {
            table,
            graph,
            owners,
            general,
            levels: None,
            across: BTreeMap::new(alloc),
        }
    }

    fn made_of(&self, context: &Context, number: usize) -> Option<&'g Value> {
        owner_in(self.owners, id_at(context, number))
    }

    // The element to which an id of the graph belongs that stands for that of a sent element: the same one, or that for which it was made.
    fn owner(
        &self,
        alloc: Global,
        context: &Context<'g>,
        number: usize,
        id: &'g Value,
    ) -> Result<usize, AllocError> {
        let own = steps_to(alloc, context.elements.as_slice(), number)?;
        Ok(if is_same_at(self.graph, own.as_slice(), id) {
            number
        } else {
            owner_of(context, number, id)
        })
    }

    // What is made stands behind what is given, so that steps in what was sent are steps in the graph.
    fn place(
        &self,
        alloc: Global,
        context: &Context<'g>,
        number: usize,
        names: Vec<Step>,
    ) -> Result<Place<'g>, AllocError> {
        let made_of = self.made_of(context, number);
        let owner = match made_of {
            Some(id) => self.owner(alloc, context, number, id)?,
            None => number,
        };
        let to_owner = steps_to(alloc, context.elements.as_slice(), owner)?;
        let is_same = same_kind(context, owner, number);
        Ok(Place {
            steps: behind(alloc, to_owner.as_slice(), names, is_same)?,
            owner: to_owner,
            number: owner,
            made_of,
        })
    }

    // The step to an option of the call.
    fn asked_step(&self, alloc: Global, name: &str, sent: &[Step]) -> Result<Step, AllocError> {
        match general_key(self.table, self.general, name) {
            Some((key, _)) => Step::named(alloc, key),
            None => Step::named(alloc, last_name(sent)),
        }
    }

    // The steps to an option under the key that the caller gave it, and whether they begin at the call.
    fn to_option(
        &self,
        alloc: Global,
        name: &str,
        place: Place<'g>,
    ) -> Result<(Vec<Step>, bool), AllocError> {
        let Place {
            steps,
            mut owner,
            number: _,
            made_of: _,
        } = place;
        let carried = match value_at(self.graph, owner.as_slice()) {
            Some(element) => carried_key(self.table, element, name),
            None => None,
        };
        if let Some(carried) = carried {
            owner.push(Step::named(alloc, carried.holder)?)?;
            owner.push(Step::named(alloc, carried.key)?)?;
            return Ok((owner, false));
        }
        let key = self.asked_step(alloc, name, steps.as_slice())?;
        let mut asked = Vec::new(alloc);
        asked.push(Step::named(alloc, "layoutOptions")?)?;
        asked.push(key)?;
        Ok((asked, true))
    }

    fn to_end(
        &self,
        alloc: Global,
        found: &Value,
        place: Place<'g>,
    ) -> Result<Vec<Step>, AllocError> {
        let Place {
            steps,
            mut owner,
            number: _,
            made_of: _,
        } = place;
        let end = match value_at(self.graph, owner.as_slice()) {
            Some(edge) => step_to_end(edge, found),
            None => None,
        };
        let Some((name, at)) = end else {
            return Ok(steps);
        };
        owner.push(Step::named(alloc, name)?)?;
        owner.push(Step::At(at))?;
        Ok(owner)
    }

    // An edge that is sent in pieces is looked at once.
    fn is_drawn_across(&mut self, alloc: Global, place: &Place<'g>) -> Result<bool, AllocError> {
        if let Some(known) = self.across.get(&place.number) {
            return Ok(*known);
        }
        let edge = value_at(self.graph, place.owner.as_slice());
        let is_drawn = match (edge, self.levels.as_ref()) {
            (Some(edge), Some(levels)) => levels.is_drawn_across(alloc, edge)?,
            _ => false,
        };
        self.across.insert(place.number, is_drawn)?;
        Ok(is_drawn)
    }

    // What a rule finds, as it is told of the graph; nothing where the graph has no such fault.
    pub(crate) fn turned(
        &mut self,
        alloc: Global,
        context: &Context<'g>,
        find: Find<'g>,
    ) -> Result<Option<Turned<'g>>, AllocError> {
        let id = own_id(context, &find)?;
        let Find {
            rule,
            element,
            names,
            case,
        } = find;
        let place = match element {
            Some(number) => self.place(alloc, context, number, names)?,
            None => nowhere(alloc, names),
        };
        let id = told_id(place.made_of, id)?;
        let edge = match element {
            Some(number) => value_of(context, number),
            None => None,
        };
        let Some(case) = case_of_call(case, edge) else {
            return Ok(None);
        };
        if matches!(case, Case::Cross(..) | Case::Whole(_))
            && self.is_drawn_across(alloc, &place)?
        {
            return Ok(None);
        }
        let (steps, is_of_call) = self.steps(alloc, case, place)?;
        Ok(Some(Turned {
            rule,
            case,
            steps,
            is_of_call,
            id,
        }))
    }

    fn steps(
        &self,
        alloc: Global,
        case: Case,
        place: Place<'g>,
    ) -> Result<(Vec<Step>, bool), AllocError> {
        match case {
            Case::Unknown(_, found) | Case::NoPort(_, found, _) => {
                let steps = self.to_end(alloc, found, place)?;
                Ok((steps, false))
            }
            Case::Asked(_, option) => self.to_option(alloc, option.name, place),
            Case::ManyToMany(_) => {
                let mut steps = place.into_steps();
                steps.pop();
                Ok((steps, false))
            }
            _ => Ok((place.into_steps(), false)),
        }
    }
}

fn value_of<'a>(context: &Context<'a>, number: usize) -> Option<&'a Value> {
    let element = context.element(number)?;
    Some(element.value)
}

// Several ends at one side alone are no fault of a call, and several at both are one.
fn case_of_call<'a>(case: Case<'a>, edge: Option<&Value>) -> Option<Case<'a>> {
    let Case::Ends(end, count) = case else {
        return Some(case);
    };
    if count_at(edge, End::Source) > 1 && count_at(edge, End::Target) > 1 {
        return match end {
            End::Source => Some(Case::ManyToMany(count)),
            End::Target => None,
        };
    }
    if count == 0 { Some(case) } else { None }
}
