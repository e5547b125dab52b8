//! The rules on ids and on the ends of edges.

use crate::context::{Context, Reference};
use crate::finds::{Case, End, Find};
use crate::ids::{is_id, key_of};
use json_places::{Element, Kind, Step};
use serde_json::Value;
use std::alloc::{AllocError, Global};

fn named(alloc: Global, name: &str) -> Result<Vec<Step>, AllocError> {
    let mut names = Vec::new(alloc);
    names.push(Step::named(alloc, name)?)?;
    Ok(names)
}

// The first element with the id of an element.
fn first_of<'a>(context: &Context<'a>, element: &Element<'a>) -> Option<usize> {
    let key = key_of(element.value.get("id"))?;
    let elements = if element.kind == Kind::Edge {
        &context.edges
    } else {
        &context.ends
    };
    elements.get(&key).copied()
}

// Rule 7.
pub(crate) fn double_ids<'a>(
    alloc: Global,
    context: &Context<'a>,
    finds: &mut Vec<Find<'a>>,
) -> Result<(), AllocError> {
    for (number, element) in context.elements.iter().enumerate() {
        let id = element.value.get("id");
        if let (Some(id), Some(other)) = (id, first_of(context, element)) {
            if other != number {
                finds.push(Find {
                    rule: 7,
                    element: Some(number),
                    names: named(alloc, "id")?,
                    case: Case::Double(id, other),
                })?;
            }
        }
    }
    Ok(())
}

fn case_of<'a>(reference: &Reference<'a>) -> Case<'a> {
    match reference.node {
        Some(node) => Case::NoPort(reference.end, reference.found, node),
        None => Case::Unknown(reference.end, reference.found),
    }
}

// Rule 8.
pub(crate) fn unknown_ends<'a>(
    alloc: Global,
    context: &Context<'a>,
    finds: &mut Vec<Find<'a>>,
) -> Result<(), AllocError> {
    for join in context.joins.iter() {
        for reference in join.ends.iter() {
            if reference.element.is_none() && is_id(reference.found) {
                let mut names = named(alloc, reference.member)?;
                if let Some(at) = reference.at {
                    names.push(Step::At(at))?;
                }
                finds.push(Find {
                    rule: 8,
                    element: Some(join.edge),
                    names,
                    case: case_of(reference),
                })?;
            }
        }
    }
    Ok(())
}

fn count_at(edge: &Value, end: End) -> usize {
    match edge.get(end.list()) {
        Some(Value::Array(ids)) => ids.len(),
        _ => 1,
    }
}

// Rule 9.
pub(crate) fn hyperedges<'a>(
    alloc: Global,
    context: &Context<'a>,
    finds: &mut Vec<Find<'a>>,
) -> Result<(), AllocError> {
    for join in context.joins.iter() {
        let Some(edge) = context.element(join.edge) else {
            continue;
        };
        for end in [End::Source, End::Target] {
            let count = count_at(edge.value, end);
            if join.is_extended && count != 1 {
                finds.push(Find {
                    rule: 9,
                    element: Some(join.edge),
                    names: named(alloc, end.list())?,
                    case: Case::Ends(end, count),
                })?;
            }
        }
    }
    Ok(())
}

// What is wrong with an edge between two nodes.
fn crossing<'a>(context: &Context<'a>, source: usize, target: usize) -> Option<Case<'a>> {
    let (one, other) = (context.holder_of(source), context.holder_of(target));
    if one.is_none() {
        Some(Case::Whole(End::Source))
    } else if other.is_none() {
        Some(Case::Whole(End::Target))
    } else if one != other {
        Some(Case::Cross(source, target))
    } else {
        None
    }
}

// Rule 10.
pub(crate) fn cross_levels<'a>(
    alloc: Global,
    context: &Context<'a>,
    finds: &mut Vec<Find<'a>>,
) -> Result<(), AllocError> {
    for join in context.joins.iter() {
        let case = match context.nodes_of(join) {
            Some((source, target)) => crossing(context, source, target),
            None => None,
        };
        if let Some(case) = case {
            finds.push(Find {
                rule: 10,
                element: Some(join.edge),
                names: Vec::new(alloc),
                case,
            })?;
        }
    }
    Ok(())
}
