//! The ranks of the children of a level, by which they stand from layer to layer.

use graph_draft::{Draft, Element, number_said, says};
use serde_json::Value;
use std::alloc::{AllocError, Global};
use std::cmp::OrderedFloat;
use std::collections::BTreeMap;

// The ranks before those of partitions: of a border, of separate first nodes, and of first nodes.
const BORDER: usize = 0;

const FIRST_SEPARATE: usize = 1;

pub(crate) const FIRST: usize = 2;

pub(crate) const FIRST_PARTITION: usize = 3;

/// At which end of a level a leaf stands that stands for its border.
#[derive(Clone, Copy, Debug, Drop, PartialEq, Eq)]
pub enum Border {
    First,
    Last,
}

/// The ranks of the children of a level.
#[derive(Drop)]
pub struct Ranks {
    // The rank of each child, none for one without a partition where there are some.
    pub(crate) of: Vec<Option<usize>>,
    // The rank of the constraint LAST. Separate last nodes and a border follow.
    pub(crate) last: usize,
}

/// The ranks of the levels that ask for layers, by the levels' numbers.
pub type AskedRanks = BTreeMap<usize, Ranks>;

impl Ranks {
    // The rank of a child, by its place among the children.
    pub(crate) fn at(&self, place: usize) -> Option<usize> {
        self.of.get(place).copied().flatten()
    }
}

#[derive(Clone, Copy, Debug, Drop, PartialEq, Eq)]
enum Constraint {
    FirstSeparate,
    First,
    Last,
    LastSeparate,
}

const CONSTRAINTS: &[(&str, Constraint)] = &[
    ("FIRST_SEPARATE", Constraint::FirstSeparate),
    ("FIRST", Constraint::First),
    ("LAST", Constraint::Last),
    ("LAST_SEPARATE", Constraint::LastSeparate),
];

fn constraint_of(draft: &Draft, child: usize) -> Option<Constraint> {
    let asked = draft.option(Element::Node(child), "layered.layering.layerConstraint");
    for (name, constraint) in CONSTRAINTS {
        if says(asked, *name) {
            return Some(*constraint);
        }
    }
    None
}

// Whether a level is one of boxes, which has no layers.
fn is_of_boxes(draft: &Draft, level: usize) -> bool {
    match draft.option(Element::Node(level), "algorithm") {
        Some(Value::String(name)) => name.as_str() == "box" || name.as_str().ends_with(".box"),
        _ => false,
    }
}

// Whether a level is laid out by partitions.
pub(crate) fn is_partitioned(draft: &Draft, level: usize) -> bool {
    draft.asks(Element::Node(level), "partitioning.activate", "TRUE")
}

// The partition of a child. Where there are none, all children are of one.
fn partition_of(draft: &Draft, child: usize, has_partitions: bool) -> Option<f64> {
    if has_partitions {
        number_said(draft.option(Element::Node(child), "partitioning.partition"))
    } else {
        Some(0.0)
    }
}

// The partitions of children without a constraint, in ascending order.
fn partitions_of(
    alloc: Global,
    draft: &Draft,
    children: &[usize],
    has_partitions: bool,
) -> Result<Vec<f64>, AllocError> {
    let mut numbers = Vec::new(alloc);
    for child in children {
        if constraint_of(draft, *child).is_none() {
            if let Some(number) = partition_of(draft, *child, has_partitions) {
                numbers.push(number)?;
            }
        }
    }
    numbers.sort_by_key(|number| OrderedFloat(*number))?;
    let mut partitions: Vec<f64> = Vec::new(alloc);
    for number in numbers {
        if partitions.last() != Some(&number) {
            partitions.push(number)?;
        }
    }
    Ok(partitions)
}

fn rank_of_constraint(constraint: Constraint, last: usize) -> usize {
    match constraint {
        Constraint::FirstSeparate => FIRST_SEPARATE,
        Constraint::First => FIRST,
        Constraint::Last => last,
        Constraint::LastSeparate => last.saturating_add(1),
    }
}

/// The ranks of the children of a level; nothing where it asks for none. `borders` tells which leaves stand for its border.
pub fn ranks_of(
    alloc: Global,
    draft: &Draft,
    level: usize,
    borders: &BTreeMap<usize, Border>,
) -> Result<Option<Ranks>, AllocError> {
    let children = draft.children_of(level);
    let has_partitions = is_partitioned(draft, level);
    let is_bound = children
        .iter()
        .any(|child| constraint_of(draft, *child).is_some());
    if is_of_boxes(draft, level) || !(has_partitions || is_bound) {
        return Ok(None);
    }
    let partitions = partitions_of(alloc, draft, children, has_partitions)?;
    let last = FIRST_PARTITION.saturating_add(partitions.len().max(1));
    let mut of = Vec::new(alloc);
    for child in children {
        let partition = partition_of(draft, *child, has_partitions);
        of.push(
            match (borders.get(child), constraint_of(draft, *child), partition) {
                (Some(Border::First), _, _) => Some(BORDER),
                (Some(Border::Last), _, _) => Some(last.saturating_add(2)),
                (None, Some(constraint), _) => Some(rank_of_constraint(constraint, last)),
                (None, None, Some(number)) => {
                    let before = partitions.partition_point(|other| *other < number);
                    Some(FIRST_PARTITION.saturating_add(before))
                }
                (None, None, None) => None,
            },
        )?;
    }
    Ok(Some(Ranks { of, last }))
}
