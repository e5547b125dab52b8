//! What is found, in sentences.

use crate::fault::Fault;
use crate::near::Near;
use crate::origin::owner_in;
use crate::rules::{rule_name, rule_words};
use crate::texts::{count_value, grouped, id_text, number_text, number_value, sentence};
use graph_rules::{Case, Context, Outline, Plenty, Side};
use json_places::{Kind, Step, path_text, steps_to, told_path, value_text};
use option_names::{Description, near_value};
use serde_json::Value;
use std::alloc::{AllocError, Global};
use std::collections::BTreeMap;

// What a rule found, told of the graph.
#[derive(Drop)]
pub(crate) struct Turned<'a> {
    pub(crate) rule: u32,
    pub(crate) case: Case<'a>,
    pub(crate) steps: Vec<Step>,
    // Whether the steps begin at the call.
    pub(crate) is_of_call: bool,
    pub(crate) id: Option<Value>,
}

// What is known of a place.
#[derive(Drop)]
struct Told {
    detail: String,
    found: Option<Value>,
    allowed: Option<String>,
    near: Option<Value>,
}

impl Told {
    fn plain(detail: String) -> Told {
        Told {
            detail,
            found: None,
            allowed: None,
            near: None,
        }
    }

    fn with(detail: String, found: &Value) -> Result<Told, AllocError> {
        let mut told = Told::plain(detail);
        told.found = Some(found.clone()?);
        Ok(told)
    }

    fn allowing(mut self, alloc: Global, allowed: &str) -> Result<Told, AllocError> {
        self.allowed = Some(String::from_str(alloc, allowed)?);
        Ok(self)
    }
}

// What is wrong at the element `it`.
fn words_of(alloc: Global, rule: u32, case: Case, it: &str) -> Result<String, AllocError> {
    match case {
        Case::Form(..) | Case::Unmeasured(_) => {
            String::from_str(alloc, "a member has the wrong kind of value")
        }
        Case::Missing(_) => String::from_str(alloc, "a member is missing"),
        Case::NoId => String::from_str(alloc, "an id is missing"),
        Case::NoEnds => String::from_str(alloc, "an edge has no ends"),
        Case::Size(_) => format!(in alloc; "a size of {it} is not from 0 to 2^20"),
        Case::Place(..) => format!(in alloc; "the place of {it} is out of range"),
        Case::Asked(..) => format!(in alloc; "an option of {it} has an invalid value"),
        Case::Boxes(_) => format!(in alloc; "{it} is a level of boxes with an edge"),
        Case::Facing(..) => format!(in alloc; "the port {it} lies inside its node"),
        Case::Inside(..) => format!(in alloc; "the port {it} touches no side of its node"),
        _ => words_by(alloc, rule, it),
    }
}

fn words_by(alloc: Global, rule: u32, it: &str) -> Result<String, AllocError> {
    match rule {
        7 => format!(in alloc; "the id {it} is used twice"),
        8 => {
            format!(in alloc; "the edge {it} has an end that is not a node or port of the document")
        }
        9 => format!(in alloc; "the edge {it} does not have exactly one source and one target"),
        10 => format!(in alloc; "the edge {it} joins nodes of two levels"),
        _ => String::from_str(alloc, rule_words(rule)),
    }
}

fn near_text(alloc: Global, near: Option<&Value>) -> Result<String, AllocError> {
    match near {
        Some(near) => {
            let near = value_text(alloc, near)?;
            format!(in alloc; "; did you mean {near}?")
        }
        None => Ok(String::new(alloc)),
    }
}

// A member of the wrong kind or size, or one that isn't there.
fn tell_member(alloc: Global, case: Case, at: &str) -> Result<Told, AllocError> {
    match case {
        Case::Fraction(found) => {
            let text = value_text(alloc, found)?;
            let detail = format!(in alloc; "{at} is {text}")?;
            Told::with(detail, found)?.allowing(alloc, "a whole number")
        }
        Case::Size(found) => {
            let text = value_text(alloc, found)?;
            let detail = format!(in alloc; "{at} is {text}")?;
            Told::with(detail, found)?.allowing(alloc, "whole, 0 to 1,048,576")
        }
        Case::Form(found, allowed) | Case::Place(found, allowed) => {
            let text = value_text(alloc, found)?;
            let detail = format!(in alloc; "{at} is {text}, and may be {allowed}")?;
            Told::with(detail, found)?.allowing(alloc, allowed)
        }
        Case::Unmeasured(found) => {
            let detail = format!(in alloc;
                "{at} is null, and may be a number; leave out a size that is not measured yet"
            )?;
            Told::with(detail, found)?.allowing(alloc, "a number")
        }
        Case::Missing(allowed) => {
            let detail = format!(in alloc; "{at} may be {allowed}")?;
            Told::plain(detail).allowing(alloc, allowed)
        }
        Case::NoId => {
            let detail = format!(in alloc;
                "{at} may be a text or a whole number, and every node, port and edge has one"
            )?;
            Told::plain(detail).allowing(alloc, "a text or a whole number")
        }
        _ => {
            let detail = format!(in alloc;
                "{at} has neither sources and targets nor source and target"
            )?;
            Ok(Told::plain(detail))
        }
    }
}

fn tell_many(
    alloc: Global,
    count: usize,
    what: Plenty,
    has_made: bool,
) -> Result<Told, AllocError> {
    let found = grouped(alloc, count)?;
    let (what, most) = match what {
        Plenty::Nodes => ("nodes", "2,048"),
        Plenty::Ports => ("ports", "4,096"),
        Plenty::Edges => ("edges", "2,048"),
    };
    let detail = if has_made {
        format!(in alloc;
            "{found} {what} are sent, including those for labels and for further ends of edges"
        )?
    } else {
        format!(in alloc; "there are {found} {what}")?
    };
    Told::with(detail, &count_value(count))?.allowing(alloc, most)
}

fn tell_ends(alloc: Global, count: usize, at: &str) -> Result<Told, AllocError> {
    let detail = format!(in alloc; "{at} has {count} ids, and may have one")?;
    Told::with(detail, &count_value(count))?.allowing(alloc, "1")
}

fn tell_deep(alloc: Global, depth: usize, at: &str) -> Result<Told, AllocError> {
    let detail = format!(in alloc; "{at} is inside {depth} nodes")?;
    Told::with(detail, &count_value(depth))?.allowing(alloc, "50")
}

fn tell_many_to_many(alloc: Global, count: usize) -> Result<Told, AllocError> {
    let detail = String::from_str(
        alloc,
        "several sources and several targets cannot share one tree of lines; make an edge for each source, with all its targets",
    )?;
    Told::with(detail, &count_value(count))
}

// Whether a value is one that ELK takes and this engine doesn't.
fn is_elsewhere(option: &Description, found: &Value) -> bool {
    let text = found.as_str().unwrap_or("");
    let bare = match text.strip_prefix("org.eclipse.elk.") {
        Some(bare) => bare,
        None => text.strip_prefix("elk.").unwrap_or(text),
    };
    option.elsewhere.iter().any(|it| *it == bare)
}

fn tell_option(
    alloc: Global,
    found: &Value,
    option: &Description,
    at: &str,
) -> Result<Told, AllocError> {
    let (text, allowed) = (value_text(alloc, found)?, option.words);
    if is_elsewhere(option, found) {
        let detail = format!(in alloc;
            "{at} is {text}, which ELK has and this engine does not, and may be {allowed}"
        )?;
        return Told::with(detail, found)?.allowing(alloc, allowed);
    }
    let near = match near_value(alloc, option, found)? {
        Some(near) => Some(Value::String(near)),
        None => None,
    };
    let meant = near_text(alloc, near.as_ref())?;
    let detail = format!(in alloc; "{at} is {text}, and may be {allowed}{meant}")?;
    let mut told = Told::with(detail, found)?.allowing(alloc, allowed)?;
    told.near = near;
    Ok(told)
}

fn tell_facing(
    alloc: Global,
    found: f64,
    side: Side,
    bound: f64,
    at: &str,
) -> Result<Told, AllocError> {
    let text = number_text(alloc, found)?;
    let bound = number_text(alloc, bound)?;
    let allowed = match side {
        Side::West | Side::North => format!(in alloc; "{bound} or less")?,
        Side::East | Side::South => format!(in alloc; "{bound} or more")?,
    };
    let side = side.name();
    let detail = format!(in alloc;
        "{at} is {text}, and may be {allowed}, since the port faces {side}"
    )?;
    let mut told = Told::with(detail, &number_value(found))?;
    told.allowed = Some(allowed);
    Ok(told)
}

fn tell_inside(alloc: Global, port: Outline, node: Outline) -> Result<Told, AllocError> {
    let x = number_text(alloc, port.x)?;
    let y = number_text(alloc, port.y)?;
    let width = number_text(alloc, port.width)?;
    let height = number_text(alloc, port.height)?;
    let across = number_text(alloc, node.width)?;
    let down = number_text(alloc, node.height)?;
    Ok(Told::plain(format!(in alloc;
        "it is at {x}, {y} with the size {width} by {height}, and its node is {across} by {down}"
    )?))
}

// Tells what is found in a document.
#[derive(Drop)]
pub(crate) struct Teller<'a, 'b> {
    alloc: Global,
    context: &'b Context<'a>,
    owners: &'b BTreeMap<String, Value>,
    // Whether elements are sent that the graph doesn't have.
    has_made: bool,
    near: Near,
}

impl<'a, 'b> Teller<'a, 'b> {
    pub(crate) fn new(
        alloc: Global,
        context: &'b Context<'a>,
        owners: &'b BTreeMap<String, Value>,
        has_made: bool,
    ) -> Teller<'a, 'b> {
        Teller {
            alloc,
            context,
            owners,
            has_made,
            near: Near::new(),
        }
    }

    // The id of an element, as the graph has it.
    fn id_of(&self, number: usize) -> Option<&Value> {
        let id = match self.context.element(number) {
            Some(element) => element.value.get("id"),
            None => None,
        };
        owner_in(self.owners, id).or(id)
    }

    fn id_text(&self, number: Option<usize>) -> Result<String, AllocError> {
        let id = match number {
            Some(number) => self.id_of(number),
            None => None,
        };
        id_text(self.alloc, id)
    }

    fn double(
        &self,
        found: &Value,
        other: usize,
        at: &str,
        kind: Kind,
    ) -> Result<Told, AllocError> {
        let alloc = self.alloc;
        let mut steps = steps_to(alloc, self.context.elements.as_slice(), other)?;
        steps.push(Step::named(alloc, "id")?)?;
        let path = path_text(alloc, steps.as_slice())?;
        let text = value_text(alloc, found)?;
        let more = match self.context.element(other) {
            Some(other) if other.kind != kind => "; nodes and ports share one space of ids",
            _ => "",
        };
        Told::with(
            format!(in alloc; "{at} is {text}, as {path} is{more}")?,
            found,
        )
    }

    fn end(&mut self, found: &Value, node: Option<usize>, at: &str) -> Result<Told, AllocError> {
        let alloc = self.alloc;
        let near = self.near.id(alloc, self.context, found, node)?;
        let meant = near_text(alloc, near.as_ref())?;
        let text = value_text(alloc, found)?;
        let detail = if node.is_some() {
            let node = self.id_text(node)?;
            format!(in alloc; "{at} is {text}, which is not a port of {node}{meant}")?
        } else {
            format!(in alloc; "{at} is {text}{meant}")?
        };
        let mut told = Told::with(detail, found)?;
        told.near = near;
        Ok(told)
    }

    // A node and the nodes around it, from the inside out.
    fn chain(&self, node: usize) -> Result<Vec<usize>, AllocError> {
        let mut chain = Vec::new(self.alloc);
        let mut at = Some(node);
        for _ in 0..self.context.elements.len() {
            let Some(number) = at else {
                break;
            };
            chain.push(number)?;
            at = self.context.holder_of(number);
        }
        Ok(chain)
    }

    // Two siblings, each the end of an edge or a node around it, that the edge may join instead.
    fn lifted(&self, source: usize, target: usize) -> Result<Option<(usize, usize)>, AllocError> {
        let (ones, others) = (self.chain(source)?, self.chain(target)?);
        for one in ones.iter() {
            let holder = self.context.holder_of(*one);
            let found = others.iter().find(|other| holder.is_some()
                && self.context.holder_of(**other) == holder);
            if let Some(other) = found {
                return Ok(if other == one {
                    None
                } else {
                    Some((*one, *other))
                });
            }
        }
        Ok(None)
    }

    fn cross(&self, source: usize, target: usize) -> Result<Told, AllocError> {
        let alloc = self.alloc;
        let one = self.id_text(Some(source))?;
        let other = self.id_text(Some(target))?;
        let around = self.id_text(self.context.holder_of(source))?;
        let beyond = self.id_text(self.context.holder_of(target))?;
        let mut detail = format!(in alloc; "{one} is in {around}, and {other} in {beyond}")?;
        if let Some((one, other)) = self.lifted(source, target)? {
            let one = self.id_text(Some(one))?;
            let other = self.id_text(Some(other))?;
            let more = format!(in alloc; "; it may join {one} and {other}")?;
            detail.push_str(more.as_str())?;
        }
        Ok(Told::plain(detail))
    }

    fn told(&mut self, case: Case, at: &str, kind: Kind) -> Result<Told, AllocError> {
        let alloc = self.alloc;
        match case {
            Case::Many(count, what) => tell_many(alloc, count, what, self.has_made),
            Case::Deep(depth) => tell_deep(alloc, depth, at),
            Case::Double(found, other) => self.double(found, other, at, kind),
            Case::Unknown(_, found) => self.end(found, None, at),
            Case::NoPort(_, found, node) => self.end(found, Some(node), at),
            Case::Ends(_, count) => tell_ends(alloc, count, at),
            Case::ManyToMany(count) => tell_many_to_many(alloc, count),
            Case::Cross(source, target) => self.cross(source, target),
            Case::Whole(end) => {
                let end = end.name();
                Ok(Told::plain(format!(in alloc;
                    "its {end} is the whole document, and an edge joins nodes inside it"
                )?))
            }
            Case::Asked(found, option) => tell_option(alloc, found, option, at),
            Case::Boxes(edge) => {
                let edge = self.id_text(Some(edge))?;
                Ok(Told::plain(format!(in alloc;
                    "{at} asks for boxes, and the edge {edge} joins two of them"
                )?))
            }
            Case::Facing(found, side, bound) => tell_facing(alloc, found, side, bound, at),
            Case::Inside(port, node) => tell_inside(alloc, port, node),
            _ => tell_member(alloc, case, at),
        }
    }

    // The fault of what is found at an element of a kind.
    pub(crate) fn fault(&mut self, turned: Turned<'a>, kind: Kind) -> Result<Fault, AllocError> {
        let alloc = self.alloc;
        let Turned {
            rule,
            case,
            steps,
            is_of_call,
            id,
        } = turned;
        let mut path = path_text(alloc, steps.as_slice())?;
        if is_of_call {
            path.push_str(" of the call")?;
        }
        let at = told_path(alloc, path.as_str())?;
        let Told {
            detail,
            found,
            allowed,
            near,
        } = self.told(case, at.as_str(), kind)?;
        let it = id_text(alloc, id.as_ref())?;
        let words = words_of(alloc, rule, case, it.as_str())?;
        let message = sentence(alloc, rule, words.as_str(), detail.as_str())?;
        let (option, values) = option_in(case);
        Ok(Fault {
            rule,
            name: rule_name(rule),
            id,
            steps,
            path,
            found,
            allowed,
            near,
            end: end_in(case),
            option,
            values,
            detail,
            message,
        })
    }
}

fn end_in(case: Case) -> Option<&'static str> {
    match case {
        Case::Unknown(end, _) | Case::NoPort(end, _, _) => Some(end.name()),
        _ => None,
    }
}

fn option_in(case: Case) -> (Option<&'static str>, &'static [&'static str]) {
    match case {
        Case::Asked(_, option) => (Some(option.name), option.values),
        _ => (None, &[]),
    }
}
