//! All that has no effect in a graph.

use crate::labels::{excess, inner_labels};
use crate::members::meant_by;
use crate::options::{Place, option_said};
use crate::warning::{Said, Spot, Warning, warning_at};
use json_places::{Element, Kind, Step, copied, elements_of, steps_to, value_text};
use option_names::{OptionTable, plain_number};
use serde_json::Value;
use serde_json::value::Map;
use std::alloc::{AllocError, Global};

// No more warnings are told. Nobody reads so many.
const MOST_WARNINGS: usize = 10000;

fn place_of(kind: Kind) -> Place {
    match kind {
        Kind::Node => Place::Node,
        Kind::Port => Place::Port,
        Kind::Edge => Place::Edge,
    }
}

// One walk over a graph.
#[derive(Drop)]
struct Scan<'a> {
    alloc: Global,
    table: &'a OptionTable,
    general: &'a Value,
    warnings: Vec<Warning>,
}

// An element or a label with the steps to it.
#[derive(Drop)]
struct Holding<'a> {
    value: &'a Value,
    steps: Vec<Step>,
    place: Place,
}

impl Holding<'_> {
    fn spot(&self, alloc: Global, names: &[Step]) -> Result<Spot, AllocError> {
        let mut steps = copied(alloc, self.steps.as_slice())?;
        for name in names {
            steps.push(name.copy(alloc)?)?;
        }
        let id = match self.value.get("id") {
            Some(id) => Some(id.clone()?),
            None => None,
        };
        Ok(Spot {
            id,
            steps,
            is_of_call: self.place == Place::Call,
        })
    }
}

impl<'a> Scan<'a> {
    fn add(&mut self, spot: Spot, said: Said) -> Result<(), AllocError> {
        if self.warnings.len() < MOST_WARNINGS {
            let warning = warning_at(self.alloc, spot, said)?;
            self.warnings.push(warning)?;
        }
        Ok(())
    }

    fn option(
        &mut self,
        holding: &Holding,
        holder: &str,
        key: &str,
        value: &Value,
    ) -> Result<(), AllocError> {
        let alloc = self.alloc;
        let Some(said) = option_said(alloc, self.table, key, value, holding.place)? else {
            return Ok(());
        };
        // Properties may well be an editor's own, where they look like no option.
        if said.kind == "unknownOption" && holder == "properties" && said.near.is_none() {
            return Ok(());
        }
        let names = [Step::named(alloc, holder)?, Step::named(alloc, key)?];
        let spot = holding.spot(alloc, &names)?;
        self.add(spot, said)
    }

    fn options(
        &mut self,
        holding: &Holding,
        holder: &str,
        members: &Map<String, Value>,
    ) -> Result<(), AllocError> {
        for (key, value) in members.iter() {
            self.option(holding, holder, key.as_str(), value)?;
        }
        Ok(())
    }

    fn holders(&mut self, holding: &Holding) -> Result<(), AllocError> {
        for holder in ["layoutOptions", "properties"] {
            if let Some(Value::Object(members)) = holding.value.get(holder) {
                self.options(holding, holder, members)?;
            }
        }
        Ok(())
    }

    fn labels(&mut self, element: &Holding<'a>) -> Result<(), AllocError> {
        let alloc = self.alloc;
        if let Some(Value::Array(labels)) = element.value.get("labels") {
            for (at, label) in labels.iter().enumerate() {
                if label.is_object() {
                    let mut steps = copied(alloc, element.steps.as_slice())?;
                    steps.push(Step::named(alloc, "labels")?)?;
                    steps.push(Step::At(at))?;
                    self.holders(&Holding {
                        value: label,
                        steps,
                        place: Place::Label,
                    })?;
                }
            }
        }
        Ok(())
    }

    fn members(
        &mut self,
        element: &Holding,
        kind: Kind,
        members: &Map<String, Value>,
    ) -> Result<(), AllocError> {
        let alloc = self.alloc;
        for (name, value) in members.iter() {
            let name = name.as_str();
            let near = if value.is_null() {
                None
            } else {
                meant_by(alloc, element.value, kind, name)?
            };
            if let Some(near) = near {
                let spot = element.spot(alloc, &[Step::named(alloc, name)?])?;
                let said = Said {
                    kind: "unknownMember",
                    words: String::from_str(alloc, "is not read")?,
                    near: Some(String::from_str(alloc, near)?),
                    option: None,
                };
                self.add(spot, said)?;
            }
        }
        Ok(())
    }

    fn wide_labels(
        &mut self,
        holding: &Holding<'a>,
        element: &Element<'a>,
    ) -> Result<(), AllocError> {
        let alloc = self.alloc;
        for (at, label) in inner_labels(alloc, element)?.iter().enumerate() {
            let Some(width) = excess(self.table, *label, element.value, self.general) else {
                continue;
            };
            let found = plain_number(alloc, &width)?;
            let room = match element.value.get("width") {
                Some(room) => value_text(alloc, room)?,
                None => String::new(alloc),
            };
            let names = [Step::named(alloc, "labels")?, Step::At(at)];
            let spot = holding.spot(alloc, &names)?;
            let said = Said {
                kind: "wideLabel",
                words: format!(in alloc;
                    "is {found} wide, and its node only {room}; add NODE_LABELS to nodeSize.constraints of the node"
                )?,
                near: None,
                option: None,
            };
            self.add(spot, said)?;
        }
        Ok(())
    }

    fn element(&mut self, element: &Element<'a>, steps: Vec<Step>) -> Result<(), AllocError> {
        let Value::Object(members) = element.value else {
            return Ok(());
        };
        let holding = Holding {
            value: element.value,
            steps,
            place: place_of(element.kind),
        };
        self.holders(&holding)?;
        self.labels(&holding)?;
        self.members(&holding, element.kind, members)?;
        self.wide_labels(&holding, element)
    }

    fn call(&mut self) -> Result<(), AllocError> {
        let general = self.general;
        if let Value::Object(members) = general {
            let holding = Holding {
                value: &Value::Null,
                steps: Vec::new(self.alloc),
                place: Place::Call,
            };
            self.options(&holding, "layoutOptions", members)?;
        }
        Ok(())
    }
}

/// What a graph has without effect, in document order: of each element its options, those of its labels, its members and its labels.
/// What stands in one object comes in the order of names. `general` are the options of the call, which come first. Of very many
/// warnings it gives the first 10,000.
pub fn warnings_of(
    alloc: Global,
    table: &OptionTable,
    graph: &Value,
    general: &Value,
) -> Result<Vec<Warning>, AllocError> {
    let elements = elements_of(alloc, graph)?;
    let mut scan = Scan {
        alloc,
        table,
        general,
        warnings: Vec::new(alloc),
    };
    scan.call()?;
    for (number, element) in elements.iter().enumerate() {
        let steps = steps_to(alloc, elements.as_slice(), number)?;
        scan.element(element, steps)?;
    }
    Ok(scan.warnings)
}

/// The warning of a member that stands twice in a text.
pub fn double_member(alloc: Global, steps: &[Step]) -> Result<Warning, AllocError> {
    let spot = Spot {
        id: None,
        steps: copied(alloc, steps)?,
        is_of_call: false,
    };
    let said = Said {
        kind: "doubleMember",
        words: String::from_str(alloc, "is there twice, and the last one counts")?,
        near: None,
        option: None,
    };
    warning_at(alloc, spot, said)
}
