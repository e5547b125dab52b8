//! All that can be said of a graph before it is laid out: its faults, and what has no effect in it.

use crate::dot::{number, put_place};
use crate::faults::known_faults;
use crate::settings::Settings;
use graph_faults::{Fault, fault_value};
use graph_warnings::{Warning, warning_value, warnings_of};
use json_places::{Spot, Step, copied};
use serde_json::{Value, put};
use std::alloc::{AllocError, Global};

/// A fault or a warning.
#[derive(Drop)]
pub(crate) struct Finding {
    pub(crate) is_fault: bool,
    /// What is said in a line of its own, behind the place.
    pub(crate) sentence: String,
    /// Where it stands in the text, if it stands in one.
    pub(crate) spot: Option<Spot>,
    /// The steps to it in the graph.
    pub(crate) steps: Vec<Step>,
    // The fault or the warning as replies have it.
    value: Value,
}

impl Finding {
    pub(crate) fn of_fault(alloc: Global, fault: &Fault) -> Result<Finding, AllocError> {
        Ok(Finding {
            is_fault: true,
            sentence: fault.message.clone()?,
            spot: None,
            steps: copied(alloc, fault.steps.as_slice())?,
            value: fault_value(alloc, fault)?,
        })
    }

    pub(crate) fn of_warning(alloc: Global, warning: &Warning) -> Result<Finding, AllocError> {
        Ok(Finding {
            is_fault: false,
            sentence: warning.message.clone()?,
            spot: None,
            steps: copied(alloc, warning.steps.as_slice())?,
            value: warning_value(alloc, warning)?,
        })
    }

    /// What is said of a text that is no graph, or of one in DOT.
    pub(crate) fn of_text(
        alloc: Global,
        is_fault: bool,
        sentence: &str,
        spot: Option<Spot>,
        value: Value,
    ) -> Result<Finding, AllocError> {
        Ok(Finding {
            is_fault,
            sentence: String::from_str(alloc, sentence)?,
            spot,
            steps: Vec::new(alloc),
            value,
        })
    }

    // The finding as replies have it.
    fn into_value(self, alloc: Global) -> Result<Value, AllocError> {
        let Finding {
            is_fault,
            spot,
            mut value,
            ..
        } = self;
        if let Value::Object(members) = &mut value {
            let severity = if is_fault { "fault" } else { "warning" };
            let severity = Value::String(String::from_str(alloc, severity)?);
            put(members, alloc, "severity", severity)?;
            if let Some(spot) = spot {
                let Spot {
                    line,
                    column,
                    source,
                    mark,
                } = spot;
                put_place(members, alloc, (line, column))?;
                put(members, alloc, "source", Value::String(source))?;
                put(members, alloc, "mark", number(mark))?;
            }
        }
        Ok(value)
    }
}

/// Findings as replies have them.
pub(crate) fn told_findings(alloc: Global, findings: Vec<Finding>) -> Result<Value, AllocError> {
    let mut values = Vec::new(alloc);
    for finding in findings {
        values.push(finding.into_value(alloc)?)?;
    }
    Ok(Value::Array(values))
}

/// The faults of a graph.
pub(crate) fn faults_in(
    alloc: Global,
    graph: &Value,
    settings: &Settings,
) -> Result<Vec<Finding>, AllocError> {
    let mut findings = Vec::new(alloc);
    for fault in known_faults(alloc, graph, settings)?.iter() {
        findings.push(Finding::of_fault(alloc, fault)?)?;
    }
    Ok(findings)
}

/// What has no effect in a graph.
pub(crate) fn warnings_in(
    alloc: Global,
    graph: &Value,
    settings: &Settings,
) -> Result<Vec<Finding>, AllocError> {
    let mut findings = Vec::new(alloc);
    for warning in warnings_of(alloc, &settings.how.table, graph, &settings.general)?.iter() {
        findings.push(Finding::of_warning(alloc, warning)?)?;
    }
    Ok(findings)
}

/// Puts findings behind others.
pub(crate) fn append(findings: &mut Vec<Finding>, more: Vec<Finding>) -> Result<(), AllocError> {
    for finding in more {
        findings.push(finding)?;
    }
    Ok(())
}

/// What is said of a graph: first its faults.
pub(crate) fn findings_in_graph(
    alloc: Global,
    graph: &Value,
    settings: &Settings,
) -> Result<Vec<Finding>, AllocError> {
    let mut findings = faults_in(alloc, graph, settings)?;
    append(&mut findings, warnings_in(alloc, graph, settings)?)?;
    Ok(findings)
}
