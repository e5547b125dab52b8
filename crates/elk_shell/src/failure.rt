//! Why nothing is made of a graph.

use crate::faults::bare_fault;
use elk_json::DocFault;
use serde_json::Value;
use std::alloc::{AllocError, Global};

/// Why nothing is made of a graph.
#[derive(Drop)]
pub enum Failure {
    /// It is refused, for these faults.
    Refused(Vec<Value>),
    Memory,
}

impl From<AllocError> for Failure {
    ghost use Rattle.std.specs.Prelude.{◌≡◌};
    ghost use Rattle.elk_shell.specs.declared.failure.Failure.TheVariants.{Memory};

    ghost from_gives = { λ _ e. e ≡ Memory };

    fn from(_refused: AllocError) -> Failure {
        Failure::Memory
    }
}

/// Why the engine gives no answer, by the rule and the place that it tells.
pub(crate) fn failure_of(alloc: Global, fault: DocFault) -> Failure {
    match fault {
        DocFault::Memory => Failure::Memory,
        DocFault::Refused(refusal) => match bare_fault(alloc, &refusal) {
            Ok(fault) => refused(alloc, fault),
            Err(_) => Failure::Memory,
        },
    }
}

/// The failure of one fault.
pub(crate) fn refused(alloc: Global, fault: Value) -> Failure {
    match vec![in alloc; fault] {
        Ok(faults) => Failure::Refused(faults),
        Err(_) => Failure::Memory,
    }
}
