//! The reply to a request.
ghost use Rattle.std.specs.Prelude.{IfOk};
ghost use Rattle.elk_write.specs.Text.{IsOneLine};

use crate::failure::Failure;
use crate::faults::length_fault;
use crate::line::in_one_line;
use crate::members::{Members, fault_members, judged, made, misfit};
use crate::requests::{Misfit, settings_of, wanted_by};
use crate::subject::subject_of;
use elk_json::{DocFault, parse};
use graph_layout::with_plain_request;
use serde_json::Value;
use std::alloc::{AllocError, Global};

// The value of a member of a request.
fn taken(request: Value, name: &str) -> Option<Value> {
    match request {
        Value::Object(mut members) => members.remove(name),
        _ => None,
    }
}

// The reply to the value of a line.
fn done_for(alloc: Global, request: Value) -> Result<Members, Failure> {
    let wanted = match wanted_by(&request) {
        Ok(wanted) => wanted,
        Err(it) => return Err(misfit(alloc, it)?),
    };
    let subject = match subject_of(&request, wanted) {
        Ok(subject) => subject,
        Err(it) => return Err(misfit(alloc, it)?),
    };
    let settings = settings_of(alloc, &request, wanted)?;
    let given = taken(request, subject.name());
    if wanted.lint {
        judged(alloc, subject, given, &settings, wanted)
    } else {
        made(alloc, subject, given, &settings, wanted)
    }
}

fn done(alloc: Global, line: &[u8]) -> Result<Members, Failure> {
    match parse(alloc, line) {
        Ok(request) => {
            let request = with_plain_request(alloc, request)?;
            done_for(alloc, request)
        }
        Err(DocFault::Refused(_)) => Err(misfit(alloc, Misfit::NotJson)?),
        Err(DocFault::Memory) => Err(Failure::Memory),
    }
}

fn reply_to(alloc: Global, line: &[u8]) -> Result<Value, AllocError> {
    match done(alloc, line) {
        Ok(reply) => Ok(Value::Object(reply)),
        Err(Failure::Refused(faults)) => Ok(Value::Object(fault_members(alloc, faults)?)),
        Err(Failure::Memory) => Err(AllocError),
    }
}

/// The reply to a line: what its request wants, or what is wrong.
///
/// Proved:
/// - A reply to a request is one line. (`in_one_line`)
pub fn reply_line(alloc: Global, line: &[u8]) -> Result<Vec<u8>, AllocError>
    ensures { IfOk result (λ reply. IsOneLine reply.items) }
{
    let reply = reply_to(alloc, line)?;
    let text = reply.to_vec(alloc)?;
    in_one_line(alloc, text.as_slice())
}

/// The reply to a line that is longer than it may be.
pub(crate) fn long_reply(alloc: Global) -> Result<Vec<u8>, AllocError>
    ensures { IfOk result (λ reply. IsOneLine reply.items) }
{
    let fault = length_fault(alloc, "the line", "2^24")?;
    let reply = Value::Object(fault_members(alloc, vec![in alloc; fault]?)?);
    let text = reply.to_vec(alloc)?;
    in_one_line(alloc, text.as_slice())
}
