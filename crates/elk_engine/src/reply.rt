// What a command answers to its whole input.
ghost use Rattle.std.specs.Prelude.{◌≡◌, ◌≤◌, ℕ, List, IfOk, OnOk, IfErr};
ghost use Rattle.elk_engine.specs.Command.{Answers, IsWhole, Refuses};
ghost use Rattle.elk_engine.specs.Demo.{IsDemoLine};
ghost use Rattle.elk_engine.specs.Reply.{IsCause, IsStop};
ghost use Rattle.elk_engine.specs.Words.{IsBounded};

use crate::Command;
use crate::demonstration::demo_line;
use crate::notes::refusal_note;
use crate::verdict::verdict_on;
use elk_answer::answer;
use elk_json::DocFault;
use std::alloc::Global;

/// A status, 0 or 1, and a text for `out`.
#[derive(Drop)]
pub(crate) struct Reply {
    pub(crate) status: u8,
    pub(crate) text: Vec<u8>,
}

/// Why there is no reply.
#[derive(Drop)]
pub(crate) enum Stop {
    Refused(Vec<u8>),
    Memory,
}

/// The stop at a document that isn't read.
pub(crate) fn stopped(alloc: Global, fault: &DocFault) -> Stop
    ensures { IsStop result fault.now }
{
    match fault {
        DocFault::Refused(refusal) => match refusal_note(alloc, refusal) {
            Ok(note) => Stop::Refused(note),
            Err(_) => Stop::Memory,
        },
        DocFault::Memory => Stop::Memory,
    }
}

// The reply of `demo`.
fn demonstrate(alloc: Global, leaves: u32) -> Result<Reply, Stop>
    requires some { 1 ≤ leaves }
    requires few { leaves ≤ 1024 }
    ensures answered { IfOk result (λ reply. (reply.status ≡ 0) × IsDemoLine leaves reply.text.items) }
    ensures memory { IfErr result (λ stop. stop ≡ Stop.Memory) }
{
    match demo_line(alloc, leaves) {
        Ok(text) => Ok(Reply { status: 0, text }),
        Err(_) => Err(Stop::Memory),
    }
}

/// The reply of a command to its whole input.
pub(crate) fn reply_to(alloc: Global, command: Command, bytes: &[u8]) -> Result<Reply, Stop>
    requires bounded { IsBounded command }
    requires whole { IsWhole command }
    ensures answered { IfOk result (λ reply. Answers command bytes.now reply.status reply.text.items) }
    ensures accepted { OnOk result ((note : List ℕ) → Refuses command bytes.now note → ⊥) }
    ensures refused { IfErr result (IsCause command bytes.now) }
{
    match command {
        Command::Layout => match answer(alloc, bytes) {
            Ok(text) => Ok(Reply { status: 0, text }),
            Err(fault) => Err(stopped(alloc, &fault)),
        },
        Command::Check => verdict_on(alloc, bytes),
        Command::Batch => unreachable!(),
        Command::Demo(leaves) => demonstrate(alloc, leaves),
    }
}
