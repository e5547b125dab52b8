//! All that can be said of a text before it is laid out, as lines for people.

use crate::findings::Finding;
use crate::located::{findings_in_dot, findings_in_json};
use crate::notes::{OUT_OF_MEMORY, READ_FAULT, WRITE_FAULT, noted};
use crate::settings::Settings;
use elk_outer::{ReadFault, Sink, Source, read_whole, write_whole};
use json_places::Spot;
use std::alloc::{AllocError, Global};

const LIMIT: u64 = 1 << 24;

// What is said of a text.
#[derive(Drop)]
struct Report {
    text: String,
    is_refused: bool,
}

impl Report {
    // A sentence with its place, and the line with a mark below it.
    fn tell_at(&mut self, alloc: Global, spot: &Spot, sentence: &str) -> Result<(), AllocError> {
        let (line, column, source) = (spot.line, spot.column, spot.source.as_str());
        let told = format!(in alloc; "{line}:{column}: {sentence}\n    {source}\n    ")?;
        self.text.push_str(told.as_str())?;
        for _ in 0..spot.mark {
            self.text.push(' ')?;
        }
        self.text.push_str("^\n")
    }

    fn tell(&mut self, alloc: Global, finding: &Finding) -> Result<(), AllocError> {
        let kind = if finding.is_fault { "" } else { "warning: " };
        let words = finding.sentence.as_str();
        let sentence = format!(in alloc; "{kind}{words}")?;
        match &finding.spot {
            Some(spot) => self.tell_at(alloc, spot, sentence.as_str())?,
            None => {
                self.text.push_str(sentence.as_str())?;
                self.text.push('\n')?;
            }
        }
        self.is_refused = self.is_refused || finding.is_fault;
        Ok(())
    }
}

fn report_of(alloc: Global, bytes: &[u8], settings: &Settings) -> Result<Report, AllocError> {
    let findings = if settings.is_dot {
        findings_in_dot(alloc, bytes, settings)?
    } else {
        findings_in_json(alloc, bytes, settings)?
    };
    let mut report = Report {
        text: String::new(alloc),
        is_refused: false,
    };
    for finding in findings.iter() {
        report.tell(alloc, finding)?;
    }
    Ok(report)
}

fn written<K: Sink, N: Sink>(report: &Report, out: &mut K, notes: &mut N) -> u8 {
    match write_whole(out, report.text.as_str().as_bytes()) {
        Ok(()) if report.is_refused => 2,
        Ok(()) => 0,
        Err(_) => noted(notes, WRITE_FAULT, 4),
    }
}

/// Reads a graph and writes what can be said of it. Answers the status: 2 where it is refused.
pub fn lint_input<S: Source, K: Sink, N: Sink>(
    alloc: Global,
    settings: &Settings,
    source: &mut S,
    out: &mut K,
    notes: &mut N,
) -> u8 {
    match read_whole(alloc, source, LIMIT) {
        Ok(bytes) => match report_of(alloc, &bytes, settings) {
            Ok(report) => written(&report, out, notes),
            Err(_) => noted(notes, OUT_OF_MEMORY, 6),
        },
        Err(ReadFault::TooLong) => noted(notes, TOO_LONG, 2),
        Err(ReadFault::Fault) => noted(notes, READ_FAULT, 3),
        Err(ReadFault::Memory) => noted(notes, OUT_OF_MEMORY, 6),
    }
}

const TOO_LONG: &[u8] = b"elk-draw: the document is longer than 2^24 bytes (rule 0, TooLong)\n";
