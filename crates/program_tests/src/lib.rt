//! Tests of the program that its runs can't show: sources and sinks that fail or give pieces, lines, a partner that waits, and the
//! calls by which documents are read, laid out, judged and written. Whole runs without faults stand in `tests/runs/`. The tests stand
//! above the crates that they call, so that none of those is proved again with its tests.
#![tactic(auto)]

#[cfg(test)]
mod documents;
#[cfg(test)]
mod lines;
#[cfg(test)]
mod partner;
#[cfg(test)]
mod runs;
#[cfg(test)]
mod streams;
