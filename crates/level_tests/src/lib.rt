//! Tests of the drawing of one level, from its ends to its layout, and of how it is written into a document: small levels whose
//! numbers were worked out by hand. They stand above the crates that they call, so that none of those is proved again with its tests.
#![tactic(auto)]

#[cfg(test)]
mod boxes;
#[cfg(test)]
mod drawn;
#[cfg(test)]
mod ends;
#[cfg(test)]
mod fixtures;
#[cfg(test)]
mod gaps;
#[cfg(test)]
mod layouts;
#[cfg(test)]
mod parts;
#[cfg(test)]
mod roots;
#[cfg(test)]
mod rows;
#[cfg(test)]
mod traces;
#[cfg(test)]
mod writing;
