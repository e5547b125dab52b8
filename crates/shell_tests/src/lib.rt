//! Tests of the shell's crates: members of pictures, graphs with edges across borders, and the rings of their levels. They stand above
//! the crates that they call, so that none of those is proved again with its tests.
#![tactic(auto)]

#[cfg(test)]
mod models;
#[cfg(test)]
mod pictures;
#[cfg(test)]
mod rings;
