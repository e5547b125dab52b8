//! Blocks of units that chosen links join, and their least places.
//!
//! Chosen links of one gap run beside one another, so the blocks have an order in which each row goes
//! forward: the rows are woven together from left to right, in a linked list. The distances of units become
//! bounds on blocks, and the least values under them give the least lines of the units, as in the
//! compaction of Brandes and Köpf 2002.
#![tactic(auto)]

mod constraints;
mod entries;
mod joining;
mod laws;
mod order;
mod placing;
mod tops;

pub use placing::place_links;
