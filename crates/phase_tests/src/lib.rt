//! Tests of the phases: graphs, layers and networks, ports, self-loops, routes, rows and places. Rows that were worked by hand, and
//! edges drawn by lot. They stand above the crates that they call, so that none of those is proved again with its tests.
#![tactic(auto)]

#[cfg(test)]
mod arena;
#[cfg(test)]
mod blocks;
#[cfg(test)]
mod checks;
#[cfg(test)]
mod counts;
#[cfg(test)]
mod crossings;
#[cfg(test)]
mod cuts;
#[cfg(test)]
mod distances;
#[cfg(test)]
mod efforts;
#[cfg(test)]
mod fifty;
#[cfg(test)]
mod forks;
#[cfg(test)]
mod heights;
#[cfg(test)]
mod held;
#[cfg(test)]
mod horizontal;
#[cfg(test)]
mod incidence;
#[cfg(test)]
mod lines;
#[cfg(test)]
mod loops;
#[cfg(test)]
mod networks;
#[cfg(test)]
mod orienting;
#[cfg(test)]
mod packing;
#[cfg(test)]
mod plain;
#[cfg(test)]
mod ports;
#[cfg(test)]
mod row_searches;
#[cfg(test)]
mod slots;
#[cfg(test)]
mod solutions;
#[cfg(test)]
mod splitting;
#[cfg(test)]
mod steps;
#[cfg(test)]
mod straight;
#[cfg(test)]
mod sweeps;
#[cfg(test)]
mod values;
