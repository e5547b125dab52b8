//! Floors, bounds and the least values under them.

/// `value[after]` is to be at least `value[before] + gap`.
#[derive(Clone, Copy)]
pub struct Bound {
    pub before: u32,
    pub after: u32,
    pub gap: i64,
}

/// Floors and bounds for the values that are numbered from 0.
#[derive(Drop)]
pub struct Constraints {
    /// Each number once, so that every bound leads from an earlier one to a later one.
    pub order: Vec<u32>,
    /// By number, what a value is at least.
    pub floor: Vec<i64>,
    pub bounds: Vec<Bound>,
}

/// The least values, by number.
#[derive(Drop)]
pub struct Least {
    pub value: Vec<i64>,
    /// The number of a bound that holds with equality at this value, or `None` where the value is its floor.
    pub tight: Vec<Option<u32>>,
}
