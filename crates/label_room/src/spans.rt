//! How far the docks of a side reach along it.

use std::alloc::{AllocError, Global};
use std::cmp::OrderedFloat;

// Where docks of a side begin and end along it, in the order of their lines.
#[derive(Drop)]
pub(crate) struct Spans {
    axes: Vec<f64>,
    // The least beginning of a dock and all behind it.
    begins: Vec<f64>,
    // The greatest end of a dock and all before it.
    ends: Vec<f64>,
}

impl Spans {
    // The spans of docks whose lines lie at `axis` and which reach `half` to either hand.
    pub(crate) fn of(alloc: Global, mut docks: Vec<(f64, f64)>) -> Result<Spans, AllocError> {
        docks.sort_by_key(|(axis, _)| OrderedFloat(*axis))?;
        let (mut axes, mut ends, mut begins) = (Vec::new(alloc), Vec::new(alloc), Vec::new(alloc));
        let mut end = f64::NEG_INFINITY;
        for (axis, half) in docks.iter() {
            end = end.max(*axis + *half);
            axes.push(*axis)?;
            ends.push(end)?;
        }
        let mut begin = f64::INFINITY;
        for (axis, half) in docks.iter().rev() {
            begin = begin.min(*axis - *half);
            begins.push(begin)?;
        }
        begins.reverse();
        Ok(Spans { axes, begins, ends })
    }

    // Whether what a line needs finds room before it but not behind it.
    pub(crate) fn is_before(&self, axis: f64, needs: f64) -> bool {
        let next = self.axes.partition_point(|other| *other <= axis);
        let begin = self.begins.get(next).copied().unwrap_or(f64::INFINITY);
        let count = self.axes.partition_point(|other| *other < axis);
        let end = match count.checked_sub(1) {
            Some(last) => self.ends.get(last).copied(),
            None => None,
        };
        let (behind, before) = (begin - axis, axis - end.unwrap_or(f64::NEG_INFINITY));
        behind < needs && before > behind
    }
}
