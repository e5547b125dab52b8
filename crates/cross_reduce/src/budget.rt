//! The work that a search may do, in links that are looked at.

use elk_layers::Layered;

/// How many links may be looked at, and how many of them are left.
#[derive(Drop)]
pub(crate) struct Budget {
    whole: u64,
    left: u64,
}

impl Budget {
    /// So much work.
    pub(crate) fn of(whole: u64) -> Budget {
        Budget { whole, left: whole }
    }

    /// Links were looked at.
    pub(crate) fn spend(&mut self, links: u64) {
        self.left = self.left.saturating_sub(links);
    }

    /// Whether nothing is left.
    pub(crate) fn is_spent(&self) -> bool {
        self.left == 0
    }

    /// What is left.
    pub(crate) fn left(&self) -> u64 {
        self.left
    }

    /// All of it, also what is spent.
    pub(crate) fn whole(&self) -> u64 {
        self.whole
    }

    /// The part of a number that is left of the whole.
    pub(crate) fn part_left(&self, number: u64) -> u64 {
        if self.whole == 0 {
            return 0;
        }
        number.saturating_mul(self.left) / self.whole
    }
}

/// The units and links of a level.
pub(crate) fn size_of(layered: &Layered) -> u64 {
    (layered.units.len() as u64).saturating_add(layered.links.len() as u64)
}

/// The effort that is made where none is asked for.
pub(crate) const USUAL: u32 = 7;

/// The greatest effort; what is asked for beyond it counts as this.
const GREATEST: u32 = 1000;

/// The work that a level is worth by an effort of 1: 64 for each of its units and links, where that is little 144, at most 2^20, and
/// none past 2^18 of these.
fn least_work(layered: &Layered) -> u64 {
    let size = size_of(layered);
    if size > 262144 {
        return 0;
    }
    let work = size.saturating_mul(64);
    work.max(size.saturating_mul(144).min(12288)).min(1048576)
}

/// The most work that a level is worth by any effort: 2^28.
const MOST: u64 = 268_435_456;

/// The work that a level is worth by an effort.
pub(crate) fn work_for(layered: &Layered, effort: u32) -> u64 {
    let times = effort.min(GREATEST) as u64;
    least_work(layered).saturating_mul(times).min(MOST)
}
