//! Numbers as a picture writes them.

use std::fmt;
use std::num::saturating_f64_to_u64;

// From here on floats have no fractions.
const WHOLES: f64 = 9007199254740992.0;

// A place or a size with at most two decimals, and no zeros at its end.
#[derive(Clone, Copy, Drop)]
pub(crate) struct Decimal(pub(crate) f64);

// The hundredths of a fraction from 0 to 1, rounded to the nearest; a tie goes up. 62 bits hold every such fraction exactly,
// except those that round to 0 in any case.
fn hundredths(fraction: f64) -> u64 {
    let parts = saturating_f64_to_u64(fraction * 4611686018427387904.0).min(1 << 62);
    let sum = parts as u128 * 100 + (1 << 61);
    (sum >> 62) as u64
}

impl fmt::Display for Decimal {
    fn fmt<W: fmt::Write>(&self, f: &mut fmt::Formatter<W>) -> fmt::Result {
        let size = self.0.abs();
        if !(size < WHOLES) {
            let whole = self.0;
            return write!(f, "{whole}");
        }
        let floor = size.floor();
        let parts = hundredths(size - floor);
        let whole = saturating_f64_to_u64(floor).saturating_add(parts / 100);
        let (tenth, hundredth) = (parts / 10 % 10, parts % 10);
        if self.0 < 0.0 && (whole > 0 || tenth > 0 || hundredth > 0) {
            f.write_char('-')?;
        }
        if hundredth > 0 {
            write!(f, "{whole}.{tenth}{hundredth}")
        } else if tenth > 0 {
            write!(f, "{whole}.{tenth}")
        } else {
            write!(f, "{whole}")
        }
    }
}
