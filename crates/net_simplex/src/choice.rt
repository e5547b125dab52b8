//! The edge of least slack among those that are looked at, ties by the number.

ghost use Rattle.std.specs.Prelude.{◌≡◌};
ghost use Rattle.net_simplex.specs.Chosen.{better_of, lower_of};

/// An edge and its slack.
#[derive(Clone, Copy)]
pub struct Choice {
    pub edge: u32,
    pub slack: i128,
}

/// The better of the best edge so far and one that comes after it.
pub fn better(best: Option<Choice>, edge: u32, slack: i128) -> Option<Choice>
    ensures { result ≡ better_of best edge slack }
{
    match best {
        None => Some(Choice { edge, slack }),
        Some(old) => {
            if slack < old.slack {
                return Some(Choice { edge, slack });
            }
            Some(old)
        }
    }
}

/// The lower of the lowest number so far and one that may count.
pub fn lower(lowest: Option<u32>, number: u32, counts: bool) -> Option<u32>
    ensures { result ≡ lower_of lowest number counts }
{
    if !counts {
        return lowest;
    }
    match lowest {
        None => Some(number),
        Some(old) => {
            if number < old {
                return Some(number);
            }
            Some(old)
        }
    }
}
