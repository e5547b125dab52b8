//! Which rows no exchange of neighbours makes better.
ghost use Rattle.std.specs.Prelude.{◌≡◌, ◌<◌, ◌+◌, ◌-◌, length, slice_set, cond, false, true};
ghost use Rattle.cross_reduce.specs.Exchanges.{unsettled};

/// Says of a row, if there is such a one, that it isn't settled.
fn unset(settled: &mut Vec<bool>, r: usize)
    ensures { settled.new.items ≡ slice_set settled.old.items r false }
{
    if r < settled.len() {
        settled[r] = false;
    }
}

/// Says of a row and those beside it that they aren't settled.
fn unsettle(settled: &mut Vec<bool>, r: usize)
    requires { r < length settled.old.items }
    ensures { settled.new.items ≡ unsettled settled.old.items r }
{
    unset(settled, r.saturating_sub(1));
    unset(settled, r);
    unset(settled, r + 1);
}

/// Notes whether a row that was tried is settled; one that changed unsettles those beside it too.
pub(crate) fn note_row(settled: &mut Vec<bool>, r: usize, changed: bool)
    requires { r < length settled.old.items }
    ensures { settled.new.items ≡ cond changed (unsettled settled.old.items r) (slice_set settled.old.items r true) }
{
    if changed {
        unsettle(settled, r);
    } else {
        settled[r] = true;
    }
}
