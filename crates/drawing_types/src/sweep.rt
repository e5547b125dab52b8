//! The sweeps of an alignment.

/// One of the four sweeps of the alignment.
#[derive(Clone, Copy, PartialEq, Eq, Debug)]
pub enum Sweep {
    LeftUp,
    LeftDown,
    RightUp,
    RightDown,
}
