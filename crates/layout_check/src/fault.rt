//! Places of faults.
ghost use Rattle.std.specs.Prelude.{◌≡◌};
ghost use Rattle.layout_check.specs.Faults.{lone_fault};

/// An element of a document, by its number among those of its kind, or none.
#[derive(Clone, Copy, PartialEq, Eq, Debug)]
pub enum Place {
    Absent,
    Node(u32),
    Port(u32),
    Edge(u32),
}

/// The two places of a fault.
#[derive(Clone, Copy, PartialEq, Eq, Debug)]
pub struct Fault {
    pub first: Place,
    pub second: Place,
}

impl Fault {
    /// The fault of one place alone.
    pub fn lone(first: Place) -> Self
        ensures { result ≡ lone_fault first }
    {
        Fault {
            first,
            second: Place::Absent,
        }
    }
}
