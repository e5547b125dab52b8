//! What holds of ports of the root that are placed, as the contract of a function that does nothing.
ghost use Rattle.compound.specs.Rooted.{RootPortsAreKept};

/// The ports of the root obey the constraints of the root where they stand as in a layout of the root alone.
///
/// Proved:
/// - Ports that stand there obey the rules for ports.
pub fn root_ports_are_kept()
    ensures { RootPortsAreKept }
{}
