//! What a fault shows, as the contract of a function that does nothing.
ghost use Rattle.layout_check.specs.FirstPorts.{FaultBreaksPorts};

/// Where a fault of ports or ends is named, the level does not keep its ports.
pub fn fault_breaks_ports()
    ensures { FaultBreaksPorts }
{}
