//! What a fault shows, as the contracts of functions that do nothing.
ghost use Rattle.layout_check.specs.FirstApart.{FaultBreaksApart};
ghost use Rattle.layout_check.specs.FirstInside.{FaultBreaksInside};

/// Where a fault of distances is named, the children of the level do not keep their distances.
///
/// Proved:
/// - If it names a fault of distances, of the padding or of ports, that definition fails at the level. (`fault_breaks_inside`,
///   `fault_breaks_ports`)
pub fn fault_breaks_apart()
    ensures { FaultBreaksApart }
{}

/// Where a fault of the padding is named, the content of the level does not lie inside.
pub fn fault_breaks_inside()
    ensures { FaultBreaksInside }
{}
