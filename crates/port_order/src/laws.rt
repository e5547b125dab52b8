//! What follows from orders and offsets, each as the contract of a function that does nothing.
ghost use Rattle.port_order.specs.Laws.{HasOneOrder, IsStrictOrder, KeepsOrder, OffsetsRise, PortsStand};
ghost use Rattle.port_order.specs.Rotated.{DirectionsRotate};

/// The relation by which the spots of a side are ordered is a strict total order.
pub fn spots_are_ordered()
    ensures { IsStrictOrder }
{}

/// The order of a side is determined.
pub fn orders_agree()
    ensures { HasOneOrder }
{}

/// Spread offsets lie on their side, rise along its order, and differ where the side is long enough.
pub fn offsets_rise()
    ensures { OffsetsRise }
{}

/// Ports keep their places or stand flush outside, and no anchor stands inside the child's box.
///
/// Proved:
/// - Pinned ports keep their places, others stand flush outside.
pub fn ports_stand()
    ensures { PortsStand }
{}

/// Ports in a fixed order stand clockwise in the document.
///
/// Proved:
/// - Ports in a fixed order stand clockwise in the document.
pub fn fixed_orders_are_kept()
    ensures { KeepsOrder }
{}

/// Sides by place, clockwise orders and spread offsets of the document are the same in the frame of a direction.
///
/// Proved:
/// - Sides by place, clockwise orders and spread offsets of the document are the same in the frame of a direction.
pub fn directions_rotate()
    ensures { DirectionsRotate }
{}
