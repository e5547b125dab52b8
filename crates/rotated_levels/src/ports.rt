//! What holds of ports in the document, as the contract of a function that does nothing.
ghost use Rattle.rotated_levels.specs.PortExamples.{UpwardStands};
ghost use Rattle.rotated_levels.specs.PortLaws.{PortsRotateBack};

/// The ports of children, and the ends of edges at them, obey the constraints of their nodes where those of the level's drawing
/// obey the constraints of its children.
///
/// Proved:
/// - If ports of children, and edge ends at children, obey the constraints of their nodes in the level's drawing, they do in the
///   document.
pub fn ports_rotate_back()
    ensures { PortsRotateBack }
{}

/// A document that runs up meets what these laws ask of a document and its level, and its docks are the level's in the frame.
///
/// Proved:
/// - A document that runs up meets the conditions of these laws, and has its level's docks.
pub fn port_examples()
    ensures { UpwardStands }
{}
