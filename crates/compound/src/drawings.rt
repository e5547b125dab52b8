//! What is true of drawings of whole documents, as the contract of a function that does nothing.
ghost use Rattle.compound.specs.Whole.{DocumentsAreDrawn};

/// A drawing whose levels and root's ports come from layouts obeys its document at every level, and has no more room than it
/// needs.
///
/// Proved:
/// - If the levels and the root's ports of a document's drawing come from layouts, the drawing obeys the document at every level.
/// - Then it takes no more room than it needs, all coordinates are in range, and none reaches 2^53.
pub fn documents_are_drawn()
    ensures { DocumentsAreDrawn }
{}
