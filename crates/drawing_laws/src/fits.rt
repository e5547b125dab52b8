//! What holds a drawing in range, as the contract of a function that does nothing.
ghost use Rattle.drawing_laws.specs.Held.{HeldDrawingsAreSmall, HeldDrawingsFit};

/// A drawing that is held has all coordinates in range, and so the form that its document asks for: its levels lie inside their
/// nodes' padding, its boxes are at most 2^51 wide and high, and its root keeps its ports. No coordinate reaches 2^53.
///
/// Proved:
/// - A drawing fits its document, with every box, port and point of a route from -2^53 to 2^53, if the following holds: its lists have
///   the right lengths, its root stands at the origin, leaves keep their sizes, levels have their certificates, each box is 0 to 2^51
///   wide and high, each level lies inside its node's padding, and the root's ports obey their constraints.
/// - No coordinate of such a drawing reaches 2^53.
pub fn held_drawings_fit()
    ensures fits { HeldDrawingsFit }
    ensures small { HeldDrawingsAreSmall }
{}
