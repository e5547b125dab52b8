//! Laws of the definitions, each as the contract of a function that does nothing.
ghost use Rattle.std.specs.Prelude.{◌↔◌, ℕ, ℤ, List, map};
ghost use Rattle.net_routes.specs.Pieces.{Corner, Overlap, IsPieceOf, RoutesOverlap};
ghost use Rattle.net_routes.specs.Moved.{moved_net, moved_route};
ghost use Rattle.net_routes.specs.Promised.{AreFewest, AreUncrossed};

use crate::{Net, NetRoute};

/// Pieces overlap whichever way they are run through, and whichever is named first.
///
/// Proved:
/// - Whether pieces overlap depends neither on their direction nor on which is named first.
pub fn overlap_flips()
    ensures flipped { (count : ℕ) (a b c d : Corner) → Overlap count a b c d → Overlap count b a c d }
    ensures exchanged { (count : ℕ) (a b c d : Corner) → Overlap count a b c d → Overlap count c d a b }
    ensures pieces { (count : ℕ) (cs ds : List Corner) (a b c d : Corner) → IsPieceOf cs a b → IsPieceOf ds c d
        → Overlap count a b c d → RoutesOverlap count cs ds }
{}

/// What is promised of slots holds of them wherever the gap stands.
///
/// Proved:
/// - What is promised of slots stays true wherever the gap is moved.
pub fn slots_move()
    ensures fewest { (y : ℤ) (nets : List Net) (count : ℕ) (routes : List NetRoute)
        → AreFewest nets count routes ↔ AreFewest (map (moved_net y) nets) count (map (moved_route y) routes) }
    ensures uncrossed { (y : ℤ) (nets : List Net) (count : ℕ) (routes : List NetRoute)
        → AreUncrossed nets count routes ↔ AreUncrossed (map (moved_net y) nets) count (map (moved_route y) routes) }
{}
