//! What holds of sizes and of drawings that are written, each as the contract of a function that does nothing.
ghost use Rattle.level_io.specs.Room.{TightDrawingsAreWritable};
ghost use Rattle.level_io.specs.Sizes.{SizesFrame};

/// A node that has the size that it needs is framed round the drawing of its level, in each drawing that keeps its pinned ports.
///
/// Proved:
/// - It is framed around its level in each drawing that keeps those ports.
pub fn sizes_frame()
    ensures { SizesFrame }
{}

/// What has all places, begins at 0 and has a tight extent of at most 2^59 can be written.
///
/// Proved:
/// - If a drawing comes from a plan, begins at 0 with a tight extent, its extent and the boxes of its children are at most 2^59 long,
///   and its certificate reverses edges of the level only, it can be written.
pub fn tight_drawings_are_writable()
    ensures { TightDrawingsAreWritable }
{}
