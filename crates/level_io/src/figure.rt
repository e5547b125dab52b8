//! The drawing of a level, without what it was made from.
ghost use Rattle.std.specs.Prelude.{◌≡◌};
ghost use Rattle.level_io.specs.Figure.{figure_of};

use drawing_types::list::Items;
use drawing_types::section::Section;
use drawing_types::shape::{Point, Size};
use elk_doc::drawing::Certificate;
use level_draw::LevelOut;

/// A level as it is drawn, in the frame in which its direction runs to the right: boxes and ports by child, ports as places in
/// their child's box, sections by edge.
#[derive(Drop)]
pub struct LevelFigure {
    pub boxes: Items<Point>,
    pub ports: Items<Items<Point>>,
    pub sections: Items<Section>,
    pub certificate: Certificate,
    pub extent: Size,
}

/// The drawing of a level that comes from a plan, which is dropped. Nothing is copied.
///
/// Proved:
/// - The drawing of a level without the plan from which it was made.
pub fn figure_of(out: LevelOut) -> LevelFigure
    ensures { result ≡ figure_of out }
{
    LevelFigure {
        boxes: out.boxes,
        ports: out.ports,
        sections: out.sections,
        certificate: out.certificate,
        extent: out.extent,
    }
}
