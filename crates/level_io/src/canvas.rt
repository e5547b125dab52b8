//! The drawing of a document while its levels are laid out.
ghost use Rattle.std.specs.Prelude.{◌≡◌, IfOk, map};
ghost use Rattle.drawing_types.specs.Shapes.{origin};
ghost use Rattle.elk_doc.specs.Drawing.{no_section};
ghost use Rattle.level_io.specs.Canvas.{IsDrawingOf, blank_box, blank_drawing, drawing_of};

use drawing_types::list::Items;
use drawing_types::section::Section;
use drawing_types::shape::{Point, Rect};
use elk_doc::document::{Doc, Edge, Node, Port};
use elk_doc::drawing::{Certificate, Placed};
use std::alloc::{AllocError, Global};

const ORIGIN: Point = Point { x: 0, y: 0 };

/// A drawing in work: boxes by node, relative to their parents, places of ports by port, relative to their nodes, sections by
/// edge, relative to the nodes of their levels, and certificates by node.
#[derive(Drop)]
pub struct Canvas {
    pub boxes: Vec<Rect>,
    pub ports: Vec<Point>,
    pub sections: Vec<Section>,
    pub levels: Vec<Option<Certificate>>,
}

// Boxes of the given sizes, all at the origin.
fn blank_boxes(alloc: Global, nodes: &[Node]) -> Result<Vec<Rect>, AllocError>
    ensures { IfOk result (λ boxes. boxes.items ≡ map blank_box nodes.now) }
{
    let mut boxes = Vec::with_capacity(alloc, nodes.len())?;
    for node in nodes {
        boxes.push(Rect {
            x: 0,
            y: 0,
            width: node.size.width,
            height: node.size.height,
        })?;
    }
    Ok(boxes)
}

fn blank_ports(alloc: Global, ports: &[Port]) -> Result<Vec<Point>, AllocError>
    ensures { IfOk result (λ places. places.items ≡ map (λ _. origin) ports.now) }
{
    let mut places = Vec::with_capacity(alloc, ports.len())?;
    for _port in ports {
        places.push(ORIGIN)?;
    }
    Ok(places)
}

fn blank_sections(alloc: Global, edges: &[Edge]) -> Result<Vec<Section>, AllocError>
    ensures { IfOk result (λ sections. sections.items ≡ map (λ _. no_section) edges.now) }
{
    let mut sections = Vec::with_capacity(alloc, edges.len())?;
    for _edge in edges {
        sections.push(Section {
            start: ORIGIN,
            bends: Items::from_vec(Vec::new(alloc)),
            end: ORIGIN,
        })?;
    }
    Ok(sections)
}

fn no_levels(alloc: Global, nodes: &[Node]) -> Result<Vec<Option<Certificate>>, AllocError>
    ensures { IfOk result (λ levels. levels.items ≡ map (λ _. None) nodes.now) }
{
    let mut levels = Vec::with_capacity(alloc, nodes.len())?;
    for _node in nodes {
        levels.push(None)?;
    }
    Ok(levels)
}

/// A drawing in which nothing is placed: all is at the origin, boxes have the sizes that the document gives (none at a compound
/// node), routes have no bends, and no level has a certificate. The only error is out of memory.
///
/// Proved:
/// - The drawing of a document while its levels are laid out. (`placed`)
pub fn blank(alloc: Global, doc: &Doc) -> Result<Canvas, AllocError>
    ensures value { IfOk result (λ canvas. drawing_of canvas ≡ blank_drawing doc.now) }
    ensures complete { IfOk result (λ canvas. IsDrawingOf doc.now (drawing_of canvas)) }
{
    Ok(Canvas {
        boxes: blank_boxes(alloc, doc.nodes())?,
        ports: blank_ports(alloc, doc.ports())?,
        sections: blank_sections(alloc, doc.edges())?,
        levels: no_levels(alloc, doc.nodes())?,
    })
}

/// The drawing that a canvas holds.
pub fn placed(canvas: Canvas) -> Placed
    ensures { result ≡ drawing_of canvas }
{
    Placed {
        boxes: Items::from_vec(canvas.boxes),
        ports: Items::from_vec(canvas.ports),
        sections: Items::from_vec(canvas.sections),
        levels: Items::from_vec(canvas.levels),
    }
}
