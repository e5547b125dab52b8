//! Three children in a row, joined one to the next and the first to the last, drawn from their units, rows and tops.
ghost use Rattle.std.specs.Prelude.{◌≡◌, [], ◌∷◌, pos, IfOk};
ghost use Rattle.elk_layers.specs.Layered.{plain, rows_of};
ghost use Rattle.level_model.specs.Conditions.{plain_level};
ghost use Rattle.plan_laws.specs.Chained.{chained, chained_plan, joined, lane_unit};

use crate::fixtures::{edge, level_of, square, unit};
use drawing_types::list::Items;
use drawing_types::shape::Point;
use elk_doc::document::Placing;
use elk_doc::drawing::Certificate;
use elk_layers::{Layered, Lines, Link, Order, Unit};
use level_draw::{LevelOut, draw};
use level_model::LevelIn;
use std::alloc::{AllocError, Global};
use std::test::Fail;

fn chained_level(alloc: Global) -> Result<LevelIn, AllocError>
    ensures { IfOk result (λ l. plain_level l ≡ chained) }
{
    let children = vec![in alloc; square(alloc), square(alloc), square(alloc)]?;
    let edges = vec![in alloc; edge(0, 1), edge(1, 2), edge(0, 2)]?;
    Ok(level_of(children, edges, Placing::BrandesKoepf))
}

// The lane of the long edge.
fn lane() -> Unit
    ensures { result ≡ lane_unit 1 }
{
    Unit {
        layer: 1,
        child: None,
        height: 0,
        body_top: 0,
        body_height: 0,
        north: 0,
        south: 0,
    }
}

// A link of this edge from one unit to another.
fn joint(edge: u32, tail: u32, head: u32, tail_at: u8, head_at: u8) -> Link
    ensures { result ≡ joined edge tail head tail_at head_at }
{
    Link {
        edge,
        tail,
        head,
        tail_rank: 0,
        head_rank: 0,
        tail_at: i64::from(tail_at),
        head_at: i64::from(head_at),
    }
}

fn chained_layered(alloc: Global) -> Result<Layered, AllocError>
    ensures { IfOk result (λ l. plain l ≡ chained_plan.layered) }
{
    let units = vec![in alloc;
        unit(0, 30, 0, 0),
        unit(1, 30, 0, 0),
        unit(2, 30, 0, 0),
        lane(),
    ]?;
    let links = vec![in alloc;
        joint(0, 0, 1, 10, 15),
        joint(1, 1, 2, 15, 10),
        joint(2, 0, 3, 20, 0),
        joint(2, 3, 2, 0, 20),
    ]?;
    Ok(Layered {
        layers: 3,
        units,
        links,
        node_node: 20,
        edge_node: 10,
        edge_edge: 10,
    })
}

fn rows(alloc: Global) -> Result<Order, AllocError>
    ensures { IfOk result (λ o. rows_of o ≡ chained_plan.rows) }
{
    let rows = vec![in alloc;
        vec![in alloc; 0]?,
        vec![in alloc; 1, 3]?,
        vec![in alloc; 2]?,
    ]?;
    Ok(Order { rows })
}

fn lines(alloc: Global) -> Result<Lines, AllocError>
    ensures { IfOk result (λ v. v.top.items ≡ chained_plan.tops) }
{
    Ok(Lines {
        top: vec![in alloc; 0, 0, 0, 40]?,
    })
}

fn certificate(alloc: Global) -> Result<Certificate, AllocError>
    ensures layers { IfOk result (λ c. c.layers ≡ 0 ∷ 1 ∷ 2 ∷ []) }
    ensures reversed { IfOk result (λ c. c.reversed ≡ []) }
{
    Ok(Certificate {
        layers: Items::from_vec(vec![in alloc; 0, 1, 2]?),
        reversed: Items::from_vec(Vec::new(alloc)),
        flow: Items::from_vec(vec![in alloc; 2, 2, 0]?),
        span: 4,
        parts: Items::from_vec(Vec::new(alloc)),
    })
}

fn chained_drawn(alloc: Global) -> Result<LevelOut, AllocError> {
    let level = chained_level(alloc)?;
    let layered = chained_layered(alloc)?;
    let order = rows(alloc)?;
    let lines = lines(alloc)?;
    let start = rows(alloc)?;
    let certificate = certificate(alloc)?;
    draw(alloc, &level, certificate, layered, start, order, lines)
}

// The long edge turns down to its lane and up again; each gap has one slot in its middle.
#[test]
fn a_level_is_drawn_by_itself(rt: HostRuntime) -> Result<(), Fail> {
    let drawn = chained_drawn(rt.alloc())?;
    assert_eq!(rt; (drawn.extent.width, drawn.extent.height), (130, 40));
    assert_eq!(rt; drawn.boxes.len(), 3);
    for (place, x) in drawn.boxes.as_slice().iter().zip([0, 50, 100].iter()) {
        assert_eq!(rt; (place.x, place.y), (*x, 0));
    }
    assert_eq!(rt; drawn.sections.len(), 3);
    let section = drawn.sections.at(2);
    assert_eq!(rt; section.start, Point { x: 30, y: 20 });
    let bends = [(40, 20), (40, 40), (90, 40), (90, 20)];
    assert_eq!(rt; section.bends.len(), bends.len());
    for (found, wanted) in section.bends.as_slice().iter().zip(&bends) {
        assert_eq!(rt; (found.x, found.y), *wanted);
    }
    assert_eq!(rt; section.end, Point { x: 100, y: 20 });
    Ok(())
}
