//! Levels laid out one by one, from what earlier layouts tell.

use crate::costs::{Cost, cost_of};
use crate::drawings::{Drawing, Drawings};
use crate::standing::{Standing, stand};
use border_graphs::{
    Helper, Known, LevelGraph, Mode, PinnedSpot, SpotKey, Stand, level_graph, missing_helpers,
    orders_by, spot_key,
};
use border_levels::{Model, line_of};
use elk_json::{DocFault, Refusal, Rule, read_doc};
use graph_draft::How;
use graph_layout::{DrawnLevel, OneLevel, draw_level};
use std::alloc::{AllocError, Global};
use std::collections::BTreeMap;

// How often a level is laid out at most until its border has layers of its own.
const MOST_CALLS: usize = 40;

const NO_HELPERS: &[Helper] = &[];

/// The levels of a graph, and what is known of them so far.
#[derive(Drop)]
pub(crate) struct Layout<'a> {
    pub(crate) model: &'a Model,
    how: &'a How,
    /// How much was laid out so far: nodes and pieces of edges, in all calls.
    pub(crate) work: usize,
    known: Known,
    // By the text of a level's graph the number of its drawing.
    memory: BTreeMap<Vec<u8>, usize>,
    drawings: Drawings,
}

/// What a layout goes back to: what was known, and by level the number of its placement.
#[derive(Drop)]
pub(crate) struct State {
    known: Known,
    now: BTreeMap<usize, usize>,
}

fn copy_of(alloc: Global, known: &Known) -> Result<Known, AllocError> {
    let mut placed = BTreeMap::new(alloc);
    for (node, stand) in known.placed.iter() {
        let pins = stand.pins.clone()?;
        placed.insert(
            *node,
            Stand {
                size: stand.size,
                pins,
            },
        )?;
    }
    Ok(Known {
        placed,
        orders: known.orders.clone()?,
        wishes: known.wishes.clone()?,
        helpers: known.helpers.clone()?,
    })
}

// The lines of what stands at a child of a drawn level.
fn lines_of(
    alloc: Global,
    drawing: &Drawing,
    at: usize,
    spots: &[PinnedSpot],
) -> Result<BTreeMap<SpotKey, f64>, AllocError> {
    let draft = &drawing.level.draft;
    let mut lines = BTreeMap::new(alloc);
    if let Some(child) = drawing.child_at(at) {
        for (spot, port) in spots.iter().zip(draft.ports_of(child).iter()) {
            lines.insert(spot.key, line_of(draft, *port, spot.side))?;
        }
    }
    Ok(lines)
}

// Where along its side each crossing of a node's border lies, by the lines of what stands there.
fn places_of(
    alloc: Global,
    model: &Model,
    node: usize,
    lines: &BTreeMap<SpotKey, f64>,
) -> Result<BTreeMap<usize, f64>, AllocError> {
    let mut places = BTreeMap::new(alloc);
    for crossing in model.crossings_of(node) {
        if let Some(line) = lines.get(&spot_key(model, *crossing)) {
            places.insert(*crossing, *line)?;
        }
    }
    Ok(places)
}

// The helper edges of a level.
fn helpers_of(known: &Known, level: usize) -> &[Helper] {
    match known.helpers.get(&level) {
        Some(helpers) => helpers.as_slice(),
        None => NO_HELPERS,
    }
}

// Whether edges cross the border of a node with an open level.
fn is_crossed(model: &Model, node: usize) -> bool {
    model.is_open(node) && !model.crossings_of(node).is_empty()
}

impl<'a> Layout<'a> {
    pub(crate) fn new(
        alloc: Global,
        model: &'a Model,
        how: &'a How,
    ) -> Result<Layout<'a>, AllocError> {
        let mut known = Known::nothing(alloc);
        for level in model.levels.iter() {
            known.helpers.insert(*level, Vec::new(alloc))?;
        }
        Ok(Layout {
            model,
            how,
            work: 0,
            known,
            memory: BTreeMap::new(alloc),
            drawings: Drawings::none(alloc),
        })
    }

    /// The levels as they stand, and where each crossing of the root's border lies along its side.
    pub(crate) fn ended(self, alloc: Global) -> (Drawings, BTreeMap<usize, f64>) {
        let Layout {
            known,
            drawings,
            ..
        } = self;
        let Known { mut placed, .. } = known;
        match placed.remove(&0) {
            Some(stand) => (drawings, stand.pins),
            None => (drawings, BTreeMap::new(alloc)),
        }
    }
}

// What the layout of one level is told.
fn one_level(alloc: Global, sent: &LevelGraph) -> Result<OneLevel, AllocError> {
    let mut one = OneLevel::none(alloc);
    for at in sent.still.iter() {
        one.still.insert(*at)?;
    }
    for (at, border) in sent.ends.iter() {
        one.ends.insert(*at, *border)?;
    }
    Ok(one)
}

impl Layout<'_> {
    fn remember(
        &mut self,
        alloc: Global,
        text: Vec<u8>,
        level: DrawnLevel,
        sent: &LevelGraph,
    ) -> Result<usize, AllocError> {
        let at = self.drawings.drawn.len();
        self.drawings.drawn.push(Drawing::of(alloc, level, sent)?)?;
        self.memory.insert(text, at)?;
        Ok(at)
    }

    // The number of the drawing of a level's graph. No graph is drawn twice.
    fn draw(&mut self, alloc: Global, sent: &LevelGraph) -> Result<usize, DocFault> {
        let text = sent.document.to_vec(alloc)?;
        if let Some(at) = self.memory.get(&text) {
            return Ok(*at);
        }
        let one = one_level(alloc, sent)?;
        match draw_level(alloc, &sent.document, self.how, &one)? {
            Some(level) => Ok(self.remember(alloc, text, level, sent)?),
            None => {
                // The engine tells what it doesn't take.
                let _ = read_doc(alloc, &sent.document)?;
                Err(DocFault::Refused(Refusal {
                    rule: Rule::BadShape,
                    place: None,
                }))
            }
        }
    }

    fn draw_once(
        &mut self,
        alloc: Global,
        level: usize,
        mode: Mode,
    ) -> Result<(usize, LevelGraph), DocFault> {
        let sent = level_graph(alloc, self.model, &self.known, level, mode)?;
        let work = sent.children.saturating_add(sent.pieces.len());
        self.work = self.work.saturating_add(work);
        let at = self.draw(alloc, &sent)?;
        Ok((at, sent))
    }

    // Adds the helper edges that a drawn level lacks. It answers whether there are any.
    fn add_helpers(
        &mut self,
        alloc: Global,
        level: usize,
        at: usize,
        sent: &LevelGraph,
    ) -> Result<bool, AllocError> {
        let Some(drawing) = self.drawings.drawn.get(at) else {
            return Ok(false);
        };
        let outlines = drawing.level.outlines.as_slice();
        let known = helpers_of(&self.known, level);
        let missing = missing_helpers(alloc, self.model, level, sent, outlines, known)?;
        if let Some(helpers) = self.known.helpers.get_mut(&level) {
            for helper in missing.iter() {
                helpers.push(*helper)?;
            }
        }
        Ok(!missing.is_empty())
    }

    // A level laid out, anew with more helper edges until its border has layers of its own: the number of the drawing, and its graph.
    fn drawn(
        &mut self,
        alloc: Global,
        level: usize,
        mode: Mode,
    ) -> Result<(usize, LevelGraph), DocFault> {
        let (mut at, mut sent) = self.draw_once(alloc, level, mode)?;
        for _ in 1..MOST_CALLS {
            if !self.add_helpers(alloc, level, at, &sent)? {
                break;
            }
            (at, sent) = self.draw_once(alloc, level, mode)?;
        }
        Ok((at, sent))
    }

    // Keeps where what stands at a child of a drawn level would stand if it were free, and the order in which its border is wanted.
    fn learn(
        &mut self,
        alloc: Global,
        (child, place): (usize, usize),
        at: usize,
        sent: &LevelGraph,
    ) -> Result<(), AllocError> {
        if let (Some(drawing), Some(spots)) = (
            self.drawings.drawn.get(at),
            sent.spots.get(&child),
        ) {
            let lines = lines_of(alloc, drawing, place, spots.as_slice())?;
            let places = places_of(alloc, self.model, child, &lines)?;
            let orders = orders_by(alloc, self.model, child, &places)?;
            self.known.wishes.insert(child, lines)?;
            self.known.orders.insert(child, orders)?;
        }
        Ok(())
    }

    /// Lays a level out with the ports free at all of its children with open levels, or at one, and keeps where they stand then: that is
    /// the order in which the borders of these are wanted.
    pub(crate) fn order(
        &mut self,
        alloc: Global,
        level: usize,
        only: Option<usize>,
    ) -> Result<(), DocFault> {
        let mode = match only {
            Some(child) => Mode::FreeAt(child),
            None => Mode::Free,
        };
        let model = self.model;
        let (at, sent) = self.drawn(alloc, level, mode)?;
        for (place, child) in model.draft.children_of(level).iter().enumerate() {
            if is_crossed(model, *child) && only.unwrap_or(*child) == *child {
                self.learn(alloc, (*child, place), at, &sent)?;
            }
        }
        Ok(())
    }

    /// Forgets the order that is asked for of a node's border, so that its own level finds one.
    pub(crate) fn forget_order(&mut self, node: usize) {
        self.known.orders.remove(&node);
    }

    fn put(&mut self, level: usize, standing: Standing) -> Result<(), AllocError> {
        let Standing { placement, pins } = standing;
        let size = placement.size;
        self.known.placed.insert(level, Stand { size, pins })?;
        self.drawings.place(level, placement)
    }

    /// Lays out a level and leads it on to its border.
    pub(crate) fn place(&mut self, alloc: Global, level: usize) -> Result<(), DocFault> {
        let (at, _) = self.drawn(alloc, level, Mode::Pinned)?;
        let standing = match self.drawings.drawn.get(at) {
            Some(drawing) => stand(alloc, self.model, level, at, drawing)?,
            None => return Ok(()),
        };
        Ok(self.put(level, standing)?)
    }

    /// Lays out all levels from the inside out.
    pub(crate) fn up(&mut self, alloc: Global) -> Result<(), DocFault> {
        let model = self.model;
        for depth in (0..model.nodes.len()).rev() {
            for level in model.levels.iter() {
                if model.depth_of(*level) == depth {
                    self.place(alloc, *level)?;
                }
            }
        }
        Ok(())
    }

    /// Lays out a level and those around it.
    pub(crate) fn up_from(&mut self, alloc: Global, level: usize) -> Result<(), DocFault> {
        let model = self.model;
        let mut node = level;
        for _ in 0..model.nodes.len() {
            self.place(alloc, node)?;
            match model.draft.parent_of(node) {
                Some(parent) => node = parent,
                None => break,
            }
        }
        Ok(())
    }

    /// Finds the orders of all borders as the levels around them want them, from the outside in.
    pub(crate) fn down(&mut self, alloc: Global) -> Result<(), DocFault> {
        let model = self.model;
        // Each level stands behind those around it.
        for level in model.levels.iter() {
            let mut children = model.draft.children_of(*level).iter();
            if children.any(|child| is_crossed(model, *child)) {
                self.order(alloc, *level, None)?;
            }
        }
        Ok(())
    }

    /// What `restore` goes back to.
    pub(crate) fn state(&self, alloc: Global) -> Result<State, AllocError> {
        Ok(State {
            known: copy_of(alloc, &self.known)?,
            now: self.drawings.now.clone()?,
        })
    }

    pub(crate) fn restore(&mut self, state: State) {
        let State { known, now } = state;
        self.known = known;
        self.drawings.now = now;
    }

    /// The cost of the drawing as it stands.
    pub(crate) fn cost(&self, alloc: Global) -> Result<Cost, AllocError> {
        cost_of(alloc, self.drawings.routes(alloc, self.model)?.as_slice())
    }
}
