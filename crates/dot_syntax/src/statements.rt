//! Statements. Subgraphs that are open stand in a list, so nesting takes no room of the stack.

use crate::attributes::{Entry, Written};
use crate::builder::Builder;
use crate::defaults::{Defaults, Sort};
use crate::edges::{EdgeStatement, End, Operand};
use crate::fault::{DotFault, add_warning};
use crate::parser::{Id, Parser};
use crate::place::Place;
use crate::token::Kind;
use std::alloc::{AllocError, Global};
use std::mem;

// How deep subgraphs may be nested.
const MOST_NESTED: usize = 200;

// A subgraph that is open, and the statement in it that is not at its end.
#[derive(Drop)]
struct Frame {
    subgraph: usize,
    defaults: Defaults,
    operands: Vec<Operand>,
    // Where the edge operators between them stand.
    operators: Vec<Place>,
    is_plain: bool,
}

impl Frame {
    fn new(alloc: Global, subgraph: usize, defaults: Defaults) -> Frame {
        Frame {
            subgraph,
            defaults,
            operands: Vec::new(alloc),
            operators: Vec::new(alloc),
            is_plain: false,
        }
    }
}

/// The statements of a text, with the graph as far as it is read.
#[derive(Drop)]
pub(crate) struct Statements<'a> {
    alloc: Global,
    parser: Parser<'a>,
    builder: Builder,
    frames: Vec<Frame>,
    // Whether the text has lines without a frame.
    has_lines: bool,
}

impl<'a> Statements<'a> {
    /// Begins with the statements of a graph that is open.
    pub(crate) fn new(
        alloc: Global,
        parser: Parser<'a>,
        mut builder: Builder,
        name: Option<Id>,
        has_lines: bool,
    ) -> Result<Statements<'a>, DotFault> {
        let (name, place) = match name {
            Some(id) => (Some(id.text), id.place),
            None => (None, Place::FIRST),
        };
        let (root, defaults) = builder.subgraph(name, None, place, Defaults::NONE)?;
        let mut frames = Vec::new(alloc);
        frames.push(Frame::new(alloc, root, defaults))?;
        Ok(Statements {
            alloc,
            parser,
            builder,
            frames,
            has_lines,
        })
    }

    /// Reads all statements of the graph, and answers it with what is left of the text.
    pub(crate) fn all(mut self) -> Result<(Builder, Parser<'a>), DotFault> {
        for _ in 0..self.parser.left() {
            if self.frames.is_empty() {
                break;
            }
            self.step()?;
        }
        Ok((self.builder, self.parser))
    }

    // Whether an edge operator has no operand behind it.
    fn is_awaiting(&self) -> bool {
        match self.frames.last() {
            Some(frame) => {
                !frame.operators.is_empty() && frame.operators.len() == frame.operands.len()
            }
            None => false,
        }
    }

    fn here(&self) -> (usize, Defaults) {
        match self.frames.last() {
            Some(frame) => (frame.subgraph, frame.defaults),
            None => (0, Defaults::NONE),
        }
    }

    // Reads a statement, or a part of one that ends where a subgraph begins or ends.
    fn step(&mut self) -> Result<(), DotFault> {
        match self.parser.token.kind {
            Kind::Subgraph | Kind::Open => self.open(),
            _ if self.parser.token.is_id() => self.named(),
            _ if self.is_awaiting() => {
                Err(
                    self.parser
                        .misread("a node or a subgraph after the edge operator"),
                )
            }
            Kind::Graph => self.attribute_statement(Sort::Graph),
            Kind::Node => self.attribute_statement(Sort::Node),
            Kind::Edge => self.attribute_statement(Sort::Edge),
            Kind::Close if !self.is_at_frame() => self.close(),
            Kind::End if self.is_at_frame() => {
                self.frames.clear();
                Ok(())
            }
            _ if self.is_at_frame() => Err(self.parser.misread("a statement")),
            _ => Err(self.parser.misread("a statement or '}'")),
        }
    }

    // Whether the text ends where the statements end.
    fn is_at_frame(&self) -> bool {
        self.has_lines && self.frames.len() == 1
    }

    fn open(&mut self) -> Result<(), DotFault> {
        let place = self.parser.token.place;
        let mut name = None;
        if self.parser.passed(Kind::Subgraph)? && self.parser.token.is_id() {
            name = Some(self.parser.id("a name")?.text);
        }
        if self.frames.len() > MOST_NESTED {
            let message = String::from_str(self.alloc, "subgraphs are nested more than 200 deep");
            return Err(DotFault::told(place, message));
        }
        self.parser.expect(Kind::Open, "'{'")?;
        let (parent, outer) = self.here();
        let (subgraph, defaults) = self.builder.subgraph(name, Some(parent), place, outer)?;
        self.frames
            .push(Frame::new(self.alloc, subgraph, defaults))?;
        Ok(())
    }

    // The text behind the graph isn't read here, since it may be anything.
    fn close(&mut self) -> Result<(), DotFault> {
        let closed = self.frames.pop();
        match closed {
            Some(frame) if !self.frames.is_empty() => {
                self.parser.pass()?;
                self.after_operand(Operand::Subgraph(frame.subgraph))
            }
            _ => Ok(()),
        }
    }

    // A statement that begins with a name: an attribute of the graph, or nodes.
    fn named(&mut self) -> Result<(), DotFault> {
        let id = self.parser.id("a name")?;
        if self.parser.is_at(Kind::Equals) && !self.is_awaiting() {
            return self.graph_attribute(id);
        }
        let mut ends = Vec::new(self.alloc);
        ends.push(self.end(id)?)?;
        for _ in 0..self.parser.left() {
            if !self.parser.passed(Kind::Comma)? {
                break;
            }
            let id = self.parser.id("a node after ','")?;
            ends.push(self.end(id)?)?;
        }
        self.after_operand(Operand::Nodes(ends))
    }

    fn end(&mut self, id: Id) -> Result<End, DotFault> {
        let (subgraph, defaults) = self.here();
        let node = self.builder.node(id.text, id.place, defaults, subgraph)?;
        let port = self.port()?;
        Ok(End { node, port })
    }

    // A port or a point of the compass, or both, joined by a colon.
    fn port(&mut self) -> Result<Option<usize>, DotFault> {
        if !self.parser.passed(Kind::Colon)? {
            return Ok(None);
        }
        let mut id = self.parser.id("a port after ':'")?;
        if self.parser.passed(Kind::Colon)? {
            let point = self.parser.id("a point of the compass after ':'")?;
            id.text.push(':')?;
            id.text.push_str(point.text.as_str())?;
        }
        let port = self.builder.graph.attributes.keep(written_by(id))?;
        Ok(Some(port))
    }

    fn graph_attribute(&mut self, name: Id) -> Result<(), DotFault> {
        let mut list = Vec::new(self.alloc);
        let place = name.place;
        list.push(self.assignment(name)?)?;
        self.set(Sort::Graph, list.as_slice(), place)
    }

    // Changes the defaults from here on, at the end of a statement.
    fn set(&mut self, sort: Sort, list: &[Entry], place: Place) -> Result<(), DotFault> {
        let (subgraph, defaults) = self.here();
        let defaults = self
            .builder
            .set_defaults(subgraph, defaults, sort, list, place)?;
        if let Some(frame) = self.frames.last_mut() {
            frame.defaults = defaults;
        }
        self.parser.passed(Kind::Semicolon)?;
        Ok(())
    }

    fn attribute_statement(&mut self, sort: Sort) -> Result<(), DotFault> {
        let place = self.parser.pass()?.place;
        if self.parser.token.is_id() {
            self.parser.id("a name")?;
            self.parser.expect(Kind::Equals, "'=' or '['")?;
            let message = String::from_str(self.alloc, "macros of attributes are not read")?;
            self.warn(place, message)?;
        }
        if !self.parser.is_at(Kind::OpenList) {
            return Err(self.parser.misread("'['"));
        }
        let mut list = self.attribute_lists()?;
        if sort == Sort::Edge {
            self.key_of(&mut list)?;
        }
        self.set(sort, list.as_slice(), place)
    }

    fn warn(&mut self, place: Place, message: String) -> Result<(), AllocError> {
        add_warning(&mut self.parser.lexer.warnings, place, message)
    }

    // What stands behind a name: `=` and a value.
    fn assignment(&mut self, name: Id) -> Result<Entry, DotFault> {
        self.parser.expect(Kind::Equals, "'=' and a value")?;
        let value = self.parser.id("a value after '='")?;
        let written = Written {
            text: value.text,
            is_html: value.is_html,
            place: name.place,
        };
        Ok(
            self.builder
                .graph
                .attributes
                .entry(self.alloc, name.text.as_str(), written)?,
        )
    }

    // The attributes in brackets, of which there may be several pairs.
    fn attribute_lists(&mut self) -> Result<Vec<Entry>, DotFault> {
        let mut list = Vec::new(self.alloc);
        let mut is_open = false;
        for _ in 0..self.parser.left() {
            if !is_open {
                if !self.parser.passed(Kind::OpenList)? {
                    break;
                }
                is_open = true;
            } else if self.parser.passed(Kind::CloseList)? {
                is_open = false;
            } else {
                let name = self.parser.id("an attribute or ']'")?;
                list.push(self.assignment(name)?)?;
                if !self.parser.passed(Kind::Semicolon)? {
                    self.parser.passed(Kind::Comma)?;
                }
            }
        }
        Ok(list)
    }

    // Takes the key of edges out of a list. It is no attribute.
    fn key_of(&mut self, list: &mut Vec<Entry>) -> Result<Option<usize>, AllocError> {
        let name = self.builder.number_of("key")?;
        let mut key = None;
        for entry in list.iter() {
            if entry.name == name {
                key = Some(*entry);
            }
        }
        list.retain(|entry| entry.name != name);
        match key {
            Some(entry) => self.number_of_value(entry),
            None => Ok(None),
        }
    }

    fn number_of_value(&mut self, entry: Entry) -> Result<Option<usize>, AllocError> {
        let text = match self.builder.graph.attributes.written(entry.value) {
            Some(written) => written.text.clone()?,
            None => String::new(self.alloc),
        };
        Ok(Some(self.builder.number_of(text.as_str())?))
    }

    // What follows an operand: an edge operator, or the end of the statement.
    fn after_operand(&mut self, operand: Operand) -> Result<(), DotFault> {
        let place = self.parser.token.place;
        let is_plain = self.parser.is_at(Kind::Line);
        let is_operator = is_plain || self.parser.is_at(Kind::Arrow);
        if is_operator {
            self.refuse_other_operator()?;
            self.parser.pass()?;
        }
        if let Some(frame) = self.frames.last_mut() {
            frame.operands.push(operand)?;
            if is_operator {
                frame.operators.push(place)?;
                frame.is_plain = frame.is_plain || is_plain;
            }
        }
        if is_operator { Ok(()) } else { self.finish() }
    }

    // Lines without a frame may have both, and edges by `--` have no arrow head.
    fn refuse_other_operator(&self) -> Result<(), DotFault> {
        if self.has_lines {
            return Ok(());
        }
        match (self.builder.graph.directed, self.parser.is_at(Kind::Arrow)) {
            (true, false) => Err(self.parser.misread("'->', since the graph is a digraph")),
            (false, true) => Err(
                self.parser
                    .misread("'--', since the graph is not a digraph"),
            ),
            _ => Ok(()),
        }
    }

    // The end of a statement with nodes or edges: attributes, or a label in lines without a frame.
    fn finish(&mut self) -> Result<(), DotFault> {
        let place = self.parser.token.place;
        let mut list = self.attribute_lists()?;
        if self.parser.is_at(Kind::Label) {
            let label = self.parser.pass()?;
            if !label.text.is_empty() {
                list.push(self.made("label", label.text, label.place)?)?;
            }
        }
        let Some(frame) = self.frames.last_mut() else {
            return Ok(());
        };
        let operands = mem::replace(&mut frame.operands, Vec::new(self.alloc));
        let operators = mem::replace(&mut frame.operators, Vec::new(self.alloc));
        let is_plain = mem::replace(&mut frame.is_plain, false);
        if !operators.is_empty() {
            if is_plain && self.has_lines {
                let none = String::from_str(self.alloc, "none")?;
                list.push(self.made("dir", none, place)?)?;
            }
            self.edges(operands.as_slice(), operators.as_slice(), list, place)?;
        } else if let Some(Operand::Nodes(ends)) = operands.first() {
            self.builder
                .change_nodes(ends.as_slice(), list.as_slice(), place)?;
        }
        self.parser.passed(Kind::Semicolon)?;
        Ok(())
    }

    // An attribute that the text gives in another way than by its name.
    fn made(&mut self, name: &str, text: String, place: Place) -> Result<Entry, AllocError> {
        let is_html = false;
        let written = Written {
            text,
            is_html,
            place,
        };
        self.builder
            .graph
            .attributes
            .entry(self.alloc, name, written)
    }

    fn edges(
        &mut self,
        operands: &[Operand],
        operators: &[Place],
        mut list: Vec<Entry>,
        place: Place,
    ) -> Result<(), DotFault> {
        let key = self.key_of(&mut list)?;
        let (subgraph, defaults) = self.here();
        let statement = EdgeStatement {
            subgraph,
            place,
            set: self.builder.merged(defaults.edge, list.as_slice(), place)?,
            names_tail_port: self.has_name(list.as_slice(), "tailport")?,
            names_head_port: self.has_name(list.as_slice(), "headport")?,
            list,
            key,
        };
        let pairs = operands.iter().zip(operands.iter().skip(1));
        for ((tails, heads), place) in pairs.zip(operators.iter()) {
            self.builder.connect(tails, heads, &statement, *place)?;
        }
        Ok(())
    }

    fn has_name(&mut self, list: &[Entry], name: &str) -> Result<bool, AllocError> {
        let number = self.builder.number_of(name)?;
        Ok(list.iter().any(|entry| entry.name == number))
    }
}

fn written_by(id: Id) -> Written {
    Written {
        text: id.text,
        is_html: id.is_html,
        place: id.place,
    }
}
