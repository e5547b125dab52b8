//! From bytes to a graph.

use crate::builder::Builder;
use crate::charset::{Charset, charset_in, charset_named};
use crate::fault::{DotFault, add_warning};
use crate::form::{Form, form_of};
use crate::graph::Graph;
use crate::letters::{decoded, latin_letters};
use crate::lexer::Lexer;
use crate::parser::Parser;
use crate::place::Place;
use crate::statements::Statements;
use crate::token::Kind;
use std::alloc::{AllocError, Global};

/// Reads the first graph of a text in DOT, or a text of lines. It is UTF-8, unless the graph asks for Latin-1 by its attribute `charset`.
///
/// Lines are the statements of a directed graph without the frame `digraph { }`. A text that begins with a name, with `node`, `edge` or
/// `subgraph`, has lines, unless it looks as if its frame is misspelt. A line such as `Order received -> b : calls` consists of names,
/// which need no quotes, with `->` or `--` between them, and of a label behind a colon. All other lines are statements of DOT, in which
/// a label may stand behind a blank and a colon. Edges that are written by `--` have the attribute `dir` with the value `none`.
pub fn read_dot(alloc: Global, bytes: &[u8]) -> Result<Graph, DotFault> {
    let letters = decoded(alloc, bytes)?;
    let mut graph = graph_in(alloc, letters.all.as_slice())?;
    let charset = match charset_in(&graph) {
        Some(written) => charset_named(written.text.as_str()),
        None => Charset::Usual,
    };
    if charset == Charset::Latin1 {
        if letters.invalid.is_none() && !bytes.is_ascii() {
            let letters = latin_letters(alloc, bytes)?;
            return graph_in(alloc, letters.as_slice());
        }
    } else if let Some(valid) = letters.invalid {
        warn_of_bytes(alloc, &mut graph, bytes, valid)?;
    } else if charset == Charset::Unknown {
        warn_of_charset(alloc, &mut graph)?;
    }
    Ok(graph)
}

fn warn_of_bytes(
    alloc: Global,
    graph: &mut Graph,
    bytes: &[u8],
    valid: usize,
) -> Result<(), AllocError> {
    let place = match bytes.get(..valid).map(str::from_utf8) {
        Some(Ok(text)) => Place::behind(text),
        _ => Place::FIRST,
    };
    let message = String::from_str(
        alloc,
        "the text is not UTF-8 from here on, and is read as Latin-1; charset=latin1 says that it is",
    )?;
    add_warning(&mut graph.warnings, place, message)
}

fn warn_of_charset(alloc: Global, graph: &mut Graph) -> Result<(), AllocError> {
    let Some(written) = charset_in(graph) else {
        return Ok(());
    };
    let place = written.place;
    let message = String::from_str(
        alloc,
        "the charset is not known, and the text is read as UTF-8",
    )?;
    add_warning(&mut graph.warnings, place, message)
}

fn graph_in(alloc: Global, letters: &[char]) -> Result<Graph, DotFault> {
    let form = form_of(alloc, letters)?;
    let has_lines = form == Form::Lines;
    let lexer = Lexer::new(alloc, letters, form);
    let parser = Parser::new(alloc, lexer)?;
    let statements = if has_lines {
        let builder = Builder::new(alloc, false, true)?;
        Statements::new(alloc, parser, builder, None, true)?
    } else {
        framed(alloc, parser)?
    };
    let (builder, mut parser) = statements.all()?;
    if !has_lines {
        warn_of_rest(alloc, &mut parser)?;
    }
    let mut graph = builder.graph;
    graph.warnings = parser.lexer.warnings;
    Ok(graph)
}

// The words before the statements, up to the brace that opens them.
fn framed<'a>(alloc: Global, mut parser: Parser<'a>) -> Result<Statements<'a>, DotFault> {
    let strict = parser.passed(Kind::Strict)?;
    let directed = parser.is_at(Kind::Digraph);
    if !directed && !parser.is_at(Kind::Graph) {
        return Err(parser.misread("'graph' or 'digraph'"));
    }
    parser.pass()?;
    let name = if parser.token.is_id() {
        Some(parser.id("a name")?)
    } else {
        None
    };
    parser.expect(Kind::Open, "'{'")?;
    let builder = Builder::new(alloc, strict, directed)?;
    Statements::new(alloc, parser, builder, name, false)
}

// What follows the brace that closes the graph may be anything.
fn warn_of_rest(alloc: Global, parser: &mut Parser<'_>) -> Result<(), AllocError> {
    let place = match parser.lexer.next_token() {
        Ok(token) if token.kind == Kind::End => return Ok(()),
        Ok(token) => token.place,
        Err(DotFault::Syntax(misread)) => misread.place,
        Err(DotFault::Memory(error)) => return Err(error),
    };
    let message = String::from_str(alloc, "only the first graph of the text is read")?;
    add_warning(&mut parser.lexer.warnings, place, message)
}
