//! How a text is written.

use crate::fault::DotFault;
use crate::lexer::Lexer;
use crate::parser::Parser;
use crate::token::Kind;
use std::alloc::Global;

/// A graph in its frame, as `digraph { }`, or the statements of a directed graph alone.
#[derive(Clone, Copy, Debug, Drop, PartialEq, Eq)]
pub(crate) enum Form {
    Framed,
    Lines,
}

/// The form of a text, by its first words.
pub(crate) fn form_of(alloc: Global, letters: &[char]) -> Result<Form, DotFault> {
    let lexer = Lexer::new(alloc, letters, Form::Framed);
    let parser = Parser::new(alloc, lexer)?;
    let has_lines = match parser.token.kind {
        Kind::Strict | Kind::Graph | Kind::Digraph => !begins_frame(parser)?,
        Kind::Name | Kind::Quoted => !begins_misspelt(parser)?,
        Kind::Node | Kind::Edge | Kind::Subgraph => true,
        Kind::Plus | Kind::Other => begins_edge(alloc, letters)?,
        _ => false,
    };
    Ok(if has_lines { Form::Lines } else { Form::Framed })
}

// Whether keywords begin a frame, and not a name as in `graph theory -> logic`, nor the attributes `graph [ ]`.
fn begins_frame(mut parser: Parser<'_>) -> Result<bool, DotFault> {
    let first = parser.pass()?.kind;
    if first == Kind::Graph && parser.is_at(Kind::OpenList) {
        return Ok(false);
    }
    if first == Kind::Strict {
        pass_keyword(&mut parser)?;
    }
    if parser.token.is_id() {
        parser.pass()?;
    }
    Ok(!matches!(parser.token.kind, Kind::Arrow | Kind::Line | Kind::Colon))
}

fn pass_keyword(parser: &mut Parser<'_>) -> Result<(), DotFault> {
    if matches!(parser.token.kind, Kind::Graph | Kind::Digraph) {
        parser.pass()?;
    }
    Ok(())
}

// Whether a misspelt word begins a frame, as in `digrph G {`.
fn begins_misspelt(mut parser: Parser<'_>) -> Result<bool, DotFault> {
    parser.pass()?;
    pass_keyword(&mut parser)?;
    if parser.token.is_id() {
        parser.pass()?;
    }
    Ok(parser.is_at(Kind::Open))
}

// Whether the first line is an edge between names without quotes, as in `@user -> server`.
fn begins_edge(alloc: Global, letters: &[char]) -> Result<bool, DotFault> {
    let lexer = Lexer::new(alloc, letters, Form::Lines);
    let mut parser = Parser::new(alloc, lexer)?;
    Ok(parser.passed(Kind::Name)? && matches!(parser.token.kind, Kind::Arrow | Kind::Line))
}
