//! Tokens of the language.

use crate::place::Place;
use std::alloc::{AllocError, Global};

// The most characters of a token that a message shows.
const MOST_SHOWN: usize = 40;

/// What a token is.
#[derive(Clone, Copy, Debug, Drop, PartialEq, Eq)]
pub(crate) enum Kind {
    Name,
    Quoted,
    Html,
    Strict,
    Graph,
    Digraph,
    Node,
    Edge,
    Subgraph,
    Open,
    Close,
    OpenList,
    CloseList,
    Semicolon,
    Comma,
    Colon,
    Equals,
    Plus,
    Arrow,
    Line,
    Label,
    Other,
    End,
}

/// A token with its text, which is empty where the kind says all, and the place where it begins.
#[derive(Debug, Drop)]
pub(crate) struct Token {
    pub(crate) kind: Kind,
    pub(crate) text: String,
    pub(crate) place: Place,
}

/// The kind of a word that is written without quotes. Keywords may be written in capitals.
pub(crate) fn kind_of_word(word: &str) -> Kind {
    let keywords = [
        ("strict", Kind::Strict),
        ("graph", Kind::Graph),
        ("digraph", Kind::Digraph),
        ("node", Kind::Node),
        ("edge", Kind::Edge),
        ("subgraph", Kind::Subgraph),
    ];
    for (keyword, kind) in keywords {
        if word.eq_ignore_ascii_case(keyword) {
            return kind;
        }
    }
    Kind::Name
}

/// The kind of a character that is a token by itself.
pub(crate) fn kind_of_mark(letter: char) -> Kind {
    match letter {
        '{' => Kind::Open,
        '}' => Kind::Close,
        '[' => Kind::OpenList,
        ']' => Kind::CloseList,
        ';' => Kind::Semicolon,
        ',' => Kind::Comma,
        ':' => Kind::Colon,
        '=' => Kind::Equals,
        '+' => Kind::Plus,
        _ => Kind::Other,
    }
}

fn mark_of(kind: Kind) -> &'static str {
    match kind {
        Kind::Open => "{",
        Kind::Close => "}",
        Kind::OpenList => "[",
        Kind::CloseList => "]",
        Kind::Semicolon => ";",
        Kind::Comma => ",",
        Kind::Colon => ":",
        Kind::Equals => "=",
        Kind::Plus => "+",
        Kind::Arrow => "->",
        Kind::Line => "--",
        _ => "",
    }
}

/// The first characters of a text in one line.
pub(crate) fn shortened(alloc: Global, text: &str) -> Result<String, AllocError> {
    let mut out = String::new(alloc);
    let mut count: usize = 0;
    for letter in text.chars() {
        if count == MOST_SHOWN {
            out.push('…')?;
            return Ok(out);
        }
        out.push(if letter.is_control() { ' ' } else { letter })?;
        count = count.saturating_add(1);
    }
    Ok(out)
}

impl Token {
    /// Whether it can name something or be a value.
    pub(crate) fn is_id(&self) -> bool {
        matches!(self.kind, Kind::Name | Kind::Quoted | Kind::Html)
    }

    /// The token as a message shows it.
    pub(crate) fn shown(&self, alloc: Global) -> Result<String, AllocError> {
        if self.kind == Kind::End {
            return String::from_str(alloc, "the end of the text");
        }
        let text = shortened(alloc, self.text.as_str())?;
        match self.kind {
            Kind::Quoted => format!(in alloc; "\"{text}\""),
            Kind::Html => format!(in alloc; "<{text}>"),
            Kind::Strict | Kind::Graph | Kind::Digraph | Kind::Node | Kind::Edge | Kind::Subgraph =>
                format!(in alloc; "the keyword {text}"),
            Kind::Name | Kind::Label | Kind::Other => format!(in alloc; "'{text}'"),
            kind => {
                let mark = mark_of(kind);
                format!(in alloc; "'{mark}'")
            }
        }
    }
}
