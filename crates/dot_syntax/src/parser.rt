//! Tokens one after the other, and the names that are made of them.

use crate::fault::DotFault;
use crate::lexer::Lexer;
use crate::place::Place;
use crate::token::{Kind, Token};
use std::alloc::{AllocError, Global};
use std::mem;

/// A name or a value.
#[derive(Drop)]
pub(crate) struct Id {
    pub(crate) text: String,
    pub(crate) is_html: bool,
    pub(crate) place: Place,
}

/// The token that is read, and what follows.
#[derive(Drop)]
pub(crate) struct Parser<'a> {
    pub(crate) alloc: Global,
    pub(crate) lexer: Lexer<'a>,
    pub(crate) token: Token,
}

impl<'a> Parser<'a> {
    pub(crate) fn new(alloc: Global, mut lexer: Lexer<'a>) -> Result<Parser<'a>, DotFault> {
        let token = lexer.next_token()?;
        Ok(Parser {
            alloc,
            lexer,
            token,
        })
    }

    /// How many tokens there may be until the end.
    pub(crate) fn left(&self) -> usize {
        self.lexer.left().saturating_add(2)
    }

    pub(crate) fn is_at(&self, kind: Kind) -> bool {
        self.token.kind == kind
    }

    /// Goes on to the next token, and answers the one that was read.
    pub(crate) fn pass(&mut self) -> Result<Token, DotFault> {
        let next = self.lexer.next_token()?;
        Ok(mem::replace(&mut self.token, next))
    }

    /// Goes on where the token is of the kind, and says whether it was.
    pub(crate) fn passed(&mut self, kind: Kind) -> Result<bool, DotFault> {
        let is_at = self.is_at(kind);
        if is_at {
            self.pass()?;
        }
        Ok(is_at)
    }

    fn told(&self, wanted: &str) -> Result<String, AllocError> {
        let found = self.token.shown(self.alloc)?;
        format!(in self.alloc; "expected {wanted}, but found {found}")
    }

    /// The fault of a token that can't stand here.
    pub(crate) fn misread(&self, wanted: &str) -> DotFault {
        DotFault::told(self.token.place, self.told(wanted))
    }

    pub(crate) fn expect(&mut self, kind: Kind, wanted: &str) -> Result<(), DotFault> {
        if self.passed(kind)? {
            Ok(())
        } else {
            Err(self.misread(wanted))
        }
    }

    /// A name or a value. Texts in quotes may be joined by `+`.
    pub(crate) fn id(&mut self, wanted: &str) -> Result<Id, DotFault> {
        if !self.token.is_id() {
            return Err(self.misread(wanted));
        }
        let first = self.pass()?;
        let mut id = Id {
            text: first.text,
            is_html: first.kind == Kind::Html,
            place: first.place,
        };
        if first.kind == Kind::Name {
            return Ok(id);
        }
        for _ in 0..self.left() {
            if !self.passed(Kind::Plus)? {
                break;
            }
            if !matches!(self.token.kind, Kind::Quoted | Kind::Html) {
                return Err(self.misread("a text in quotes after '+'"));
            }
            let more = self.pass()?;
            id.text.push_str(more.text.as_str())?;
            id.is_html = false;
        }
        Ok(id)
    }
}
