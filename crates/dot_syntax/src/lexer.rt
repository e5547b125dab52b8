//! From characters to tokens.

use crate::fault::{DotFault, Warning, add_warning};
use crate::form::Form;
use crate::lines::{ends_name, is_arrow, is_chain, is_one_text};
use crate::place::Place;
use crate::token::{Kind, Token, kind_of_mark, kind_of_word};
use std::alloc::{AllocError, Global};

// How deep tags of HTML may be nested.
const MOST_NESTED: usize = 200;

/// What is left of a text.
#[derive(Drop)]
pub(crate) struct Lexer<'a> {
    alloc: Global,
    letters: &'a [char],
    at: usize,
    place: Place,
    // In lines, a colon behind a blank begins a label, which ends with its line.
    form: Form,
    // Whether the line at which the text is read is a chain.
    is_chain: bool,
    pub(crate) warnings: Vec<Warning>,
}

// A letter of names. All characters beyond ASCII are letters.
fn is_letter(letter: char) -> bool {
    letter.is_ascii_alphabetic() || letter == '_' || !letter.is_ascii()
}

fn is_digit(letter: Option<char>) -> bool {
    match letter {
        Some(letter) => letter.is_ascii_digit(),
        None => false,
    }
}

impl<'a> Lexer<'a> {
    pub(crate) fn new(alloc: Global, letters: &'a [char], form: Form) -> Lexer<'a> {
        Lexer {
            alloc,
            letters,
            at: 0,
            place: Place::FIRST,
            form,
            is_chain: form == Form::Lines && is_chain(letters, 0),
            warnings: Vec::new(alloc),
        }
    }

    /// How many characters are left. There are no more tokens than that before the end.
    pub(crate) fn left(&self) -> usize {
        self.letters.len().saturating_sub(self.at)
    }

    fn ahead(&self, by: usize) -> Option<char> {
        self.letters.get(self.at.saturating_add(by)).copied()
    }

    fn next(&self) -> Option<char> {
        self.ahead(0)
    }

    fn pass(&mut self) -> Option<char> {
        let letter = self.next()?;
        self.at = self.at.saturating_add(1);
        self.place = self.place.after(letter);
        Some(letter)
    }

    fn take(&mut self, text: &mut String) -> Result<(), AllocError> {
        match self.pass() {
            Some(letter) => text.push(letter),
            None => Ok(()),
        }
    }

    fn token(&self, kind: Kind, text: String, place: Place) -> Token {
        Token { kind, text, place }
    }

    /// The next token.
    pub(crate) fn next_token(&mut self) -> Result<Token, DotFault> {
        let before = self.at;
        self.skip_blanks()?;
        let place = self.place;
        match self.next() {
            Some(':') if self.is_at_label(before) => self.label(place),
            None => Ok(self.token(Kind::End, String::new(self.alloc), place)),
            Some('"') => self.quoted(place),
            Some(_) if self.is_chain && !is_arrow(self.letters, self.at) => self.plain(place),
            Some('<') => self.html(place),
            Some(letter) if is_letter(letter) => self.word(place),
            Some(_) if self.is_at_number() => self.number(place),
            Some('-') => self.dash(place),
            Some(letter) => self.mark(letter, place),
        }
    }

    fn skip_blanks(&mut self) -> Result<(), DotFault> {
        for _ in 0..self.left() {
            match (self.next(), self.ahead(1)) {
                (Some('\n'), _) => self.begin_line(),
                (Some(' ' | '\t' | '\r'), _) => {
                    self.pass();
                }
                (Some('#'), _) | (Some('/'), Some('/')) => self.skip_line(),
                (Some('/'), Some('*')) => self.skip_comment()?,
                _ => return Ok(()),
            }
        }
        Ok(())
    }

    // Goes on to a line that no token goes on to, which alone can be a chain.
    fn begin_line(&mut self) {
        self.pass();
        self.is_chain = self.form == Form::Lines && is_chain(self.letters, self.at);
    }

    fn skip_line(&mut self) {
        for _ in 0..self.left() {
            if self.next() == Some('\n') {
                return;
            }
            self.pass();
        }
    }

    fn skip_comment(&mut self) -> Result<(), DotFault> {
        let place = self.place;
        self.pass();
        self.pass();
        for _ in 0..self.left() {
            if self.pass() == Some('*') && self.next() == Some('/') {
                self.pass();
                return Ok(());
            }
        }
        Err(self.unended(place, "a comment without its */"))
    }

    fn unended(&self, place: Place, what: &str) -> DotFault {
        DotFault::told(place, String::from_str(self.alloc, what))
    }

    fn word(&mut self, place: Place) -> Result<Token, DotFault> {
        let mut text = String::new(self.alloc);
        for _ in 0..self.left() {
            match self.next() {
                Some(letter) if is_letter(letter) || letter.is_ascii_digit() => {
                    self.take(&mut text)?
                }
                _ => break,
            }
        }
        let kind = kind_of_word(text.as_str());
        Ok(self.token(kind, text, place))
    }

    fn is_at_number(&self) -> bool {
        let sign = if self.next() == Some('-') { 1 } else { 0 };
        match self.ahead(sign) {
            Some('.') => is_digit(self.ahead(sign + 1)),
            letter => is_digit(letter),
        }
    }

    fn digits(&mut self, text: &mut String) -> Result<(), AllocError> {
        for _ in 0..self.left() {
            if !is_digit(self.next()) {
                break;
            }
            self.take(text)?;
        }
        Ok(())
    }

    fn number(&mut self, place: Place) -> Result<Token, DotFault> {
        let mut text = String::new(self.alloc);
        if self.next() == Some('-') {
            self.take(&mut text)?;
        }
        self.digits(&mut text)?;
        if self.next() == Some('.') {
            self.take(&mut text)?;
            self.digits(&mut text)?;
        }
        match self.next() {
            Some(letter) if letter == '.' || is_letter(letter) => self.warn_of_split(letter)?,
            _ => {}
        }
        Ok(self.token(Kind::Name, text, place))
    }

    fn warn_of_split(&mut self, letter: char) -> Result<(), AllocError> {
        let message = format!(in self.alloc;
            "a number ends before '{letter}', and another name begins; quotes make one name of both"
        )?;
        add_warning(&mut self.warnings, self.place, message)
    }

    fn quoted(&mut self, place: Place) -> Result<Token, DotFault> {
        let mut text = String::new(self.alloc);
        self.pass();
        for _ in 0..self.left() {
            match self.pass() {
                Some('"') => return Ok(self.token(Kind::Quoted, text, place)),
                Some('\\') => self.escaped(&mut text)?,
                Some(letter) => text.push(letter)?,
                None => break,
            }
        }
        Err(self.unended(place, "a text without its closing quote"))
    }

    // What follows a backslash. A line that ends with one goes on; all other escapes are left to what reads the text.
    fn escaped(&mut self, text: &mut String) -> Result<(), AllocError> {
        match (self.next(), self.ahead(1)) {
            (Some('"'), _) => self.take(text)?,
            (Some('\\'), _) => {
                text.push('\\')?;
                self.take(text)?;
            }
            (Some('\n'), _) => {
                self.pass();
            }
            (Some('\r'), Some('\n')) => {
                self.pass();
                self.pass();
            }
            _ => text.push('\\')?,
        }
        Ok(())
    }

    fn html(&mut self, place: Place) -> Result<Token, DotFault> {
        let mut text = String::new(self.alloc);
        let mut depth: usize = 0;
        for _ in 0..self.left() {
            match self.next() {
                Some('<') => depth = depth.saturating_add(1),
                Some('>') => depth = depth.saturating_sub(1),
                _ => {}
            }
            if depth > MOST_NESTED {
                return Err(self.unended(self.place, "HTML is nested more than 200 deep"));
            }
            if depth == 0 {
                self.pass();
                return Ok(self.token(Kind::Html, inner(self.alloc, text.as_str())?, place));
            }
            self.take(&mut text)?;
        }
        Err(self.unended(place, "HTML without its closing >"))
    }

    // Whether a colon begins a label. In DOT there may be a blank between it and what ends at a place.
    fn is_at_label(&self, before: usize) -> bool {
        self.is_chain || (self.form == Form::Lines && self.at > before)
    }

    // A name without quotes in a chain.
    fn plain(&mut self, place: Place) -> Result<Token, DotFault> {
        let mut name = String::new(self.alloc);
        for _ in 0..self.left() {
            match self.next() {
                Some(letter) if !ends_name(letter) && !is_arrow(self.letters, self.at) => {
                    self.take(&mut name)?
                }
                _ => break,
            }
        }
        let name = name.as_str().trim_end_matches([' ', '\t']);
        Ok(self.token(Kind::Name, unescaped(self.alloc, name)?, place))
    }

    // A label without quotes, or with quotes around it.
    fn label(&mut self, place: Place) -> Result<Token, DotFault> {
        let mut line = String::new(self.alloc);
        self.pass();
        for _ in 0..self.left() {
            if self.next() == Some('\n') {
                break;
            }
            self.take(&mut line)?;
        }
        let label = line.as_str().trim();
        let quoted = label
            .strip_prefix("\"")
            .and_then(|it| it.strip_suffix("\""));
        let text = match quoted {
            Some(inner) if is_one_text(inner) => String::from_str(self.alloc, inner)?,
            _ => unescaped(self.alloc, label)?,
        };
        Ok(self.token(Kind::Label, text, place))
    }

    fn dash(&mut self, place: Place) -> Result<Token, DotFault> {
        let kind = match self.ahead(1) {
            Some('>') => Kind::Arrow,
            Some('-') => Kind::Line,
            _ => return self.mark('-', place),
        };
        self.pass();
        self.pass();
        Ok(self.token(kind, String::new(self.alloc), place))
    }

    fn mark(&mut self, letter: char, place: Place) -> Result<Token, DotFault> {
        let mut text = String::new(self.alloc);
        let kind = kind_of_mark(letter);
        if kind == Kind::Other {
            text.push(letter)?;
        }
        self.pass();
        Ok(self.token(kind, text, place))
    }
}

// HTML without the bracket that opens it.
fn inner(alloc: Global, text: &str) -> Result<String, AllocError> {
    String::from_str(alloc, text.strip_prefix("<").unwrap_or(text))
}

// A text without escapes, as one in quotes has it. Each backslash stands for itself.
fn unescaped(alloc: Global, text: &str) -> Result<String, AllocError> {
    let mut out = String::new(alloc);
    for letter in text.chars() {
        if letter == '\\' {
            out.push('\\')?;
        }
        out.push(letter)?;
    }
    Ok(out)
}
