//! Reads a text of JSON for the places of its values. Arrays and objects that are open stand in a list, so nesting takes no room of the
//! stack.

use crate::marks::{Double, Inner, Places};
use crate::misread::{Misread, Unread};
use crate::steps::{Step, copied};
use crate::strings::string_at;
use crate::texts::quoted;
use crate::words::{beginning, is_large, is_number, is_of_word};
use std::alloc::{AllocError, Global};
use std::collections::BTreeMap;

// How many arrays and objects may stand in one another.
const MOST_NESTED: usize = 127;

// What the text goes on with.
#[derive(Clone, Copy, Debug, Drop, PartialEq, Eq)]
enum Due {
    Value,
    // A value or the end of its array.
    FirstItem,
    // A name or the end of its object.
    FirstName,
    Name,
    // What stands behind a value.
    After,
    Nothing,
}

// An array or an object that is open.
#[derive(Drop)]
struct Open {
    number: usize,
    start: usize,
    is_list: bool,
    // The next index of an array.
    count: usize,
}

// One reading of a text.
#[derive(Drop)]
struct Reader<'a> {
    alloc: Global,
    letters: &'a [char],
    at: usize,
    due: Due,
    open: Vec<Open>,
    // The steps to the value that is being read.
    steps: Vec<Step>,
    places: Places,
    // The name of the member that is being read, and where it stands.
    name: Option<(String, usize)>,
}

impl Reader<'_> {
    fn letter(&self, ahead: usize) -> Option<char> {
        self.letters.get(self.at.saturating_add(ahead)).copied()
    }

    fn pass(&mut self, count: usize) {
        self.at = self.at.saturating_add(count);
    }

    fn fail(&self, reason: &str) -> Unread {
        Unread::at(self.at, String::from_str(self.alloc, reason))
    }

    // The text ends, or something else stands there than what closes the array or object.
    fn unended(&self, before: &str) -> Unread {
        let reason = format!(in self.alloc; "the text ends before {before}");
        Unread::at(self.at, reason)
    }

    fn close(&self) -> char {
        match self.open.last() {
            Some(open) if open.is_list => ']',
            _ => '}',
        }
    }

    fn skip(&mut self) -> Result<(), Unread> {
        for _ in 0..self.letters.len() {
            match self.letter(0) {
                Some(' ' | '\t' | '\n' | '\r') => self.pass(1),
                _ => break,
            }
        }
        match (self.letter(0), self.letter(1)) {
            (Some('/'), Some('/' | '*')) => Err(self.fail("there are no comments in JSON")),
            _ => Ok(()),
        }
    }

    // The word that begins here.
    fn word(&self) -> Result<String, AllocError> {
        let mut word = String::new(self.alloc);
        for letter in self.letters.get(self.at..).unwrap_or(&[]) {
            if !is_of_word(*letter) {
                break;
            }
            word.push(*letter)?;
        }
        Ok(word)
    }

    fn begin(&mut self) -> Result<(), Unread> {
        if self.letter(0) == Some('\u{feff}') {
            return Err(self.fail("the text begins with a byte order mark; leave it out"));
        }
        self.skip()?;
        if self.letter(0).is_none() {
            return Err(self.fail("the text is empty"));
        }
        Ok(())
    }

    // Reads up to the next value, name or mark.
    fn step(&mut self) -> Result<(), Unread> {
        self.skip()?;
        match self.due {
            Due::FirstItem if self.letter(0) == Some(']') => self.end(),
            Due::FirstName if self.letter(0) == Some('}') => self.end(),
            Due::Value | Due::FirstItem => self.value(),
            Due::Name | Due::FirstName => self.member(),
            Due::After if self.open.is_empty() => self.rest(),
            Due::After => self.mark(),
            Due::Nothing => Ok(()),
        }
    }

    fn rest(&mut self) -> Result<(), Unread> {
        self.due = Due::Nothing;
        match self.letter(0) {
            Some(_) => Err(self.fail("there is something after the end of the document")),
            None => Ok(()),
        }
    }

    // Closes the innermost array or object.
    fn end(&mut self) -> Result<(), Unread> {
        self.pass(1);
        self.open.pop();
        self.leave();
        Ok(())
    }

    // The value that was read ends here.
    fn leave(&mut self) {
        self.steps.pop();
        self.due = Due::After;
    }

    fn mark(&mut self) -> Result<(), Unread> {
        let close = self.close();
        let mark = self.letter(0);
        if mark == Some(close) {
            return self.end();
        }
        if mark.is_none() {
            return Err(self.unended(if close == ']' { "]" } else { "}" }));
        }
        if mark != Some(',') {
            let reason = format!(in self.alloc; "a comma or {close} is expected");
            return Err(Unread::at(self.at, reason));
        }
        let comma = self.at;
        self.pass(1);
        self.skip()?;
        if self.letter(0) == Some(close) {
            let reason = format!(in self.alloc; "a comma before {close} is not allowed");
            return Err(Unread::at(comma, reason));
        }
        self.due = if close == ']' { Due::Value } else { Due::Name };
        Ok(())
    }

    // No name begins here.
    fn no_name(&self) -> Result<Unread, AllocError> {
        let word = self.word()?;
        Ok(match self.letter(0) {
            None => self.unended("}"),
            Some('\'') => self.fail("strings need double quotes"),
            _ if word.is_empty() => self.fail("a name in double quotes is expected"),
            _ => {
                let reason = format!(in self.alloc; "the name {word} needs double quotes");
                Unread::at(self.at, reason)
            }
        })
    }

    // Reads a name and the colon behind it.
    fn member(&mut self) -> Result<(), Unread> {
        let start = self.at;
        if self.letter(0) != Some('"') {
            return Err(self.no_name()?);
        }
        let text = string_at(self.alloc, self.letters, start)?;
        self.at = text.end;
        let name = text.said;
        self.skip()?;
        if self.letter(0).is_none() {
            return Err(self.unended("}"));
        }
        if self.letter(0) != Some(':') {
            let told = quoted(self.alloc, name.as_str())?;
            let reason = format!(in self.alloc; "a colon is expected after {told}");
            return Err(Unread::at(self.at, reason));
        }
        self.pass(1);
        self.name = Some((name, start));
        self.due = Due::Value;
        Ok(())
    }

    // Tells of a member that stands there already.
    fn note_double(&mut self, at: usize) -> Result<(), AllocError> {
        let steps = copied(self.alloc, self.steps.as_slice())?;
        self.places.doubles.push(Double { steps, at })?;
        Ok(())
    }

    fn next_index(&mut self) -> usize {
        match self.open.last_mut() {
            Some(open) => {
                let at = open.count;
                open.count = at.saturating_add(1);
                at
            }
            None => 0,
        }
    }

    // Enters the value that begins here, and answers the number of its mark.
    fn enter(&mut self) -> Result<usize, AllocError> {
        let holder = match self.open.last() {
            Some(open) => Some(open.number),
            None => None,
        };
        let at = self.at;
        let name = match self.name.take() {
            Some((name, start)) => {
                self.steps.push(Step::named(self.alloc, name.as_str())?)?;
                if self.places.has(holder.unwrap_or(0), &name) {
                    self.note_double(start)?;
                }
                Some((name, start))
            }
            None => {
                if holder.is_some() {
                    let index = self.next_index();
                    self.steps.push(Step::At(index))?;
                }
                None
            }
        };
        self.places.add(holder, name, at)
    }

    fn value(&mut self) -> Result<(), Unread> {
        let number = self.enter()?;
        match self.letter(0) {
            Some('[') => self.nested(number, true),
            Some('{') => self.nested(number, false),
            Some('"') => {
                let text = string_at(self.alloc, self.letters, self.at)?;
                self.at = text.end;
                self.leave();
                Ok(())
            }
            Some('-' | '0'..='9') => self.number(),
            _ => self.name_of_value(),
        }
    }

    fn too_deep(&self) -> Result<Unread, AllocError> {
        let mut starts = Vec::new(self.alloc);
        for open in self.open.iter() {
            starts.push(open.start)?;
        }
        Ok(Unread::Misread(Misread {
            at: self.at,
            reason: String::from_str(
                self.alloc,
                "arrays and objects are nested more than 127 deep",
            )?,
            deep: Some((copied(self.alloc, self.steps.as_slice())?, starts)),
        }))
    }

    fn nested(&mut self, number: usize, is_list: bool) -> Result<(), Unread> {
        if self.open.len() >= MOST_NESTED {
            return Err(self.too_deep()?);
        }
        self.begin_nested(number, is_list)?;
        Ok(())
    }

    fn begin_nested(&mut self, number: usize, is_list: bool) -> Result<(), AllocError> {
        let start = self.at;
        let inner = if is_list {
            Inner::Items(Vec::new(self.alloc))
        } else {
            Inner::Members(BTreeMap::new(self.alloc))
        };
        self.places.open(number, inner);
        self.open.push(Open {
            number,
            start,
            is_list,
            count: 0,
        })?;
        self.due = if is_list {
            Due::FirstItem
        } else {
            Due::FirstName
        };
        self.pass(1);
        Ok(())
    }

    // What goes on behind a number, as in 01, 1.x or 5px, belongs to no number.
    fn number(&mut self) -> Result<(), Unread> {
        let word = self.word()?;
        if !is_number(word.as_str()) {
            let found = beginning(self.alloc, word.as_str())?;
            let reason = format!(in self.alloc; "{found} is not a JSON number");
            return Err(Unread::at(self.at, reason));
        }
        if is_large(word.as_str()) {
            let found = beginning(self.alloc, word.as_str())?;
            let reason = format!(in self.alloc; "{found} is too large for a number");
            return Err(Unread::at(self.at, reason));
        }
        self.pass(word.len());
        self.leave();
        Ok(())
    }

    // Reads one of the three words that are values.
    fn name_of_value(&mut self) -> Result<(), Unread> {
        let word = self.word()?;
        if matches!(word.as_str(), "true" | "false" | "null") {
            self.pass(word.len());
            self.leave();
            return Ok(());
        }
        Err(match self.letter(0) {
            None => self.unended("a value"),
            Some('\'') => self.fail("strings need double quotes"),
            Some('.' | '+') => {
                let reason = format!(in self.alloc; "{word} is not a JSON number");
                Unread::at(self.at, reason)
            }
            _ if word.is_empty() => self.fail("a value is expected"),
            _ => {
                let reason = format!(in self.alloc; "{word} is not a JSON value");
                Unread::at(self.at, reason)
            }
        })
    }
}

/// Reads a text, by its letters, for the places of its values; or tells the first thing that is wrong with it. A string with half of a
/// pair of units, and a number that is larger than numbers may be, are wrong too.
pub fn read_places(alloc: Global, letters: &[char]) -> Result<Places, Unread> {
    let mut reader = Reader {
        alloc,
        letters,
        at: 0,
        due: Due::Value,
        open: Vec::new(alloc),
        steps: Vec::new(alloc),
        places: Places::none(alloc),
        name: None,
    };
    reader.begin()?;
    // Each step but the last passes a letter at least.
    for _ in 0..letters.len().saturating_add(2) {
        if reader.due == Due::Nothing {
            break;
        }
        reader.step()?;
    }
    Ok(reader.places)
}
