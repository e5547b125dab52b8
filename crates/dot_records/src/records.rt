//! Labels of records: fields side by side, and in braces fields one below the other.

use std::alloc::{AllocError, Global};

/// A field of a record. It has a text, or fields of its own, which stand behind it in the list.
#[derive(Drop)]
pub struct Field {
    /// The number of the field that holds it. The first one, which is the whole record, has none.
    pub parent: Option<usize>,
    /// What edges call it.
    pub port: Option<String>,
    /// Its text, with all escapes that aren't of records.
    pub text: String,
    /// Whether its own fields stand side by side.
    pub is_row: bool,
    /// How many fields of its own it has.
    pub count: usize,
}

// What has been read of the field in which the reader is.
#[derive(Drop)]
struct Reader {
    alloc: Global,
    fields: Vec<Field>,
    // The field that holds it.
    at: usize,
    text: String,
    port: Option<String>,
    name: String,
    is_name: bool,
    is_table: bool,
    has_blank: bool,
}

fn is_mark(letter: char) -> bool {
    matches!(letter, '{' | '}' | '|' | '<' | '>')
}

impl Reader {
    fn new(alloc: Global) -> Reader {
        Reader {
            alloc,
            fields: Vec::new(alloc),
            at: 0,
            text: String::new(alloc),
            port: None,
            name: String::new(alloc),
            is_name: false,
            is_table: false,
            has_blank: false,
        }
    }

    fn push(
        &mut self,
        parent: Option<usize>,
        text: String,
        is_row: bool,
    ) -> Result<(), AllocError> {
        let port = self.port.take();
        if let Some(parent) = parent {
            if let Some(holder) = self.fields.get_mut(parent) {
                holder.count = holder.count.saturating_add(1);
            }
        }
        self.fields.push(Field {
            parent,
            port,
            text,
            is_row,
            count: 0,
        })?;
        Ok(())
    }

    // Ends a field. One that has fields of its own is in the list already.
    fn end(&mut self) -> Result<(), AllocError> {
        if !self.is_table {
            let text = std::mem::replace(&mut self.text, String::new(self.alloc));
            self.push(Some(self.at), text, false)?;
        }
        self.is_table = false;
        self.has_blank = false;
        Ok(())
    }

    fn is_begun(&self) -> bool {
        self.is_table || self.port.is_some() || !self.text.is_empty()
    }

    fn open(&mut self) -> Result<bool, AllocError> {
        if self.is_begun() {
            return Ok(false);
        }
        let is_row = match self.fields.get(self.at) {
            Some(holder) => !holder.is_row,
            None => true,
        };
        let number = self.fields.len();
        self.push(Some(self.at), String::new(self.alloc), is_row)?;
        self.at = number;
        self.has_blank = false;
        Ok(true)
    }

    fn close(&mut self) -> Result<bool, AllocError> {
        let parent = match self.fields.get(self.at) {
            Some(holder) => holder.parent,
            None => None,
        };
        let Some(parent) = parent else {
            return Ok(false);
        };
        self.end()?;
        self.at = parent;
        self.is_table = true;
        Ok(true)
    }

    // A letter of a text. Blanks at both ends are left out, and several are one.
    fn letter(&mut self, letter: char) -> Result<bool, AllocError> {
        if letter.is_whitespace() {
            self.has_blank = true;
            return Ok(true);
        }
        if self.is_table {
            return Ok(false);
        }
        if self.has_blank && !self.text.is_empty() {
            self.text.push(' ')?;
        }
        self.has_blank = false;
        self.text.push(letter)?;
        Ok(true)
    }

    // A letter behind a backslash. Marks and blanks stand for themselves; what else is escaped stays so.
    fn escaped(&mut self, letter: char) -> Result<bool, AllocError> {
        if self.is_name {
            self.name.push(letter)?;
            return Ok(true);
        }
        if letter == ' ' {
            if self.is_table {
                return Ok(false);
            }
            self.text.push('\u{a0}')?;
            return Ok(true);
        }
        if !is_mark(letter) {
            if !self.letter('\\')? {
                return Ok(false);
            }
            self.text.push(letter)?;
            return Ok(true);
        }
        self.letter(letter)
    }

    // A letter of a name between angles.
    fn letter_of_name(&mut self, letter: char) -> Result<(), AllocError> {
        if letter == '>' {
            let name = std::mem::replace(&mut self.name, String::new(self.alloc));
            let name = String::from_str(self.alloc, name.as_str().trim())?;
            self.port = Some(name);
            self.is_name = false;
            return Ok(());
        }
        self.name.push(letter)
    }

    // Reads a letter. It answers whether it may stand there.
    fn read(&mut self, letter: char) -> Result<bool, AllocError> {
        if self.is_name {
            self.letter_of_name(letter)?;
            return Ok(true);
        }
        match letter {
            '{' => self.open(),
            '}' => self.close(),
            '|' => {
                self.end()?;
                Ok(true)
            }
            '<' if self.is_table || self.port.is_some() => Ok(false),
            '<' => {
                self.is_name = true;
                Ok(true)
            }
            '>' => Ok(false),
            _ => self.letter(letter),
        }
    }
}

/// The fields of a record. `is_row` says whether the outermost ones stand side by side. There is nothing if the text is no record.
pub fn record_of(
    alloc: Global,
    text: &str,
    is_row: bool,
) -> Result<Option<Vec<Field>>, AllocError> {
    let mut reader = Reader::new(alloc);
    reader.push(None, String::new(alloc), is_row)?;
    let mut is_escaped = false;
    for letter in text.chars() {
        let is_right = if is_escaped {
            is_escaped = false;
            reader.escaped(letter)?
        } else if letter == '\\' {
            is_escaped = true;
            true
        } else {
            reader.read(letter)?
        };
        if !is_right {
            return Ok(None);
        }
    }
    if reader.is_name || reader.at != 0 {
        return Ok(None);
    }
    reader.end()?;
    Ok(Some(reader.fields))
}
