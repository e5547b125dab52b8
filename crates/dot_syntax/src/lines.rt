//! Lines without a frame. A chain is a line of names with arrows between them, and perhaps a label behind a colon. Its names need no
//! quotes. All other lines are written in DOT.

/// Whether an edge operator stands at a place.
pub(crate) fn is_arrow(letters: &[char], at: usize) -> bool {
    let next = letters.get(at.saturating_add(1)).copied();
    letters.get(at).copied() == Some('-') && matches!(next, Some('-' | '>'))
}

/// Whether a name without quotes ends before a character.
pub(crate) fn ends_name(letter: char) -> bool {
    match letter {
        '"' | '[' | ']' | '{' | '}' | '<' | '>' => true,
        ';' | '=' | ':' | ',' | '/' | '#' | '\r' | '\n' => true,
        _ => false,
    }
}

/// Whether a text in quotes ends with its last character, where a quote closes it.
pub(crate) fn is_one_text(inner: &str) -> bool {
    let mut is_escaped = false;
    for letter in inner.chars() {
        if letter == '"' && !is_escaped {
            return false;
        }
        is_escaped = letter == '\\' && !is_escaped;
    }
    !is_escaped
}

// What is known of a line up to a place.
#[derive(Drop)]
struct Scan<'a> {
    letters: &'a [char],
    at: usize,
    // Whether a name stands before the place, and whether it can't go on.
    has_name: bool,
    is_closed: bool,
    has_arrow: bool,
}

impl<'a> Scan<'a> {
    fn left(&self) -> usize {
        self.letters.len().saturating_sub(self.at)
    }

    fn ahead(&self, by: usize) -> Option<char> {
        self.letters.get(self.at.saturating_add(by)).copied()
    }

    fn next(&self) -> Option<char> {
        self.ahead(0)
    }

    fn pass(&mut self, count: usize) -> Option<bool> {
        self.at = self.at.saturating_add(count);
        None
    }

    // Goes on by one character, name or arrow, or answers whether the line is a chain.
    fn step(&mut self) -> Option<bool> {
        match self.next() {
            None | Some('\n') => Some(self.has_name),
            Some(':') => Some(self.has_name && (self.has_arrow || !self.is_before_arrow())),
            Some(' ' | '\t') => self.pass(1),
            Some('\r') => {
                self.is_closed = self.has_name;
                self.pass(1)
            }
            Some('"') => self.quoted(),
            Some('-') if is_arrow(self.letters, self.at) => self.arrow(),
            Some(letter) if self.is_closed || ends_name(letter) => Some(false),
            Some(_) => {
                self.has_name = true;
                self.pass(1)
            }
        }
    }

    // Whether an arrow follows on the line.
    fn is_before_arrow(&self) -> bool {
        for at in self.at..self.letters.len() {
            if self.letters.get(at).copied() == Some('\n') {
                return false;
            }
            if is_arrow(self.letters, at) {
                return true;
            }
        }
        false
    }

    fn arrow(&mut self) -> Option<bool> {
        if !self.has_name {
            return Some(false);
        }
        self.has_name = false;
        self.is_closed = false;
        self.has_arrow = true;
        self.pass(2)
    }

    fn quoted(&mut self) -> Option<bool> {
        if self.has_name {
            return Some(false);
        }
        self.has_name = true;
        self.is_closed = true;
        self.pass(1);
        for _ in 0..self.left() {
            match self.next() {
                Some('"') => return self.pass(1),
                Some('\n') => return Some(false),
                Some('\\') if self.ahead(1) != Some('\n') => self.pass(2),
                _ => self.pass(1),
            };
        }
        Some(false)
    }
}

/// Whether a line that begins at a place is a chain.
pub(crate) fn is_chain(letters: &[char], at: usize) -> bool {
    let mut scan = Scan {
        letters,
        at,
        has_name: false,
        is_closed: false,
        has_arrow: false,
    };
    for _ in 0..scan.left() {
        if let Some(is_chain) = scan.step() {
            return is_chain;
        }
    }
    scan.has_name
}
