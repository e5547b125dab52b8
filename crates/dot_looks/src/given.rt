//! The attributes of an element.

use dot_syntax::{Attributes, Written};

/// The attributes of an element: a set of them, and the graph's list of sets.
#[derive(Clone, Copy, Drop)]
pub struct Given<'a> {
    pub attributes: &'a Attributes,
    pub set: usize,
}

fn is_of_number(letter: char) -> bool {
    letter.is_ascii_digit() || matches!(letter, '.' | '-' | '+' | 'e' | 'E')
}

// The number with which a text begins.
fn number_in(text: &str) -> Option<f64> {
    let text = text.trim();
    let digits = match text.split_once(|letter: char| !is_of_number(letter)) {
        Some((digits, _)) => digits,
        None => text,
    };
    match digits.parse::<f64>() {
        Ok(number) if number.is_finite() => Some(number),
        _ => None,
    }
}

fn is_true(text: &str) -> bool {
    text.eq_ignore_ascii_case("true")
        || text.eq_ignore_ascii_case("yes")
        || matches!(number_in(text), Some(number) if number != 0.0)
}

impl<'a> Given<'a> {
    /// The value of an attribute, even if it is empty.
    pub fn written(&self, name: &str) -> Option<&'a Written> {
        self.attributes.value(self.set, name)
    }

    /// The text of an attribute, unless it is empty.
    pub fn text(&self, name: &str) -> Option<&'a str> {
        match self.written(name) {
            Some(written) if !written.text.is_empty() => Some(written.text.as_str()),
            _ => None,
        }
    }

    /// The number with which the value of an attribute begins.
    pub fn number(&self, name: &str) -> Option<f64> {
        match self.text(name) {
            Some(text) => number_in(text),
            None => None,
        }
    }

    /// Two numbers with a comma between them. A single one counts for both.
    pub fn pair(&self, name: &str) -> Option<(f64, f64)> {
        let text = self.text(name)?;
        match text.split_once(",") {
            Some((first, second)) => match (number_in(first), number_in(second)) {
                (Some(first), Some(second)) => Some((first, second)),
                _ => None,
            },
            None => match number_in(text) {
                Some(number) => Some((number, number)),
                None => None,
            },
        }
    }

    /// Whether an attribute is set to true, to yes, or to a number other than 0.
    pub fn is_true(&self, name: &str) -> bool {
        match self.text(name) {
            Some(text) => is_true(text),
            None => false,
        }
    }

    /// Whether an attribute has a value, in small letters or capitals.
    pub fn is_value(&self, name: &str, value: &str) -> bool {
        match self.text(name) {
            Some(text) => text.eq_ignore_ascii_case(value),
            None => false,
        }
    }
}
