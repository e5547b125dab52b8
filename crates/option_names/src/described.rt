//! What is known of an option that is read.

/// What reads an option: a level (the root, or a node with children), any node, a port, an edge, a label.
#[derive(Clone, Copy, Drop, PartialEq, Eq)]
pub enum Role {
    Level,
    Node,
    Port,
    Edge,
    Label,
}

/// Which values an option takes.
#[derive(Clone, Copy, Drop, PartialEq, Eq)]
pub enum Kind {
    /// A name of an algorithm, with a prefix or without.
    Algorithm,
    /// One of the values.
    Word,
    /// Any of the values.
    Words,
    /// A whole number between two bounds.
    Whole,
    /// Any number.
    Decimal,
    /// True or false.
    Flag,
    /// Lengths at the four sides.
    Padding,
    /// A text.
    Text,
}

/// An option that is read.
#[derive(Clone, Copy, Drop)]
pub struct Description {
    /// The name, without a prefix.
    pub name: &'static str,
    pub kind: Kind,
    /// The elements that read it.
    pub readers: &'static [Role],
    /// Its values in words.
    pub words: &'static str,
    /// All its values, if they are few.
    pub values: &'static [&'static str],
    /// Values that ELK takes and this engine does not.
    pub elsewhere: &'static [&'static str],
    /// The bounds of numbers.
    pub low: i64,
    pub high: i64,
}
