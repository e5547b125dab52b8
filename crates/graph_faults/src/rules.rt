//! Names of rules, and their words.

// The name of a rule.
pub(crate) fn rule_name(rule: u32) -> &'static str {
    match rule {
        0 => "TooLong",
        1 => "NotJson",
        2 => "NotWhole",
        3 => "BadShape",
        4 => "OutOfRange",
        5 => "TooMany",
        6 => "TooDeep",
        7 => "DoubleId",
        8 => "UnknownEnd",
        9 => "Hyperedge",
        10 => "CrossLevel",
        11 => "OptionValue",
        _ => "PortInside",
    }
}

// What is wrong by a rule that names no element.
pub(crate) fn rule_words(rule: u32) -> &'static str {
    match rule {
        0 => "the document is longer than 2^24 bytes",
        1 => "the document is not valid JSON, or is nested more than 127 deep",
        2 => "a number is not whole",
        5 => "there are more than 2,048 nodes, 4,096 ports or 2,048 edges",
        6 => "nodes are nested more than 50 levels deep",
        _ => "a member has the wrong kind of value, or an id or an end is missing",
    }
}
