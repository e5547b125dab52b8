//! Characters that a text names, as in `&amp;`, `&#233;` and `&#xE9;`.

use std::alloc::{AllocError, Global};

// A longer name is none.
const LONGEST: usize = 10;

// The names of characters beyond ASCII in Latin-1, by their codes from 160 on.
const LATIN_NAMES: [&str; 96] = [
    "nbsp", "iexcl", "cent", "pound", "curren", "yen", "brvbar", "sect", "uml", "copy", "ordf",
    "laquo", "not", "shy", "reg", "macr", "deg", "plusmn", "sup2", "sup3", "acute", "micro",
    "para", "middot", "cedil", "sup1", "ordm", "raquo", "frac14", "frac12", "frac34", "iquest",
    "Agrave", "Aacute", "Acirc", "Atilde", "Auml", "Aring", "AElig", "Ccedil", "Egrave", "Eacute",
    "Ecirc", "Euml", "Igrave", "Iacute", "Icirc", "Iuml", "ETH", "Ntilde", "Ograve", "Oacute",
    "Ocirc", "Otilde", "Ouml", "times", "Oslash", "Ugrave", "Uacute", "Ucirc", "Uuml", "Yacute",
    "THORN", "szlig", "agrave", "aacute", "acirc", "atilde", "auml", "aring", "aelig", "ccedil",
    "egrave", "eacute", "ecirc", "euml", "igrave", "iacute", "icirc", "iuml", "eth", "ntilde",
    "ograve", "oacute", "ocirc", "otilde", "ouml", "divide", "oslash", "ugrave", "uacute", "ucirc",
    "uuml", "yacute", "thorn", "yuml",
];

// Some other names with their codes.
const OTHER_NAMES: [(&str, u32); 44] = [
    ("amp", 38),
    ("lt", 60),
    ("gt", 62),
    ("quot", 34),
    ("apos", 39),
    ("alpha", 945),
    ("beta", 946),
    ("gamma", 947),
    ("delta", 948),
    ("epsilon", 949),
    ("zeta", 950),
    ("eta", 951),
    ("theta", 952),
    ("lambda", 955),
    ("mu", 956),
    ("nu", 957),
    ("xi", 958),
    ("pi", 960),
    ("rho", 961),
    ("sigma", 963),
    ("tau", 964),
    ("phi", 966),
    ("chi", 967),
    ("psi", 968),
    ("omega", 969),
    ("Gamma", 915),
    ("Delta", 916),
    ("Lambda", 923),
    ("Sigma", 931),
    ("Phi", 934),
    ("Psi", 936),
    ("Omega", 937),
    ("ndash", 8211),
    ("mdash", 8212),
    ("bull", 8226),
    ("hellip", 8230),
    ("euro", 8364),
    ("larr", 8592),
    ("uarr", 8593),
    ("rarr", 8594),
    ("darr", 8595),
    ("harr", 8596),
    ("infin", 8734),
    ("le", 8804),
];

fn code_of(digits: &str) -> Option<u32> {
    let code = match digits.strip_prefix("x") {
        Some(digits) => u32::from_str_radix(digits, 16),
        None => digits.parse::<u32>(),
    };
    code.ok()
}

fn named(name: &str) -> Option<u32> {
    if let Some(digits) = name.strip_prefix("#") {
        return code_of(digits);
    }
    for (known, code) in OTHER_NAMES.iter() {
        if *known == name {
            return Some(*code);
        }
    }
    let mut code = 160u32;
    for known in LATIN_NAMES.iter() {
        if *known == name {
            return Some(code);
        }
        code = code.saturating_add(1);
    }
    None
}

// Writes the character of a name, or the text of the name as it stands if there is none.
fn write_named(out: &mut String, name: &str, is_closed: bool) -> Result<(), AllocError> {
    let letter = if is_closed {
        named(name).and_then(char::from_u32)
    } else {
        None
    };
    if let Some(letter) = letter {
        return out.push(letter);
    }
    out.push('&')?;
    out.push_str(name)?;
    if is_closed { out.push(';') } else { Ok(()) }
}

/// A text with the characters that it names.
pub(crate) fn decoded(alloc: Global, text: &str) -> Result<String, AllocError> {
    let mut out = String::new(alloc);
    let mut name = String::new(alloc);
    let mut is_open = false;
    for letter in text.chars() {
        if is_open && letter == ';' {
            write_named(&mut out, name.as_str(), true)?;
            name.clear();
            is_open = false;
        } else if is_open
            && name.len() < LONGEST
            && (letter.is_ascii_alphanumeric() || letter == '#')
        {
            name.push(letter)?;
        } else {
            if is_open {
                write_named(&mut out, name.as_str(), false)?;
                name.clear();
            }
            is_open = letter == '&';
            if !is_open {
                out.push(letter)?;
            }
        }
    }
    if is_open {
        write_named(&mut out, name.as_str(), false)?;
    }
    Ok(out)
}
