//! Themes: the colours of light and of dark pages.

use crate::look::{DARK, LIGHT, Paints};
use std::alloc::AllocError;

/// The colours of a picture. With `Auto` it follows the setting of the reader.
#[derive(Clone, Copy, Drop, PartialEq, Eq, Debug)]
pub enum Theme {
    Auto,
    Light,
    Dark,
}

pub(crate) fn paints_of(theme: Theme) -> Paints {
    match theme {
        Theme::Dark => DARK,
        _ => LIGHT,
    }
}

fn write_rule(
    out: &mut String,
    attribute: &str,
    light: &str,
    dark: &str,
) -> Result<(), AllocError> {
    write!(
        out,
        ":where(.elk-picture [{attribute}=\"{light}\"]){{{attribute}:{dark}}}"
    )
}

// The style that makes a picture dark where the reader's setting asks for it. Every style of a page overrides it.
pub(crate) fn write_style(out: &mut String) -> Result<(), AllocError> {
    out.push_str("<style>@media (prefers-color-scheme:dark){")?;
    write_rule(out, "fill", LIGHT.paper, DARK.paper)?;
    write_rule(out, "stroke", LIGHT.paper, DARK.paper)?;
    write_rule(out, "fill", LIGHT.ink, DARK.ink)?;
    write_rule(out, "stroke", LIGHT.ink, DARK.ink)?;
    write_rule(out, "fill", LIGHT.pale_ink, DARK.pale_ink)?;
    write_rule(out, "stroke", LIGHT.pale_ink, DARK.pale_ink)?;
    write_rule(out, "fill", LIGHT.title_ink, DARK.title_ink)?;
    write_rule(out, "fill", LIGHT.tint, DARK.tint)?;
    let opacity = DARK.tint_opacity;
    write!(
        out,
        ":where(.elk-picture [fill-opacity]){{fill-opacity:{opacity}}}}}</style>\n"
    )
}
