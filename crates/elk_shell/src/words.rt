//! The arguments, read by clap.
ghost use Rattle.std.specs.Prelude.{◌≡◌, Ok, true};
ghost use Rattle.elk_shell.specs.Asked.{asks_for_answer, texts};

use crate::settings::{NoOption, Settings, add_option};
use clap::error::ErrorKind;
use clap::{Arg, ArgAction, ArgMatches, Command, Error};
use elk_picture::Theme;
use serde_json::Value;
use serde_json::value::Map;
use std::alloc::{AllocError, Global};

const ABOUT: &str =
    "Lays out a block diagram and draws it.\n\nReads a graph from stdin, as JSON or as DOT, and writes its picture, as SVG, to stdout. With layout, check, batch or demo as its first argument, it does what `elk` does.";

const VERSION: &str = "0.9.1";

// The commands of `elk`.
const COMMANDS: [&str; 4] = ["layout", "check", "batch", "demo"];

/// How pictures are drawn.
#[derive(Clone, Copy, Debug, Drop, PartialEq, Eq)]
pub struct Look {
    pub theme: Theme,
    /// Whether edges end in arrow heads.
    pub arrows: bool,
}

/// What a run does.
#[derive(Clone, Copy, Debug, Drop, PartialEq, Eq)]
pub enum Task {
    /// Lays a graph out, and writes it with its places.
    Place,
    /// Lays a graph out, and draws it.
    Draw(Look),
    /// Draws a graph that has places, as it is.
    DrawPlaced(Look),
    /// Tells what is wrong with a graph, and what has no effect in it.
    Lint,
    /// Replies to requests, one a line.
    Serve,
}

/// What the arguments ask for.
#[derive(Drop)]
pub enum Asked {
    /// The engine's answer to a document.
    Answer,
    Run(Task, Settings),
    /// This text: the help, or the version.
    Text(String),
    /// Nothing, since they are invalid: what is wrong, and the usage.
    Wrong(String),
}

/// Whether the arguments after the program's name are for `elk`: the first of them is one of its commands.
pub fn is_for_engine(words: &[String]) -> bool {
    match words.first() {
        Some(word) => COMMANDS.iter().any(|command| word.as_str() == *command),
        None => false,
    }
}

/// What the arguments after the program's name ask for.
pub fn asked_by(alloc: Global, words: &[String]) -> Result<Asked, AllocError>
    ensures answer { asks_for_answer (texts words.now) ≡ true → result ≡ Ok Asked.Answer }
{
    // No parser is needed for this, so a contract can say what it asks for.
    if is_plain(words) {
        return Ok(Asked::Answer);
    }
    match matches_of(alloc, words) {
        Ok(matches) => asked_run(alloc, &matches),
        Err(error) => match error.kind() {
            ErrorKind::OutOfMemory => Err(AllocError),
            ErrorKind::DisplayHelp | ErrorKind::DisplayVersion => {
                Ok(Asked::Text(format!(in alloc; "{error}")?))
            }
            _ => Ok(Asked::Wrong(format!(in alloc; "{error}")?)),
        },
    }
}

// Whether the words are `--plain` alone.
fn is_plain(words: &[String]) -> bool
    ensures { result ≡ asks_for_answer (texts words.now) }
{
    match words {
        [word] => word.as_str() == "--plain",
        _ => false,
    }
}

// The options of a call, as an object of names and values; the text that is none, where there is one.
fn options_of<'a>(
    alloc: Global,
    matches: &ArgMatches<'a>,
) -> Result<Result<Value, &'a str>, AllocError> {
    let mut options = Map::new(alloc);
    if let Some(texts) = matches.get_strs("option") {
        for text in texts {
            if let Err(NoOption) = add_option(alloc, &mut options, *text)? {
                return Ok(Err(*text));
            }
        }
    }
    Ok(Ok(Value::Object(options)))
}

fn asked_run(alloc: Global, matches: &ArgMatches<'_>) -> Result<Asked, AllocError> {
    match options_of(alloc, matches)? {
        Ok(options) => {
            let mut settings = Settings::of(alloc, Some(options), !matches.get_flag("exact"))?;
            settings.is_dot = matches.get_flag("dot");
            Ok(Asked::Run(task_of(matches), settings))
        }
        Err(text) => Ok(Asked::Wrong(format!(in alloc;
            "error: an option is given as NAME=VALUE, and not as '{text}'\n"
        )?)),
    }
}

fn theme_of(matches: &ArgMatches<'_>) -> Theme {
    if matches.get_flag("light") {
        Theme::Light
    } else if matches.get_flag("dark") {
        Theme::Dark
    } else {
        Theme::Auto
    }
}

fn task_of(matches: &ArgMatches<'_>) -> Task {
    let look = Look {
        theme: theme_of(matches),
        arrows: !matches.get_flag("no-arrows"),
    };
    if matches.get_flag("json") {
        Task::Place
    } else if matches.get_flag("lines") {
        Task::Serve
    } else if matches.get_flag("lint") {
        Task::Lint
    } else if matches.get_flag("placed") {
        Task::DrawPlaced(look)
    } else {
        Task::Draw(look)
    }
}

// An argument that is there or not.
fn flag<'a>(alloc: Global, name: &'a str, help: &'a str) -> Arg<'a> {
    Arg::new(alloc, name)
        .long(name)
        .help(help)
        .action(ArgAction::SetTrue)
}

// What the program writes: a picture, a placed graph, or replies.
fn with_forms<'a>(alloc: Global, command: Command<'a>) -> Result<Command<'a>, AllocError> {
    let svg = flag(alloc, "svg", "Write the picture (the default)");
    let json = flag(alloc, "json", "Write the graph with its places, as JSON")
        .conflicts_with("svg")?
        .conflicts_with("lines")?;
    let lines = flag(alloc, "lines", "Reply to one request a line").conflicts_with("svg")?;
    let placed = flag(alloc, "placed", "Draw a graph that has places, as it is")
        .conflicts_with("json")?
        .conflicts_with("lines")?;
    let lint = flag(
        alloc,
        "lint",
        "Write what is wrong with the graph, and what has no effect in it",
    )
    .conflicts_with("svg")?
    .conflicts_with("json")?
    .conflicts_with("lines")?
    .conflicts_with("placed")?;
    command
        .arg(svg)?
        .arg(json)?
        .arg(lines)?
        .arg(placed)?
        .arg(lint)
}

// How graphs are read. A request tells this itself.
fn with_settings<'a>(alloc: Global, command: Command<'a>) -> Result<Command<'a>, AllocError> {
    let option = Arg::new(alloc, "option")
        .long("option")
        .value_name("NAME=VALUE")
        .help("Set a layout option for all elements that don't set it")
        .action(ArgAction::Append)
        .conflicts_with("lines")?
        .conflicts_with("placed")?;
    let exact = flag(
        alloc,
        "exact",
        "Don't round numbers, so that fractions are refused",
    )
    .conflicts_with("lines")?
    .conflicts_with("placed")?;
    let dot = flag(
        alloc,
        "dot",
        "Read the graph as DOT, the language of Graphviz, or as lines such as `a -> b : label`",
    )
    .conflicts_with("lines")?
    .conflicts_with("placed")?;
    let plain = flag(
        alloc,
        "plain",
        "Write what `elk layout` writes; alone, with no other option",
    )
    .exclusive(true);
    command.arg(option)?.arg(exact)?.arg(dot)?.arg(plain)
}

// A look of pictures, which only a run that draws one has.
fn look_flag<'a>(alloc: Global, name: &'a str, help: &'a str) -> Result<Arg<'a>, AllocError> {
    flag(alloc, name, help)
        .conflicts_with("json")?
        .conflicts_with("lint")?
        .conflicts_with("lines")
}

// How pictures are drawn.
fn with_looks<'a>(alloc: Global, command: Command<'a>) -> Result<Command<'a>, AllocError> {
    let light = look_flag(alloc, "light", "Draw for a light page")?.conflicts_with("dark")?;
    let dark = look_flag(alloc, "dark", "Draw for a dark page")?;
    let bare = look_flag(alloc, "no-arrows", "Draw edges without arrow heads")?;
    command.arg(light)?.arg(dark)?.arg(bare)
}

// The arguments as clap reads them.
fn matches_of<'a>(alloc: Global, words: &'a [String]) -> Result<ArgMatches<'a>, Error> {
    let named = Command::new(alloc, "elk-draw")
        .about(ABOUT)
        .version(VERSION)
        .no_binary_name(true);
    let forms = with_forms(alloc, named)?;
    let command = with_looks(alloc, with_settings(alloc, forms)?)?;
    command.try_get_matches_from(words)
}
