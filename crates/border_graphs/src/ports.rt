//! Ports as they are sent.

use crate::members::{
    Members, ask, ask_word, labels_in, options_in, put_list, put_options, put_place, put_size,
};
use crate::spots::{PinnedSpot, SpotKey};
use border_levels::Dock;
use graph_draft::{Draft, Point, Port, Side, Size};
use serde_json::value::Map;
use serde_json::{Value, put};
use std::alloc::{AllocError, Global};

// What a port stands for.
#[derive(Clone, Copy, Debug, Drop, PartialEq, Eq, PartialOrd, Ord)]
pub(crate) enum PortKey {
    Spot(SpotKey),
    // A crossing of the border of the level itself.
    Frame(usize),
    // The end of a helper edge.
    Helper(usize),
}

// A port as it is sent.
#[derive(Clone, Copy, Drop)]
pub(crate) struct SentPort {
    pub(crate) key: PortKey,
    // The side and the index that it asks for besides.
    pub(crate) side: Option<Side>,
    pub(crate) index: Option<usize>,
    // Its place, if it isn't that of the declared port.
    pub(crate) place: Option<Point>,
    // Whether labels of the declared port are sent.
    pub(crate) is_labelled: bool,
    // What of a node with an open level it stands for.
    pub(crate) spot: Option<PinnedSpot>,
}

impl SentPort {
    // A port of size 0 that asks for nothing.
    pub(crate) fn bare(key: PortKey) -> SentPort {
        SentPort {
            key,
            side: None,
            index: None,
            place: None,
            is_labelled: false,
            spot: None,
        }
    }

    // A declared port as it is.
    pub(crate) fn declared(port: usize, is_labelled: bool) -> SentPort {
        SentPort {
            is_labelled,
            ..SentPort::bare(PortKey::Spot(SpotKey::Port(port)))
        }
    }
}

fn text_of(alloc: Global, key: PortKey) -> Result<String, AllocError> {
    match key {
        PortKey::Spot(SpotKey::Port(at)) | PortKey::Spot(SpotKey::End(Dock::Port(at))) => {
            format!(in alloc; "p{at}")
        }
        PortKey::Spot(SpotKey::Border(at)) => format!(in alloc; "b{at}"),
        PortKey::Spot(SpotKey::End(Dock::Stem(at))) => format!(in alloc; "s{at}"),
        PortKey::Spot(SpotKey::End(Dock::End(at, true))) => format!(in alloc; "d{at}"),
        PortKey::Spot(SpotKey::End(Dock::End(at, false))) => format!(in alloc; "t{at}"),
        PortKey::Spot(SpotKey::End(Dock::Merged(at, true))) => format!(in alloc; "o{at}"),
        PortKey::Spot(SpotKey::End(Dock::Merged(at, false))) => format!(in alloc; "i{at}"),
        PortKey::Frame(at) => format!(in alloc; "f{at}"),
        PortKey::Helper(at) => format!(in alloc; "h{at}"),
    }
}

pub(crate) fn port_id(alloc: Global, key: PortKey) -> Result<Value, AllocError> {
    Ok(Value::String(text_of(alloc, key)?))
}

// What a declared port is sent with.
fn put_declared(
    members: &mut Members,
    alloc: Global,
    draft: &Draft,
    port: &Port,
    sent: SentPort,
) -> Result<(), AllocError> {
    let (width, height) = (port.width, port.height);
    put_size(members, alloc, Size { width, height })?;
    if sent.place.is_none() {
        let (x, y) = (port.x, port.y);
        put_place(members, alloc, Point { x, y })?;
    }
    if sent.is_labelled {
        let labels = labels_in(alloc, draft, port.labels.as_slice())?;
        put_list(members, alloc, "labels", labels)?;
    }
    Ok(())
}

fn declared_port(draft: &Draft, key: PortKey) -> Option<&Port> {
    match key {
        PortKey::Spot(SpotKey::Port(at)) => draft.ports.get(at),
        _ => None,
    }
}

fn options_of(alloc: Global, draft: &Draft, sent: SentPort) -> Result<Members, AllocError> {
    let mut options = match declared_port(draft, sent.key) {
        Some(port) => options_in(alloc, &port.options)?,
        None => Map::new(alloc),
    };
    if let Some(side) = sent.side {
        ask_word(&mut options, alloc, "port.side", side.name())?;
    }
    if let Some(index) = sent.index {
        ask(&mut options, alloc, "port.index", Value::from(index))?;
    }
    Ok(options)
}

pub(crate) fn port_value(
    alloc: Global,
    draft: &Draft,
    sent: SentPort,
) -> Result<Value, AllocError> {
    let mut members = Map::new(alloc);
    put(&mut members, alloc, "id", port_id(alloc, sent.key)?)?;
    if let Some(port) = declared_port(draft, sent.key) {
        put_declared(&mut members, alloc, draft, port, sent)?;
    }
    if let Some(place) = sent.place {
        put_place(&mut members, alloc, place)?;
    }
    put_options(&mut members, alloc, options_of(alloc, draft, sent)?)?;
    Ok(Value::Object(members))
}
