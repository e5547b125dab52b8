//! Documents by the calls that the program makes of them: options, a refusal, a placed document that is judged and written again, and
//! the drawing of a demo. Helpers make the calls with large contracts and promise nothing, so that the tests know little.
use compound::lay_out;
use drawing_types::shape::{Dock, Rect, Side};
use elk_doc::form::fits;
use elk_doc::places::{dock_at, outline};
use elk_engine::demo;
use elk_json::{DocFault, parse, read_doc, rule_name, rule_number};
use elk_options::{Role, read_options, read_padding};
use elk_write::{answer_text, answer_value, id_text, placed_of, text_of};
use layout_check::{Verdict, check};
use serde_json::Value;
use std::alloc::{AllocError, Global};
use std::test::Fail;

// Two nodes and an edge between them, placed.
pub(crate) const PLACED: &str =
    r#"{"children":[{"height":30,"id":"a","width":30,"x":12,"y":12},{"height":30,"id":"b","width":30,"x":62,"y":12}],"edges":[{"id":"e","sections":[{"endPoint":{"x":62,"y":27},"id":"e_s0","startPoint":{"x":42,"y":27}}],"sources":["a"],"targets":["b"]}],"height":54,"id":"r","layering":{"flow":[1],"layers":[0,1],"reversed":[],"span":1},"width":104,"x":0,"y":0}
"#;

// The verdict on a placed text, and the text that is written of what was read.
fn judged(alloc: Global, text: &str) -> Result<Option<(Verdict, Vec<u8>)>, AllocError> {
    let Ok(value) = parse(alloc, text.as_bytes()) else {
        return Ok(None);
    };
    match placed_of(alloc, &value) {
        Err(_) => Ok(None),
        Ok((doc, placed)) => {
            let verdict = check(alloc, &doc, &placed)?;
            let answer = answer_value(alloc, &value, &doc, &placed)?;
            Ok(Some((verdict, text_of(alloc, &answer)?)))
        }
    }
}

#[test]
fn a_placed_document_is_judged_and_written_again(rt: HostRuntime) -> Result<(), Fail> {
    let (verdict, text) = judged(rt.alloc(), PLACED)?.ok_or("not read")?;
    assert_eq!(rt; verdict, Verdict::Yes);
    assert_eq!(rt; text.as_slice(), PLACED.as_bytes());
    Ok(())
}

// What every kind of member stands in: kept and written ones in turn, at the root, at nodes in it, at a port and at edges.
const MIXED: &str =
    r#"{"a":-9223372036854775808,"children":[{"height":30,"id":"a\"\n","info":[1,{"b":null,"a":""}],"labels":[{"text":"é"}],"ports":[{"id":"p","note":true,"x":3,"zoom":18446744073709551615}],"sections":[],"width":30,"x":5},{"children":[{"height":7,"id":"c","width":9,"wide":[[],{}]}],"edges":[{"id":"loop","sources":["c"],"targets":["c"]}],"id":2,"layering":0,"left":1,"height":3,"yes":{}}],"edges":[{"bendPoints":[],"id":-7,"sources":["p"],"targets":[2],"type":"t"},{"id":"back","sections":1,"sources":[2],"targets":["a\"\n"]}],"layoutOptions":{"elk.direction":"DOWN"},"xs":0,"z":false}"#;

// The text of the answer to a document, written straight and by way of a value.
fn both_texts(alloc: Global, text: &str) -> Result<Option<(Vec<u8>, Vec<u8>)>, AllocError> {
    let Ok(value) = parse(alloc, text.as_bytes()) else {
        return Ok(None);
    };
    match read_doc(alloc, &value) {
        Err(_) => Ok(None),
        Ok(doc) => {
            let placed = lay_out(alloc, &doc)?;
            let straight = answer_text(alloc, &value, &doc, &placed)?;
            let answer = answer_value(alloc, &value, &doc, &placed)?;
            Ok(Some((straight, text_of(alloc, &answer)?)))
        }
    }
}

#[test]
fn an_answer_is_written_as_its_value_is(rt: HostRuntime) -> Result<(), Fail> {
    let (straight, text) = both_texts(rt.alloc(), MIXED)?.ok_or("refused")?;
    assert!(rt; straight.len() > MIXED.len());
    assert_eq!(rt; straight.as_slice(), text.as_slice());
    Ok(())
}

// The outline of the first child of a placed text, and the dock that its first edge leaves.
fn shapes(alloc: Global, text: &str) -> Option<(Rect, Dock)> {
    let Ok(value) = parse(alloc, text.as_bytes()) else {
        return None;
    };
    match placed_of(alloc, &value) {
        Err(_) => None,
        Ok((doc, placed)) => {
            if doc.nodes().len() < 2 || doc.edges().is_empty() || !fits(&doc, &placed) {
                return None;
            }
            Some((outline(&doc, &placed, 1), dock_at(&doc, &placed, 0, true)))
        }
    }
}

#[test]
fn outlines_and_docks(rt: HostRuntime) -> Result<(), Fail> {
    let (first, dock) = shapes(rt.alloc(), PLACED).ok_or("not read")?;
    assert_eq!(rt; first.x, 12);
    assert!(rt; dock.side == Side::East);
    assert_eq!(rt; dock.offset, 15);
    Ok(())
}

// The rule that refuses a text, by number and name, and the place as it is written.
fn refusal(alloc: Global, text: &str) -> Result<Option<(u32, &'static str, Vec<u8>)>, AllocError> {
    let Ok(value) = parse(alloc, text.as_bytes()) else {
        return Ok(None);
    };
    match read_doc(alloc, &value) {
        Err(DocFault::Refused(refusal)) => match &refusal.place {
            None => Ok(None),
            Some(id) => {
                let place = id_text(alloc, id)?;
                Ok(Some((rule_number(refusal.rule), rule_name(refusal.rule), place)))
            }
        },
        _ => Ok(None),
    }
}

#[test]
fn a_refusal(rt: HostRuntime) -> Result<(), Fail> {
    let text = r#"{"children":[{"id":"a\"1"},{"id":"a\"1"}]}"#;
    let (number, name, place) = refusal(rt.alloc(), text)?.ok_or("not refused")?;
    assert_eq!(rt; number, 7);
    assert_eq!(rt; name, "DoubleId");
    assert_eq!(rt; place.as_slice(), r#""a\"1""#.as_bytes());
    Ok(())
}

// The distance between the nodes of a level with these options.
fn distance(alloc: Global, text: &str) -> Result<Option<i64>, Fail> {
    let value = Value::from_slice(alloc, text.as_bytes())?;
    match read_options(Some(&value), Role::Level) {
        Err(_) => Ok(None),
        Ok(options) => Ok(options.level.map(|level| level.spacing.node_node)),
    }
}

#[test]
fn options(rt: HostRuntime) -> Result<(), Fail> {
    let padding = read_padding("[ left = 3 , top=4.00 ]").ok_or("no padding")?;
    assert_eq!(rt; padding.top, 4);
    let found = distance(rt.alloc(), r#"{"elk.spacing.nodeNode":"7"}"#)?;
    assert!(rt; found == Some(7));
    Ok(())
}

// The span of the drawing of the document of `demo 5`.
fn demo_span(alloc: Global) -> Result<u64, AllocError> {
    let doc = demo(alloc, 5)?;
    let placed = lay_out(alloc, &doc)?;
    match placed.levels.as_slice().first() {
        Some(Some(certificate)) => Ok(certificate.span),
        _ => Ok(0),
    }
}

#[test]
fn a_demo_is_drawn(rt: HostRuntime) -> Result<(), Fail> {
    assert_eq!(rt; demo_span(rt.alloc())?, 6);
    Ok(())
}
