//! Members that say how a picture looks, and junctions across levels.

use elk_picture::{Theme, junction_points, picture};
use serde_json::Value;
use std::alloc::Global;
use std::test::Fail;

const LINES: &str = r#"{"children":[
    {"id":"a","width":20,"height":10,"style":{"dash":"dashed","width":2}},
    {"id":"b","x":60,"width":20,"height":10,"style":{"dash":"wavy","width":-1}},
    {"id":"c","x":10,"y":30,"width":60,"height":40,"style":{"fields":[
        {"width":30,"height":40},{"x":30,"width":30,"height":20},{"x":30,"y":20,"width":90,"height":20}]}}],
    "edges":[{"id":"e","sources":["a"],"targets":["b"],"style":{"dash":"dotted","arrows":"both"},
        "sections":[{"startPoint":{"x":20,"y":5},"endPoint":{"x":60,"y":5}}]}]}"#;

const LINKS: &str = r#"{"children":[
    {"id":"a","link":"HTTPS://a.b/?c&d","title":"<a>","ports":[{"id":"p","link":"x.html#q","title":"in"}]},
    {"id":"b","link":"javascript:alert(1)"},{"id":"c","link":"java\nscript:alert(1)"},{"id":"d","link":"data:text/html,x"}]}"#;

// Three routes from one dock, which part at one point. The first one is relative to the whole drawing, the others to a group.
const LEVELS: &str = r#"{"id":"r","children":[{"id":"d"},
    {"id":"g","x":100,"y":100,"children":[{"id":"a","width":20,"height":20},{"id":"b"},{"id":"c"}],
    "edges":[{"id":"f","sources":["a"],"targets":["b"],"sections":[{"startPoint":{"x":20,"y":10},
        "bendPoints":[{"x":30,"y":10},{"x":30,"y":40}],"endPoint":{"x":60,"y":40}}]},
    {"id":"h","sources":["a"],"targets":["c"],"sections":[{"startPoint":{"x":20,"y":10},
        "bendPoints":[{"x":30,"y":10},{"x":30,"y":60}],"endPoint":{"x":60,"y":60}}]}]}],
    "edges":[{"id":"e","sources":["a"],"targets":["d"],"container":"r","sections":[{"startPoint":{"x":120,"y":110},
        "bendPoints":[{"x":130,"y":110},{"x":130,"y":140}],"endPoint":{"x":200,"y":140}}]}]}"#;

// A curved edge from a to b, c and d, whose sections part at one point inside the group and at one on its border, where it ends too.
const SECTIONS: &str = r#"{"id":"r","children":[{"id":"d"},
    {"id":"g","x":100,"y":100,"children":[{"id":"a","width":20,"height":20},{"id":"b"}]}],
    "edges":[{"id":"e","sources":["a"],"targets":["b","g","d"],"container":"r","routing":"SPLINES","sections":[
        {"id":0,"incomingShape":"a","outgoingSections":[1,2],"startPoint":{"x":120,"y":110},"endPoint":{"x":130,"y":110}},
        {"id":1,"incomingSections":[0],"outgoingShape":"b","startPoint":{"x":130,"y":110},"endPoint":{"x":130,"y":140}},
        {"id":2,"incomingSections":[0],"outgoingSections":[3,4],"startPoint":{"x":130,"y":110},"endPoint":{"x":150,"y":110}},
        {"id":3,"incomingSections":[2],"outgoingShape":"g","startPoint":{"x":150,"y":110},"endPoint":{"x":150,"y":110}},
        {"id":4,"incomingSections":[2],"outgoingShape":"d","startPoint":{"x":150,"y":110},"endPoint":{"x":200,"y":110}}]}]}"#;

const OUTLINES: &str = r#"{"children":[
    {"id":"a","width":20,"height":20,"style":{"shape":"circle","outlines":2,"stroke":"red","width":2}},
    {"id":"b","x":40,"width":20,"height":6,"style":{"outlines":9}},
    {"id":"c","x":80,"width":40,"height":40,"style":{"outlines":"two"}}]}"#;

// Letters of a size that is asked for, of sizes that no letters have, and of one for which there is no room.
const LETTERS: &str = r#"{"children":[
    {"id":"a","width":90,"height":60,"labels":[{"text":"ab\nc","style":{"fontSize":20}}]},
    {"id":"b","y":80,"width":90,"height":30,"labels":[{"text":"d","x":4,"y":4,"width":9,"height":9,"style":{"fontSize":5}}]},
    {"id":"c","y":120,"width":90,"height":30,"labels":[{"text":"e","style":{"fontSize":-20}}]},
    {"id":"d","y":160,"width":90,"height":30,"labels":[{"text":"f","style":{"fontSize":1e300}}]},
    {"id":"e","y":200,"width":90,"height":30,"labels":[{"text":"g","style":{"fontSize":"20"}}]},
    {"id":"f","y":240,"width":100,"height":50,"labels":[{"text":"hh","style":{"fontSize":1000}}],"style":{"shape":"ellipse"}}]}"#;

fn drawn(alloc: Global, text: &str) -> Result<String, Fail> {
    let placed = Value::from_str(alloc, text)?;
    Ok(picture(alloc, &placed, Theme::Light, true)?)
}

#[test]
fn lines_are_broken_and_wide(rt: HostRuntime) -> Result<(), Fail> {
    let svg = drawn(rt.alloc(), LINES)?;
    let svg = svg.as_str();
    assert!(rt;
        svg.contains("stroke=\"#33475b\" stroke-width=\"2\" stroke-dasharray=\"8 6\"><title>a<")
    );
    assert!(rt; svg.contains("stroke=\"#33475b\"><title>b<"));
    assert!(rt;
        svg.contains(
            "data-id=\"e\" stroke-dasharray=\"1.4 2.8\"><title>e: a ↔ b</title><path d=\"M27 5L53 5\"/>"
        )
    );
    assert!(rt; svg.contains("<path d=\"M20 5L28 8.5L28 1.5Z\""));
    assert!(rt; svg.contains("<path d=\"M60 5L52 1.5L52 8.5Z\""));
    assert!(rt;
        svg.contains("<path class=\"fields\" d=\"M40 30V50M40 50V70M40 50H70\" fill=\"none\"")
    );
    Ok(())
}

#[test]
fn only_safe_links_are_drawn(rt: HostRuntime) -> Result<(), Fail> {
    let svg = drawn(rt.alloc(), LINKS)?;
    let svg = svg.as_str();
    assert!(rt; svg.contains("<a href=\"HTTPS://a.b/?c&amp;d\" rel=\"noopener\"><rect"));
    assert!(rt; svg.contains("<title>&lt;a&gt;</title></rect></a>"));
    assert!(rt; svg.contains("<a href=\"x.html#q\" rel=\"noopener\"><rect"));
    assert!(rt; svg.contains("<title>in</title></rect></a>"));
    assert!(rt; !svg.contains("script"));
    assert!(rt; !svg.contains("data:"));
    Ok(())
}

#[test]
fn a_junction_is_told_once(rt: HostRuntime) -> Result<(), Fail> {
    let alloc = rt.alloc();
    let placed = Value::from_str(alloc, LEVELS)?;
    let told = junction_points(alloc, &placed)?;
    assert_eq!(rt; told.len(), 3);
    for (at, points) in told.iter().enumerate() {
        assert_eq!(rt; points.len(), if at == 0 { 1 } else { 0 });
    }
    let first = told.first().and_then(|points| points.first());
    assert_eq!(rt; first.copied(), Some((130.0, 140.0)));
    Ok(())
}

#[test]
fn sections_of_a_curved_edge_meet_at_junctions(rt: HostRuntime) -> Result<(), Fail> {
    let alloc = rt.alloc();
    let placed = Value::from_str(alloc, SECTIONS)?;
    let told = junction_points(alloc, &placed)?;
    assert_eq!(rt; told.len(), 1);
    assert_eq!(rt; told[0].len(), 1);
    assert_eq!(rt; told[0][0], (130.0, 110.0));
    Ok(())
}

#[test]
fn letters_have_the_size_that_labels_ask_for(rt: HostRuntime) -> Result<(), Fail> {
    let svg = drawn(rt.alloc(), LETTERS)?;
    let svg = svg.as_str();
    assert!(rt; svg.contains("y=\"24.5\" font-size=\"20\">ab<"));
    assert!(rt; svg.contains("y=\"49.5\" font-size=\"20\">c<"));
    assert!(rt; svg.contains("font-size=\"5\">d<"));
    assert!(rt; svg.contains("font-size=\"12\">e<"));
    assert!(rt; svg.contains("font-size=\"12\">f<"));
    assert!(rt; svg.contains("font-size=\"12\">g<"));
    assert!(rt; svg.contains("font-size=\"28.28\">hh<"));
    Ok(())
}

#[test]
fn outlines_lie_within_one_another(rt: HostRuntime) -> Result<(), Fail> {
    let svg = drawn(rt.alloc(), OUTLINES)?;
    let svg = svg.as_str();
    assert!(rt;
        svg.contains(
            "</ellipse><ellipse cx=\"10\" cy=\"10\" rx=\"6\" ry=\"6\" fill=\"none\" stroke=\"red\" stroke-width=\"2\" pointer-events=\"none\"/>"
        )
    );
    assert!(rt; !svg.contains("<title>b</title></rect><rect x=\"44\""));
    assert!(rt; !svg.contains("<title>c</title></rect><rect x=\"84\""));
    Ok(())
}
