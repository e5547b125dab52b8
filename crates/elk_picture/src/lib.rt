//! The picture of a graph with places, as SVG that needs no style sheet. No contract says how a picture looks. What is proved
//! is that every JSON value has one, unless memory runs out.
#![tactic(auto)]

mod arrows;
mod colour;
mod decimal;
mod docks;
mod drawing;
mod edge_texts;
mod edges;
mod element;
mod fields;
mod fills;
mod frame;
mod geometry;
mod headroom;
mod heads;
mod ids;
mod ink;
mod junctions;
mod labels;
mod levels;
mod lines;
mod links;
mod look;
mod node_texts;
mod nodes;
mod path;
mod ports;
mod routes;
mod shapes;
mod style;
mod texts;
mod theme;
mod ways;
mod words;

pub use drawing::picture;
pub use junctions::junction_points;
pub use theme::Theme;
