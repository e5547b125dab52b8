//! A level that is judged.
use crate::scene::Scene;
use elk_doc::document::LevelOptions;
use elk_doc::drawing::Certificate;

/// The level of a node of a scene: its options, its certificate, and the layers and parts that are written there, by node.
#[derive(Clone, Copy)]
pub struct Level<'a> {
    pub scene: &'a Scene<'a>,
    pub node: u32,
    pub options: &'a LevelOptions,
    pub certificate: &'a Certificate,
    pub layers: &'a [u32],
    pub parts: &'a [u32],
}
