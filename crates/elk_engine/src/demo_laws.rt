//! Laws of the document, each as the contract of a function that does nothing.
ghost use Rattle.std.specs.Prelude.{◌≡◌, ◌<◌, ◌≤◌, ℕ, Some, length};
ghost use Rattle.elk_doc.specs.declared.document.LevelOptions.{LevelOptions};
ghost use Rattle.elk_doc.specs.Document.{node_at};
ghost use Rattle.elk_doc.specs.Sound.{IsSound};
ghost use Rattle.elk_engine.specs.DemoDocument.{demo_document, IsCounted, IsPlainLevel, LeadsOn};

/// The counts of the document are its nodes, its edges and the sum of their weights.
///
/// Proved:
/// - The counts of edges and weights that `demo` writes are those of its document.
pub fn demo_is_counted(_nodes: u32)
    ensures { IsCounted _nodes }
{}

/// The document is sound for every number of leaves from 1 to 1,024.
///
/// Proved:
/// - It is sound.
pub fn demo_is_sound(_nodes: u32)
    requires some { 1 ≤ _nodes }
    requires few { _nodes ≤ 1024 }
    ensures { IsSound (demo_document _nodes) }
{}

/// Every edge of the document belongs to the root's level, and leads to a leaf of a greater number.
///
/// Proved:
/// - Each edge leads to a leaf with a greater number, so no edge closes a cycle.
pub fn demo_edges_lead_on(_nodes: u32)
    ensures { (e : ℕ) → e < length (demo_document _nodes).edges → LeadsOn (demo_document _nodes) e }
{}

/// Each level of the document is whole, layered and placed by alignment.
///
/// Proved:
/// - Each of its levels is in layers, in one piece, and placed by alignment.
pub fn demo_levels_are_plain(_nodes: u32)
    ensures { (n : ℕ) (o : LevelOptions) → (node_at (demo_document _nodes) n).level ≡ Some o → IsPlainLevel o }
{}
