//! What edits need beside the ways of a hierarchy.

ghost use Rattle.std.specs.Prelude.{◌≡◌, [], None};

use cu_bounds::NearBounds;
use cu_chordal::Chordal;
use cu_interval::EdgeArcs;

/// What edits of a hierarchy need beside its ways: its graph, the roads of its edges, marks of edges that are known to have the lists
/// that customization makes of the lists below them, and the least bounds of its lists, where they are known.
#[derive(Clone, Copy)]
pub struct EditGround<'a> {
    pub graph: &'a Chordal,
    pub arcs: &'a EdgeArcs,
    pub customized: &'a [bool],
    pub bounds: Option<&'a NearBounds>,
}

impl<'a> EditGround<'a> {
    /// This graph and these roads alone: no edge is known to be customized, and no bounds are.
    pub fn new(graph: &'a Chordal, arcs: &'a EdgeArcs) -> EditGround<'a>
        ensures graph { result.graph.now ≡ graph.now }
        ensures arcs { result.arcs.now ≡ arcs.now }
        ensures customized { result.customized.now ≡ [] }
        ensures bounds { result.bounds ≡ None }
    {
        EditGround {
            graph,
            arcs,
            customized: &[],
            bounds: None,
        }
    }
}
