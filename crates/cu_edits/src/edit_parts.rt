//! What edits are settled over.

ghost use Rattle.std.specs.Prelude.{◌≡◌, ◌≤◌, ◌<◌, ◌*◌, ◌↔◌, ℕ, IfOk, IfSome, IsTrue, Some, length, slice_get, true};
ghost use Rattle.cu_resettled.specs.ResettlingAll.{IsChangedBySome, edited_all};
ghost use Rattle.std.specs.List.{Contains};
ghost use Rattle.cu_chordal.specs.Graphs.{FindsEdge, HasEdge, IsChordal};
ghost use Rattle.cu_interval.specs.EdgeArcs.{AreEdgeArcs};
ghost use Rattle.cu_interval.specs.Hierarchies.{IsHierarchy, IsHierarchyOf, list_number, list_of};
ghost use Rattle.cu_interval.specs.LeastBounds.{least_bound};
ghost use Rattle.cu_interval.specs.Shortcuts.{FindsHalves};
ghost use Rattle.cu_bounds.specs.Near.{AreNear};
ghost use Rattle.cu_unpack.specs.Rebuilds.{IsRebuiltFunction, Keeps};
ghost use Rattle.cu_unpack.specs.RebuiltRuns.{IsKnownList};
ghost use Rattle.cu_edits.specs.Customized.{AreCustomized};
ghost use Rattle.cu_edits.specs.Learned.{ArePackedOf};
ghost use Rattle.cu_edits.specs.Steps.Packed.{IfNear, LearnsPacked};
ghost use Rattle.cu_edits.specs.Steps.Parts.{FitTogether};
ghost use Rattle.cu_edits.specs.Together.{FitEdits, edits_of};

use crate::edit_ground::EditGround;
use crate::edited_roads::EditedRoads;
use crate::edits::{Edits, is_changed_by_some, read_edits};
use cu_arrival::Arrival;
use cu_bounds::NearBounds;
use cu_chordal::{Chordal, Ends};
use cu_interval::{Dir, EdgeArcs, Entry, Ways, find_halves};
use cu_model::NoMemory;
use cu_unpack::{PackedFunctions, Rebuilt};
use std::alloc::Global;
use std::marker::Model;

/// The hierarchy before some edits, the edits, and the graph and the roads of the hierarchy; and marks of edges whose lists are
/// known to be what customization makes of the lists below them. Contracts see all of these. The least bounds of lists before the
/// edits may be known too.
#[derive(Drop)]
pub struct EditParts<'a, W: Ways> {
    ways: &'a W,
    edits: Edits<'a>,
    graph: &'a Chordal,
    arcs: &'a EdgeArcs,
    customized: &'a [bool],
    // None where they aren't known.
    bounds: Option<&'a NearBounds>,
}

impl<'a, W: Ways> Model for EditParts<'a, W> {
    ghost use Rattle.std.specs.Prelude.{◌*◌, IfSome};
    ghost use Rattle.cu_bounds.specs.Near.{AreNear};
    ghost use Rattle.cu_edits.specs.Steps.Parts.{FitTogether, PartsValue};
    ghost use Rattle.cu_edits.specs.Together.{FitEdits, edits_of};

    ghost Value = { PartsValue };

    ghost view = { λ parts. record {
      before = W.hierarchy parts.ways.now;
      edit = edits_of parts.edits;
      graph = parts.graph.now;
      arcs = parts.arcs.now;
      customized = parts.customized.now;
    } };

    ghost invariant = { λ parts. FitTogether (record {
      before = W.hierarchy parts.ways.now;
      edit = edits_of parts.edits;
      graph = parts.graph.now;
      arcs = parts.arcs.now;
      customized = parts.customized.now;
    }) × FitEdits (W.hierarchy parts.ways.now).network parts.edits
        × IfSome parts.bounds (λ bounds. AreNear (W.hierarchy parts.ways.now) bounds.now) };
}

impl<'a, W: Ways> EditParts<'a, W> {
    /// These, of one hierarchy. Takes no memory.
    pub fn of(ways: &'a W, edits: Edits<'a>, ground: EditGround<'a>) -> EditParts<'a, W>
        requires edits { FitEdits (W.hierarchy ways.now).network edits }
        requires graph { IsHierarchyOf ground.graph.now (W.hierarchy ways.now) }
        requires arcs { AreEdgeArcs (W.hierarchy ways.now).network (W.hierarchy ways.now).order
            ground.graph.now.edges ground.arcs.now }
        requires customized { AreCustomized (W.hierarchy ways.now) ground.customized.now }
        requires bounds { IfSome ground.bounds
            (λ bounds. AreNear (W.hierarchy ways.now) bounds.now) }
        ensures parts { result ≡ record {
          before = W.hierarchy ways.now;
          edit = edits_of edits.entry;
          graph = ground.entry.graph.now;
          arcs = ground.entry.arcs.now;
          customized = ground.entry.customized.now;
        } }
        ensures fit { FitTogether result }
    {
        read_edits(edits);
        EditParts {
            ways,
            edits,
            graph: ground.graph,
            arcs: ground.arcs,
            customized: ground.customized,
            bounds: ground.bounds,
        }
    }

    /// The seconds below which no travel over the list of an edge in a direction falls before the edits, as far as that is known,
    /// else 0.
    pub fn least(&self, edge: u32, dir: Dir) -> u64
        ensures { result ≤ least_bound self.now.before edge dir }
    {
        let Some(bounds) = self.bounds else {
            return 0;
        };
        if edge >= self.graph.edges() {
            return 0;
        }
        bounds.get(edge, dir)
    }

    /// The ways before the edits.
    pub fn ways(&self) -> &'a W {
        self.ways
    }

    /// The graph.
    pub fn graph(&self) -> &'a Chordal
        ensures same { result.now ≡ self.now.graph }
        ensures fit { FitTogether self.now }
    {
        self.graph
    }

    /// The roads of all edges.
    pub fn edge_arcs(&self) -> &'a EdgeArcs
        ensures same { result.now ≡ self.now.arcs }
    {
        self.arcs
    }

    /// The roads after the edits. Takes no memory.
    pub fn edited_roads(&self) -> EditedRoads<'a, W>
        ensures roads { result ≡ edited_all self.now.before.network self.now.edit }
    {
        EditedRoads::of(self.ways, self.edits)
    }

    /// Does some of the edits change a road, below the number of roads?
    pub fn is_changed(&self, arc: u32) -> bool
        requires { arc < length self.now.before.network.arcs }
        ensures { IsTrue result ↔ IsChangedBySome self.now.before.network self.now.edit arc }
    {
        is_changed_by_some(self.ways, self.edits, arc)
    }

    /// Is an edge known to be customized?
    pub fn is_marked(&self, edge: u32) -> bool
        ensures marked { result ≡ true → slice_get self.now.customized edge ≡ Some true }
        ensures fit { FitTogether self.now }
    {
        let place = edge as usize;
        place < self.customized.len() && self.customized[place]
    }

    /// How many edges there are.
    pub fn edges(&self) -> u32
        ensures count { result ≡ length self.now.graph.edges }
        ensures sound { IsChordal self.now.graph }
        ensures fit { FitTogether self.now }
    {
        self.graph.edges()
    }

    /// The ends of an edge, below the number of edges.
    pub fn ends(&self, edge: u32) -> Ends
        requires { edge < length self.now.graph.edges }
        ensures there { slice_get self.now.graph.edges edge ≡ Some result }
        ensures sound { IsChordal self.now.graph }
        ensures fit { FitTogether self.now }
    {
        self.graph.ends(edge)
    }

    /// The edge between two ranks, of which the lower is below the number of ranks. None exactly where there is no such edge.
    pub fn edge(&self, low: u32, high: u32) -> Option<u32>
        requires { low < self.now.graph.ranks }
        ensures found { FindsEdge self.now.graph.edges low high result }
        ensures sound { IsChordal self.now.graph }
        ensures fit { FitTogether self.now }
    {
        self.graph.edge(low, high)
    }

    /// The lower neighbours of a rank below the number of ranks.
    pub fn down(&self, rank: u32) -> &'a [u32]
        requires { rank < self.now.graph.ranks }
        ensures members { (x : ℕ)
            → Contains result.now x ↔ HasEdge self.now.graph.edges x rank }
        ensures sound { IsChordal self.now.graph }
    {
        self.graph.down(rank)
    }

    /// The edges of both halves of the way by a middle, below the number of ranks, of an edge with these ends. None where one
    /// of them isn't there.
    pub fn find_halves(&self, ends: Ends, dir: Dir, middle: u32) -> Option<(u32, u32)>
        requires { middle < self.now.graph.ranks }
        ensures found { FindsHalves self.now.graph.edges ends dir middle result }
        ensures sound { IsChordal self.now.graph }
    {
        find_halves(self.graph, ends, dir, middle)
    }

    /// The roads of an edge in a direction.
    pub fn arcs(&self, edge: u32, dir: Dir) -> &'a [u32]
        requires { edge < length self.now.graph.edges }
        ensures there { slice_get self.now.arcs (list_number edge dir) ≡ Some result.now }
        ensures fit { FitTogether self.now }
    {
        self.arcs.arcs(edge, dir)
    }

    /// How many entries the list of an edge in a direction has before the edits.
    pub fn entries(&self, edge: u32, dir: Dir) -> u32
        requires { edge < length self.now.graph.edges }
        ensures count { result ≡ length (list_of self.now.before edge dir) }
        ensures sound { IsHierarchy self.now.before }
    {
        self.ways.entries(edge, dir)
    }

    /// The entry with this index, below the number of entries, of the list of an edge in a direction before the edits.
    pub fn entry(&self, edge: u32, dir: Dir, index: u32) -> Entry
        requires edge { edge < length self.now.graph.edges }
        requires index { index < length (list_of self.now.before edge dir) }
        ensures there { slice_get (list_of self.now.before edge dir) index ≡ Some result }
        ensures sound { IsHierarchy self.now.before }
    {
        self.ways.entry(edge, dir, index)
    }

    /// The function of the list of an edge in a direction before the edits, rebuilt where it isn't kept. What is kept stays so
    /// after a refusal too.
    pub fn function_before(
        &self,
        alloc: Global,
        rebuilt: &mut Rebuilt,
        edge: u32,
        dir: Dir,
    ) -> Result<Option<Arrival>, NoMemory>
        requires edge { edge < length self.now.before.edges }
        requires size { length rebuilt.old.kept ≡ 2 * length self.now.before.edges }
        requires keeps { Keeps self.now.before rebuilt.old }
        ensures function { IfOk result
            (λ function. IsRebuiltFunction self.now.before edge dir function) }
        ensures size { length rebuilt.new.kept ≡ length rebuilt.old.kept }
        ensures keeps { Keeps self.now.before rebuilt.new }
    {
        rebuilt.function(alloc, self.ways, edge, dir)
    }

    /// Makes sure that the packed function of the list of an edge in a direction before the edits is known. False where a way takes
    /// longer than packed runs can say. What was learned stays after a refusal too.
    pub fn learn(
        &self,
        alloc: Global,
        packed: &mut PackedFunctions,
        edge: u32,
        dir: Dir,
    ) -> Result<bool, NoMemory>
        requires edge { edge < length self.now.graph.edges }
        requires known { ArePackedOf self.now.before packed.old }
        ensures known { IfNear result (IsKnownList packed.new (list_number edge dir)) }
        ensures learns { LearnsPacked self.now.before packed.old packed.new }
    {
        packed.learn(alloc, self.ways, edge, dir)
    }
}
