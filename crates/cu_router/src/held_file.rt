//! The packed bytes of a hierarchy, and what is kept of it beside them.

ghost use Rattle.std.specs.Prelude.{◌≡◌, ◌≤◌, ◌<◌, ◌∷◌, ◌++◌, [], All, IfOk, IsTrue, OnErr, length, true};
ghost use Rattle.std.specs.List.Sorted.{IsStrictlyIncreasing};
ghost use Rattle.cu_model.specs.Edits.{IsEditInRange};
ghost use Rattle.cu_model.specs.Networks.{IsNetwork};
ghost use Rattle.cu_edits.specs.EditLists.{CountsTouched, FitsList};
ghost use Rattle.cu_edits.specs.Settling.{numbers_of};
ghost use Rattle.cu_edits.specs.Together.{FitEdits, edits_of};
ghost use Rattle.cu_elimtree.specs.SweepArcs.{parents_in};
ghost use Rattle.cu_interval.specs.declared.ways.TouchedEdge.{TouchedEdge};
ghost use Rattle.cu_interval.specs.Hierarchies.{HierarchyValue, IsBuilt, IsHierarchy, graph_of};
ghost use Rattle.cu_bounds.specs.Near.{AreNear};
ghost use Rattle.cu_pack.specs.Checks.{Spells, sealed};
ghost use Rattle.cu_pack.specs.Reading.{decoded};
ghost use Rattle.cu_resettled.specs.ResettlingAll.{NumbersTouchedBySome, edited_all, hierarchy_with_all};
ghost use Rattle.cu_router.specs.Changes.{IsChange, KnowsCustomized};
ghost use Rattle.cu_router.specs.Steps.Holding.{IsKnown, IsKnownBut, StaysLed, TellsShort};
ghost use Rattle.cu_short.specs.Shortness.{NeverLong};

use crate::edit_room::add_held;
use cu_bounds::NearBounds;
use cu_chordal::Chordal;
use cu_edits::{CustomizedEdges, EditList, EditedRoads, Edits};
use cu_elimtree::Tree;
use cu_interval::{TouchedEdge, Ways};
use cu_model::{Edit, NoMemory};
use cu_pack::{PackedView, chordal_of, repack_touched, seal};
use cu_short::RoadCounts;
use std::alloc::Global;
use std::marker::Model;

/// The packed bytes of a hierarchy, built or not, with its graph, its tree, the least bounds of its lists in eight bytes an edge,
/// and which of its edges are known to be customized. Contracts see the hierarchy.
#[derive(Drop)]
pub struct HeldFile {
    // The packed file, but that its last 32 bytes need not be its digest: an edit writes none.
    bytes: Vec<u8>,
    has_digest: bool,
    graph: Chordal,
    tree: Tree,
    bounds: NearBounds,
    customized: CustomizedEdges,
    known: Known,
}

// What is known of a hierarchy's walks: that it is built, that none is too long, by the most roads of each list, or nothing.
#[derive(Drop)]
pub(crate) enum Known {
    Built,
    Short(RoadCounts),
    Nothing,
}

impl Model for HeldFile {
    ghost use Rattle.cu_bounds.specs.Near.{AreNear};
    ghost use Rattle.cu_interval.specs.Hierarchies.{HierarchyValue};
    ghost use Rattle.cu_pack.specs.Checks.{sealed};
    ghost use Rattle.cu_pack.specs.Reading.{decoded};
    ghost use Rattle.cu_router.specs.Steps.Holding.{HoldsFile, IsKnown};

    ghost Value = { HierarchyValue };

    ghost view = { λ file. decoded (sealed file.bytes.items) };

    ghost invariant = { λ file. HoldsFile (decoded (sealed file.bytes.items)) file.bytes.items
        file.has_digest file.graph file.tree file.customized
        × IsKnown (decoded (sealed file.bytes.items)) file.known
        × AreNear (decoded (sealed file.bytes.items)) file.bounds };
}

impl HeldFile {
    /// Holds the packed file of a hierarchy, after asking it whether any of its walks may be too long. Where none is, it keeps the
    /// most roads of each list, by which an edit tells the same of the hierarchy behind it: eight bytes an edge.
    pub fn new(alloc: Global, bytes: Vec<u8>) -> Result<HeldFile, NoMemory>
        requires spelled { (h : HierarchyValue) × Spells bytes.items h }
        ensures held { IfOk result (λ file. Spells bytes.items file) }
    {
        let edges = PackedView::adopt(&bytes).edges();
        let customized = CustomizedEdges::none(alloc, edges)?;
        let known = known_of(alloc, &bytes)?;
        HeldFile::knowing(alloc, bytes, customized, known)
    }

    /// Holds the packed file of a built hierarchy: all its edges are known to be customized, and no walk is too long.
    pub fn built(alloc: Global, bytes: Vec<u8>) -> Result<HeldFile, NoMemory>
        requires spelled { (h : HierarchyValue) × Spells bytes.items h }
        requires built { (h : HierarchyValue) → Spells bytes.items h → IsBuilt h }
        ensures held { IfOk result (λ file. Spells bytes.items file) }
    {
        let edges = PackedView::adopt(&bytes).edges();
        let customized = CustomizedEdges::all(alloc, edges)?;
        HeldFile::knowing(alloc, bytes, customized, Known::Built)
    }

    /// [`HeldFile::new`], which asks nothing of walks, so that no query is led to its end.
    pub fn unasked(alloc: Global, bytes: Vec<u8>) -> Result<HeldFile, NoMemory>
        requires spelled { (h : HierarchyValue) × Spells bytes.items h }
        ensures held { IfOk result (λ file. Spells bytes.items file) }
    {
        let edges = PackedView::adopt(&bytes).edges();
        let customized = CustomizedEdges::none(alloc, edges)?;
        HeldFile::knowing(alloc, bytes, customized, Known::Nothing)
    }

    // Holds the packed file of a hierarchy, where these of its edges are known to be customized, and so much of its walks.
    fn knowing(
        alloc: Global,
        bytes: Vec<u8>,
        customized: CustomizedEdges,
        known: Known,
    ) -> Result<HeldFile, NoMemory>
        requires spelled { (h : HierarchyValue) × Spells bytes.items h }
        requires known { (h : HierarchyValue) → Spells bytes.items h
            → KnowsCustomized h customized }
        requires walks { (h : HierarchyValue) → Spells bytes.items h → IsKnown h known }
        ensures held { IfOk result (λ file. Spells bytes.items file) }
    {
        let (graph, tree, bounds) = beside(alloc, &PackedView::adopt(&bytes))?;
        Ok(HeldFile {
            bytes,
            has_digest: true,
            graph,
            tree,
            bounds,
            customized,
            known,
        })
    }

    /// The hierarchy over its bytes. Takes no memory.
    pub fn view(&self) -> PackedView<'_>
        ensures same { result ≡ self.now }
        ensures sound { IsHierarchy self.now }
    {
        adopt(&self.bytes)
    }

    /// How many bytes it has. Takes no memory.
    pub fn size(&self) -> usize {
        self.bytes.len()
    }

    /// The graph of its edges. Takes no memory.
    pub fn graph(&self) -> &Chordal
        ensures { result.now ≡ graph_of self.now }
    {
        &self.graph
    }

    /// The elimination tree of its graph. Takes no memory.
    pub fn tree(&self) -> &Tree
        ensures { result.now ≡ parents_in (graph_of self.now) }
    {
        &self.tree
    }

    /// The least bounds of its lists. Takes no memory.
    pub fn bounds(&self) -> &NearBounds
        ensures { AreNear self.now result.now }
    {
        &self.bounds
    }

    /// Which of its edges are known to be customized. Takes no memory.
    pub fn customized(&self) -> &CustomizedEdges
        ensures { KnowsCustomized self.now result.now }
    {
        &self.customized
    }

    /// Whether it is known that no walk is too long, so that queries may be led to their end. Takes no memory.
    pub fn is_led(&self) -> bool
        ensures { IsTrue result → NeverLong self.now }
    {
        match self.known {
            Known::Built => true,
            Known::Short(_) => true,
            Known::Nothing => false,
        }
    }

    /// The packed bytes, but for their digest, of the hierarchy after edits that together resettle the lists of these edges. Nothing
    /// is changed over to them yet.
    pub fn repacked(
        &self,
        alloc: Global,
        edits: Edits<'_>,
        lists: &[TouchedEdge],
    ) -> Result<Vec<u8>, NoMemory>
        requires edits { FitEdits self.now.network edits }
        requires touched { NumbersTouchedBySome self.now (edits_of edits) (numbers_of lists.now) }
        requires sound { IsHierarchy (hierarchy_with_all self.now (edits_of edits) lists.now) }
        ensures spelled { IfOk result (λ bytes. Spells (sealed bytes.items)
            (hierarchy_with_all self.now (edits_of edits.entry) lists.now)) }
    {
        let view = self.view();
        let roads = EditedRoads::of(&view, edits);
        repack_touched(alloc, &view, &roads, lists)
    }

    /// Holds the hierarchy after edits, which together resettled the lists of these edges, by its packed bytes but for their digest. Where
    /// it was known that no walk is too long, this is asked again of the lists of these edges alone; once one has too many roads it
    /// is known no more. Takes no memory.
    pub fn change_over(&mut self, bytes: Vec<u8>, lists: &[TouchedEdge])
        requires change { IsChange self.old bytes.items lists.now }
        ensures changed { (h : HierarchyValue) → Spells (sealed bytes.items) h → self.new ≡ h }
    {
        self.known.renew(&adopt(&bytes), lists);
        self.bounds.renew(&adopt(&bytes));
        self.bytes = bytes;
        self.has_digest = false;
        self.customized.mark(lists);
    }

    /// A list of edits that are to be made together, with none in it yet.
    pub fn begin_edits(&self, alloc: Global) -> Result<EditList, NoMemory>
        ensures none { IfOk result (λ edits. edits.edits ≡ []) }
        ensures fits { IfOk result (FitsList self.now) }
    {
        EditList::new(alloc, &self.view())
    }

    /// Adds an edit to a list of edits, behind the others, and answers how many edges it touches over the network as they leave it.
    /// Its numbers are in range. Nothing changes of what is held; where memory runs out the list is as before.
    pub fn add_edit(&self, alloc: Global, edits: &mut EditList, edit: Edit) -> Result<u32, NoMemory>
        requires edits { FitsList self.now edits.old }
        requires range { IsEditInRange (edited_all self.now.network edits.old.edits) edit }
        ensures fits { FitsList self.now edits.new }
        ensures made { IfOk result (λ count. edits.new.edits ≡ edits.old.edits ++ edit ∷ []) }
        ensures count { IfOk result
            (CountsTouched self.now (edited_all self.now.network edits.old.edits) edit) }
        ensures sound { IfOk result
            (λ count. IsNetwork (edited_all self.now.network edits.new.edits)) }
        ensures kept { OnErr result (edits.new ≡ edits.old) }
    {
        add_held(alloc, self, edits, edit)
    }

    /// The packed file of the hierarchy as it is now. Takes no memory.
    pub fn into_file(self) -> Vec<u8>
        ensures spelled { Spells result.items self }
    {
        let has_digest = self.has_digest;
        with_digest(self.bytes, has_digest)
    }
}

impl Known {
    // Turns what is known to the hierarchy after an edit, which resettled the lists of these edges: a built hierarchy is built
    // again, and the most roads of these lists are counted anew.
    fn renew(&mut self, ways: &PackedView<'_>, lists: &[TouchedEdge])
        requires rising { IsStrictlyIncreasing (numbers_of lists.now) }
        requires edges { All
            (λ (touched : TouchedEdge). touched.edge < length ways.now.edges) lists.now }
        requires known { IsKnownBut ways.now self.old (numbers_of lists.now) }
        ensures known { IsKnown ways.now self.new }
        ensures led { StaysLed ways.now self.old self.new }
    {
        let Known::Short(roads) = self else {
            return;
        };
        if !roads.renew(ways, lists) {
            *self = Known::Nothing;
        }
    }
}

// The packed file that these bytes are, but for its digest where they have none.
fn with_digest(bytes: Vec<u8>, has_digest: bool) -> Vec<u8>
    requires long { 32 ≤ length bytes.items }
    requires digest { has_digest ≡ true → sealed bytes.items ≡ bytes.items }
    ensures sealed { result.items ≡ sealed bytes.items }
{
    if has_digest {
        return bytes;
    }
    let mut bytes = bytes;
    seal(bytes.as_mut_slice());
    bytes
}

// The graph of a hierarchy, its elimination tree, and the least bounds of its lists.
fn beside(alloc: Global, view: &PackedView<'_>) -> Result<(Chordal, Tree, NearBounds), NoMemory>
    ensures graph { IfOk result (λ made. made.0 ≡ graph_of view.now) }
    ensures tree { IfOk result (λ made. made.1 ≡ parents_in (graph_of view.now)) }
    ensures bounds { IfOk result (λ made. AreNear view.now made.2) }
{
    let graph = chordal_of(alloc, view)?;
    let tree = Tree::of(alloc, &graph)?;
    let bounds = NearBounds::of(alloc, view)?;
    Ok((graph, tree, bounds))
}

// What is known of the walks of the hierarchy that these bytes are the packed file of, once it is asked.
fn known_of(alloc: Global, bytes: &[u8]) -> Result<Known, NoMemory>
    requires spelled { (h : HierarchyValue) × Spells bytes.now h }
    ensures known { IfOk result
        (λ known. (h : HierarchyValue) → Spells bytes.now h → IsKnown h known) }
    ensures short { IfOk result
        (λ known. (h : HierarchyValue) → Spells bytes.now h → TellsShort h known) }
{
    let view = PackedView::adopt(bytes);
    let mut finder = view.halves_in_turn(alloc)?;
    let Some(roads) = RoadCounts::of(alloc, &view, &mut finder)? else {
        return Ok(Known::Nothing);
    };
    Ok(Known::Short(roads))
}

// The view of bytes that are a packed file but for its digest: no two hierarchies have the same.
fn adopt(bytes: &[u8]) -> PackedView<'_>
    requires spelled { Spells (sealed bytes.now) (decoded (sealed bytes.now)) }
    ensures same { result ≡ decoded (sealed bytes.now) }
{
    PackedView::adopt_unsealed(bytes)
}
