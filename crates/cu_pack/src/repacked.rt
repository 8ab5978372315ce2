//! The packed file that edits leave, of which no byte is made before it is written.

ghost use Rattle.std.specs.Prelude.{◌≡◌, ◌<◌, All, OnOk, length, map};
ghost use Rattle.std.specs.List.Sorted.{IsStrictlyIncreasing};
ghost use Rattle.cu_interval.specs.declared.ways.TouchedEdge.{TouchedEdge};
ghost use Rattle.cu_interval.specs.Hierarchies.{IsHierarchy};
ghost use Rattle.cu_bounds.specs.KeptBounds.{bounds_of};
ghost use Rattle.cu_pack.specs.Repacking.{with_roads};
ghost use Rattle.cu_pack.specs.Layouts.{file_length};
ghost use Rattle.cu_pack.specs.Spelling.{body, counts_of, spelling};

use crate::bounding::put_bounds;
use crate::layout::{Counts, Layout};
use crate::repacking::{put_edited, recount};
use crate::sealed_writer::{BLOCK, SealedWriter, finish};
use crate::sections::put_header;
use crate::targets::Target;
use crate::view::PackedView;
use cu_interval::TouchedEdge;
use cu_io::Content;
use cu_model::Roads;
use sha2::{Digest, Sha256};
use std::alloc::Global;
use std::io;
use std::io::Write;
use std::marker::Model;

/// The packed file of a view's hierarchy with other roads, and with both way lists of some edges replaced, as edits leave it. It is
/// read from the view's file as it is written. Contracts see the hierarchy.
#[derive(Drop)]
pub struct Repacked<'a, 'b, R: Roads> {
    view: &'a PackedView<'b>,
    roads: &'a R,
    lists: &'a [TouchedEdge],
    counts: Counts,
    bounds: &'a [u64],
}

impl<'a, 'b, R: Roads> Model for Repacked<'a, 'b, R> {
    ghost use Rattle.cu_interval.specs.Hierarchies.{HierarchyValue};
    ghost use Rattle.cu_pack.specs.Repacking.{with_roads};
    ghost use Rattle.cu_pack.specs.Steps.Replacing.{FitsFile};

    ghost Value = { HierarchyValue };

    ghost view = { λ file. with_roads file.view.now (R.network file.roads.now) file.lists.now };

    ghost invariant = { λ file. FitsFile file.view.now (R.network file.roads.now) file.lists.now
        file.counts file.bounds.now };
}

impl<'a, 'b, R: Roads> Repacked<'a, 'b, R> {
    /// The file with these roads, and with the lists of these edges, which rise and are below the number of edges; what is left is
    /// a hierarchy, and these are its least bounds, by the number of their list. Takes no memory.
    pub fn of(
        view: &'a PackedView<'b>,
        roads: &'a R,
        lists: &'a [TouchedEdge],
        bounds: &'a [u64],
    ) -> Repacked<'a, 'b, R>
        requires nodes { (R.network roads.now).nodes ≡ view.now.network.nodes }
        requires rising { IsStrictlyIncreasing
            (map (λ (touched : TouchedEdge). touched.edge) lists.now) }
        requires edges { All
            (λ (touched : TouchedEdge). touched.edge < length view.now.edges) lists.now }
        requires sound { IsHierarchy (with_roads view.now (R.network roads.now) lists.now) }
        requires bounds { bounds.now
            ≡ bounds_of (with_roads view.now (R.network roads.now) lists.now) }
        ensures { result ≡ with_roads view.now (R.network roads.now) lists.now }
    {
        let counts = recount(view, roads, lists);
        Repacked {
            view,
            roads,
            lists,
            counts,
            bounds,
        }
    }

    /// How many bytes the file has. Takes no memory.
    pub fn length(&self) -> u64
        ensures counted { result ≡ file_length (counts_of 2 self.now) }
        ensures long { result ≡ length (spelling self.now) }
    {
        Layout::of(&self.counts).length
    }

    // Puts all bytes before the digest.
    fn put_body<T: Target>(&self, bytes: &mut T) -> Result<(), T::Failed>
        ensures { OnOk result (T.grows bytes.old bytes.new (body 2 self.now)) }
    {
        put_header(bytes, &self.counts, self.length())?;
        put_edited(bytes, self.view, self.roads, self.lists)?;
        put_bounds(bytes, self.bounds)
    }
}

impl<'a, 'b, R: Roads> Content for Repacked<'a, 'b, R> {
    ghost bytes = { spelling };

    fn put_in<W: Write>(&self, alloc: Global, writer: &mut W) -> io::Result<()> {
        let mut sealed = SealedWriter {
            writer,
            digest: Sha256::new(),
            block: Vec::with_capacity(alloc, 2 * BLOCK)?,
        };
        self.put_body(&mut sealed)?;
        let SealedWriter {
            writer,
            digest,
            block,
        } = sealed;
        finish(writer, digest, block)
    }
}
