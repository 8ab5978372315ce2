//! The sections of a file, each number read where it lies.

ghost use Rattle.std.specs.Prelude.{◌≡◌, ◌≤◌, ◌<◌, ◌*◌, ◌-◌, Some, length, slice_range, suc};
ghost use Rattle.cu_model.specs.Profiles.{piece_at};
ghost use Rattle.cu_interval.specs.Hierarchies.{HierarchyValue};
ghost use Rattle.cu_pack.specs.Checks.{IsIn, sealed};
ghost use Rattle.cu_pack.specs.Layouts.{AreInLimits, file_length, layout_of};
ghost use Rattle.cu_pack.specs.Reading.{arc_in, bound_in, counts_in, edge_start, entry_from, entry_kind, entry_place, node_at_in};
ghost use Rattle.cu_pack.specs.Reading.{piece_from, piece_kind, piece_place, list_in, profile_in, profile_start, rank_of_in, upper_in, way_start};
ghost use Rattle.cu_pack.specs.Steps.Cursors.{IsBefore, IsReaching};
ghost use Rattle.cu_pack.specs.Steps.Fronts.{SpellsSections};
ghost use Rattle.cu_pack.specs.Steps.Parts.{FindsUpper, HasList, HasPart, HasProfile, IsLowOf, IsPartUpTo, StartsRise};

use crate::body::Body;
use crate::checks::header::header_counts;
use crate::layout::{Counts, Layout};
use crate::way_slices::WaySlice;
use cu_interval::Entry;
use cu_model::{Piece, RoadArc, Rule};
use std::marker::Model;

pub mod in_force;

/// The bytes of a file whose counts are within their limits and whose length is the one that they ask for. Contracts see
/// the bytes.
#[derive(Drop)]
pub struct Sections<'a> {
    body: Body<'a>,
    counts: Counts,
    layout: Layout,
}

impl<'a> Model for Sections<'a> {
    ghost use Rattle.std.specs.Prelude.{ℕ, List};
    ghost use Rattle.cu_pack.specs.Steps.Cuts.{IsCut};

    ghost Value = { List ℕ };

    ghost view = { λ sections. sections.body };

    ghost invariant = { λ sections. IsCut sections.body sections.counts sections.layout };
}

impl<'a> Sections<'a> {
    /// The sections of these bytes, whose header has these counts.
    pub fn of(body: Body<'a>, counts: Counts) -> Sections<'a>
        requires counts { counts ≡ counts_in body }
        requires limits { AreInLimits counts }
        requires size { file_length counts ≡ length body }
        ensures same { result ≡ body.entry }
    {
        let layout = Layout::of(&counts);
        Sections {
            body,
            counts,
            layout,
        }
    }

    /// The sections of bytes that are a hierarchy's file, whatever stands in the place of its bounds and of its digest.
    pub fn unsealed(bytes: &'a [u8]) -> Sections<'a>
        requires spelled { (h : HierarchyValue) × SpellsSections (sealed bytes.now) h }
        ensures same { result ≡ sealed bytes.now }
    {
        Sections::of(Body::of(bytes), header_counts(bytes))
    }

    /// How many of each there are.
    pub fn counts(&self) -> Counts
        ensures counts { result ≡ counts_in self.now }
        ensures limits { AreInLimits result }
        ensures size { file_length result ≡ length self.now }
    {
        self.counts
    }

    /// Where each section starts.
    pub fn layout(&self) -> Layout
        ensures layout { result ≡ layout_of (counts_in self.now) }
    {
        self.layout
    }

    /// The bytes from a place on, up to another.
    pub fn between(&self, start: u64, end: u64) -> &'a [u8]
        requires order { start ≤ end }
        requires room { end ≤ length self.now - 32 }
        ensures part { result.now ≡ slice_range self.now start end }
    {
        self.body.between(start, end)
    }

    /// The node at a rank.
    pub fn node_at(&self, rank: u32) -> u32
        requires rank { rank < (counts_in self.now).nodes }
        ensures node { result ≡ node_at_in self.now rank }
    {
        self.body
            .short(self.layout.node_at as usize + 4 * rank as usize)
    }

    /// The rank of a node.
    pub fn rank_of(&self, node: u32) -> u32
        requires node { node < (counts_in self.now).nodes }
        ensures rank { result ≡ rank_of_in self.now node }
    {
        self.body
            .short(self.layout.rank_of as usize + 4 * node as usize)
    }

    /// The road with this number.
    pub fn arc(&self, arc: u32) -> RoadArc
        requires arc { arc < (counts_in self.now).arcs }
        ensures road { result ≡ arc_in self.now arc }
    {
        let at = self.layout.arcs as usize + 12 * arc as usize;
        RoadArc {
            tail: self.body.short(at),
            head: self.body.short(at + 4),
            profile: self.body.short(at + 8),
        }
    }

    /// How many pieces are before a profile; at the number of profiles, how many there are in all.
    pub fn profile_start(&self, profile: u32) -> u64
        requires profile { profile ≤ (counts_in self.now).profiles }
        ensures start { result ≡ profile_start self.now profile }
    {
        self.body
            .long(self.layout.profile_starts as usize + 8 * profile as usize)
    }

    /// The kind of a piece, counted over all profiles.
    pub fn piece_kind(&self, piece: u64) -> u32
        requires piece { piece < (counts_in self.now).pieces }
        ensures kind { result ≡ piece_kind self.now piece }
    {
        self.body
            .short(self.layout.pieces as usize + 12 * piece as usize + 4)
    }

    /// A piece, counted over all profiles.
    pub fn piece(&self, piece: u64) -> Piece
        requires piece { piece < (counts_in self.now).pieces }
        ensures piece { result ≡ piece_from self.now (piece_place self.now piece) }
    {
        let at = self.layout.pieces as usize + 12 * piece as usize;
        let value = self.body.short(at + 8);
        let rule = match self.body.short(at + 4) {
            0 => Rule::Travel(value),
            1 => Rule::Until(value),
            _ => Rule::Closed(value),
        };
        Piece {
            from: self.body.short(at),
            rule,
        }
    }

    /// How many edges are before a rank; at the number of ranks, how many there are in all.
    pub fn edge_start(&self, rank: u32) -> u32
        requires rank { rank ≤ (counts_in self.now).nodes }
        ensures start { result ≡ edge_start self.now rank }
    {
        self.body
            .short(self.layout.edge_starts as usize + 4 * rank as usize)
    }

    /// The higher rank of an edge.
    pub fn upper(&self, edge: u32) -> u32
        requires edge { edge < (counts_in self.now).edges }
        ensures rank { result ≡ upper_in self.now edge }
    {
        self.body
            .short(self.layout.uppers as usize + 4 * edge as usize)
    }

    /// How many entries are before a way list; at the number of lists, how many there are in all.
    pub fn way_start(&self, list: u32) -> u64
        requires list { list ≤ 2 * (counts_in self.now).edges }
        ensures start { result ≡ way_start self.now list }
    {
        self.body
            .long(self.layout.way_starts as usize + 8 * list as usize)
    }

    /// The kind of an entry, counted over all way lists.
    pub fn entry_kind(&self, entry: u64) -> u32
        requires entry { entry < (counts_in self.now).entries }
        ensures kind { result ≡ entry_kind self.now entry }
    {
        self.body
            .short(self.layout.entries as usize + 12 * entry as usize + 4)
    }

    /// The least bound that a file of version 2 keeps of a way list.
    pub fn bound(&self, list: u32) -> u64
        requires version { IsIn 2 self.now }
        requires list { list < 2 * (counts_in self.now).edges }
        ensures bound { result ≡ bound_in self.now list }
    {
        self.body
            .long(self.layout.bounds as usize + 8 * list as usize)
    }

    /// An entry, counted over all way lists.
    pub fn entry(&self, entry: u64) -> Entry
        requires entry { entry < (counts_in self.now).entries }
        ensures entry { result ≡ entry_from self.now (entry_place self.now entry) }
    {
        self.body
            .entry(self.layout.entries as usize + 12 * entry as usize)
    }

    /// The last piece of a profile that has begun by this second of the day.
    pub fn piece_begun(&self, profile: u32, second: u32) -> Piece
        requires profile { HasProfile self.now profile }
        ensures piece { piece_at (profile_in self.now profile) second ≡ Some result }
    {
        let pieces = self.layout.pieces as usize;
        let start = self.profile_start(profile);
        let count = (self.profile_start(profile + 1) - start) as usize;
        let begun = self
            .body
            .count_up_to(pieces + 12 * start as usize, 12, count, second);
        self.piece(start + begun as u64 - 1)
    }

    /// The lower rank of an edge: the last that has no more edges before it.
    pub fn low_of(&self, edge: u32) -> u32
        requires starts { StartsRise self.now }
        requires edge { edge < (counts_in self.now).edges }
        ensures low { IsLowOf self.now edge result }
    {
        let starts = self.layout.edge_starts as usize;
        self.body
            .count_up_to(starts, 4, self.counts.nodes as usize, edge) as u32
            - 1
    }

    /// The edge from a rank to a higher one.
    pub fn edge_between(&self, low: u32, high: u32) -> Option<u32>
        requires low { HasPart self.now low }
        ensures edge { FindsUpper self.now low high result }
    {
        let number = self.edges_up_to(low, high);
        if number == 0 {
            return None;
        }
        let edge = self.edge_start(low) + number - 1;
        if self.upper(edge) != high {
            return None;
        }
        Some(edge)
    }

    // Where the edges of a rank end.
    fn edge_end(&self, low: u32) -> u32
        requires low { low < (counts_in self.now).nodes }
        ensures end { result ≡ edge_start self.now (suc low) }
    {
        let first = self.layout.edge_starts as usize;
        self.body.short(first + 4 * (low as usize + 1))
    }

    /// The edge from a rank to a higher one, sought from a place on before which the rank's edges lead lower.
    pub fn edge_behind(&self, low: u32, place: u32, high: u32) -> Option<u32>
        requires low { HasPart self.now low }
        requires place { IsBefore self.now low high place }
        ensures edge { FindsUpper self.now low high result }
    {
        let edge = self.edge_reaching(low, place, high);
        if edge == self.edge_end(low) || self.upper(edge) != high {
            return None;
        }
        Some(edge)
    }

    /// The first of a rank's edges that leads to this higher rank or beyond, or where they end; sought from a place on
    /// before which the rank's edges lead lower. Fast where it is this place.
    pub fn edge_reaching(&self, low: u32, place: u32, high: u32) -> u32
        requires low { HasPart self.now low }
        requires place { IsBefore self.now low high place }
        ensures edge { IsReaching self.now low high result }
    {
        let end = self.edge_end(low);
        if place == end || self.upper(place) >= high {
            return place;
        }
        self.edge_reaching_until(low, place + 1, end, high)
    }

    // The same, by bisection up to where the rank's edges end.
    fn edge_reaching_until(&self, low: u32, place: u32, end: u32, high: u32) -> u32
        requires low { HasPart self.now low }
        requires place { IsBefore self.now low high place }
        requires end { end ≡ edge_start self.now (suc low) }
        ensures edge { IsReaching self.now low high result }
    {
        let mut first = place;
        let mut last = end;
        while first < last {
            let middle = first + (last - first) / 2;
            if self.upper(middle) < high {
                first = middle + 1;
            } else {
                last = middle;
            }
        }
        first
    }

    // How many of a rank's edges lead to this higher rank or to a lower one.
    fn edges_up_to(&self, low: u32, high: u32) -> u32
        requires low { HasPart self.now low }
        ensures count { IsPartUpTo self.now low high result }
    {
        let uppers = self.layout.uppers as usize;
        let start = self.edge_start(low);
        let count = (self.edge_start(low + 1) - start) as usize;
        self.body
            .count_up_to(uppers + 4 * start as usize, 4, count, high) as u32
    }

    /// The way list with this number.
    pub fn way_list(&self, list: u32) -> WaySlice<'a>
        requires list { HasList self.now list }
        ensures entries { result ≡ list_in self.now list }
    {
        let entries = self.layout.entries as usize;
        let start = self.way_start(list);
        let count = self.way_start(list + 1) - start;
        WaySlice::of(&self.body, entries + 12 * start as usize, count as u32)
    }
}
