//! A packed file opened: its thirteen checks, in their order.

ghost use Rattle.std.specs.Prelude.{◌≡◌, ◌*◌, IfErr, IfOk, OnOk};
ghost use Rattle.cu_pack.specs.Checks.{HasRoads, HasWays, IsGraph, IsRefused, IsRefusedIn, IsSized, IsWrongBound, NoneWrong, Spells};
ghost use Rattle.cu_pack.specs.Places.{short_at};
ghost use Rattle.cu_pack.specs.Reading.{counts_in};
ghost use Rattle.cu_pack.specs.Spelling.{IsVersion};
ghost use Rattle.cu_pack.specs.Steps.Fronts.{PassesIn};

use crate::checks::bounds::wrong_bound;
use crate::checks::graph::wrong_part;
use crate::checks::header::check_header;
use crate::checks::order::wrong_rank;
use crate::checks::profiles::wrong_profile;
use crate::checks::roads::wrong_arc;
use crate::checks::ways::wrong_list;
use crate::cutting::Sections;
use crate::refusals::PackRefusal;
use crate::view::PackedView;
use cu_interval::Shortcut;
use cu_progress::{Progress, Silent, Stage};
use std::alloc::Global;

// In how many steps a file is checked, as they are told.
const STEPS: u64 = 4;

impl<'a> PackedView<'a> {
    /// The hierarchy whose packed file these bytes are. They are borrowed, and none is copied.
    ///
    /// Refused by the first check that fails, in the order of [`PackRefusal`]; want of memory may come in place of any
    /// answer.
    pub fn open(alloc: Global, bytes: &'a [u8]) -> Result<PackedView<'a>, PackRefusal>
        ensures spells { IfOk result (λ view. Spells bytes.now view) }
        ensures refused { IfErr result (λ refusal. IsRefused bytes.now refusal) }
    {
        PackedView::open_telling(alloc, bytes, &mut Silent)
    }

    /// [`PackedView::open`], which tells that the digest passes, and then the graph, and then the ways.
    pub fn open_telling<P: Progress>(
        alloc: Global,
        bytes: &'a [u8],
        progress: &mut P,
    ) -> Result<PackedView<'a>, PackRefusal>
        ensures spells { IfOk result (λ view. Spells bytes.now view) }
        ensures refused { IfErr result (λ refusal. IsRefused bytes.now refusal) }
    {
        let sections = check_file(alloc, bytes, 2, progress)?;
        check_bounds(alloc, &sections)?;
        Ok(PackedView::of(sections))
    }
}

/// The sections of a file of this version whose header, roads, graph and ways pass; or the first of these checks that
/// fails.
pub fn check_file<'a, P: Progress>(
    alloc: Global,
    bytes: &'a [u8],
    version: u32,
    progress: &mut P,
) -> Result<Sections<'a>, PackRefusal>
    requires version { IsVersion version }
    ensures ok { IfOk result
        (λ sections. PassesIn version bytes.now × (sections ≡ bytes.now)) }
    ensures err { IfErr result (IsRefusedIn version bytes.now) }
{
    progress.tell(Stage::Opening, 0, STEPS);
    let sections = check_header(bytes, version)?;
    progress.tell(Stage::Opening, 1, STEPS);
    check_roads(&sections)?;
    check_graph(alloc, &sections)?;
    progress.tell(Stage::Opening, 2, STEPS);
    check_ways(alloc, &sections)?;
    progress.tell(Stage::Opening, 3, STEPS);
    Ok(sections)
}

// The order, the roads and the profiles pass; or the first of these checks that fails.
fn check_roads(sections: &Sections<'_>) -> Result<(), PackRefusal>
    requires sized { IsSized sections.now }
    ensures ok { OnOk result (HasRoads sections.now) }
    ensures err { IfErr result (IsRefusedIn (short_at sections.now 8) sections.now) }
{
    if let Some(rank) = wrong_rank(sections) {
        return Err(PackRefusal::Order { rank });
    }
    if let Some(arc) = wrong_arc(sections) {
        return Err(PackRefusal::RoadArc { arc });
    }
    if let Some(number) = wrong_profile(sections) {
        return Err(PackRefusal::Profile { number });
    }
    Ok(())
}

// The graph passes; or the first rank whose edges don't.
fn check_graph(alloc: Global, sections: &Sections<'_>) -> Result<(), PackRefusal>
    requires roads { HasRoads sections.now }
    ensures ok { OnOk result (IsGraph sections.now) }
    ensures err { IfErr result (IsRefusedIn (short_at sections.now 8) sections.now) }
{
    let Ok(found) = wrong_part(alloc, sections) else {
        return Err(PackRefusal::NoMemory);
    };
    if let Some(rank) = found {
        return Err(PackRefusal::Graph { rank });
    }
    Ok(())
}

// The way lists pass; or the first that doesn't.
fn check_ways(alloc: Global, sections: &Sections<'_>) -> Result<(), PackRefusal>
    requires graph { IsGraph sections.now }
    ensures ok { OnOk result (HasWays sections.now) }
    ensures err { IfErr result (IsRefusedIn (short_at sections.now 8) sections.now) }
{
    let Ok(found) = wrong_list(alloc, sections) else {
        return Err(PackRefusal::NoMemory);
    };
    if let Some((edge, dir)) = found {
        return Err(PackRefusal::Ways { edge, dir });
    }
    Ok(())
}

// The least bounds of a file of version 2 pass; or the first list of which another number is kept.
fn check_bounds(alloc: Global, sections: &Sections<'_>) -> Result<(), PackRefusal>
    requires passes { PassesIn 2 sections.now }
    ensures ok { OnOk result
        (NoneWrong (IsWrongBound sections.now) (2 * (counts_in sections.now).edges)) }
    ensures err { IfErr result (IsRefused sections.now) }
{
    let Ok(found) = wrong_bound(alloc, sections) else {
        return Err(PackRefusal::NoMemory);
    };
    if let Some(Shortcut { edge, dir }) = found {
        return Err(PackRefusal::Bound { edge, dir });
    }
    Ok(())
}
