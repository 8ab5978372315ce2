//! The halves of a file's shortcuts, found by places that follow the shortcuts' lower ranks.

ghost use Rattle.std.specs.Prelude.{◌≡◌, IfOk, Some, slice_get};
ghost use Rattle.cu_chordal.specs.Graphs.{HasEdge};
ghost use Rattle.cu_interval.specs.Shortcuts.{AreHalves, IsMiddle};
ghost use Rattle.cu_pack.specs.Checks.{IsGraph};
ghost use Rattle.cu_pack.specs.Halves.{finder_at};
ghost use Rattle.cu_pack.specs.Reading.{decoded, edge_start};
ghost use Rattle.cu_pack.specs.Steps.Cursors.{AreCursors};

use crate::cutting::Sections;
use cu_bounds::Halving;
use cu_chordal::Ends;
use cu_interval::{Dir, Shortcut, leg_of};
use cu_model::NoMemory;
use std::alloc::Global;
use std::marker::Model;

/// Finds the halves of a file's shortcuts by rising edge. The edges come by rising lower rank, and for each rank a place
/// among its edges follows this rank: so the half to it costs no search, and the other a search behind the first. Contracts
/// see the bytes and the lower rank that it has come to.
#[derive(Drop)]
pub struct HalvesInFile<'a, 'b> {
    sections: &'a Sections<'b>,
    low: u32,
    places: Vec<u32>,
}

impl<'a, 'b> Model for HalvesInFile<'a, 'b> {
    ghost use Rattle.cu_pack.specs.Halves.{FinderValue, finder_at};
    ghost use Rattle.cu_pack.specs.Steps.Cursors.{IsFinder};

    ghost Value = { FinderValue };

    ghost view = { λ finder. finder_at finder.sections.now finder.low };

    ghost invariant = { λ finder. IsFinder finder.sections.now finder.low finder.places.items };
}

impl<'a, 'b> HalvesInFile<'a, 'b> {
    /// A finder that has come to no rank but the first. Takes 4 bytes for each node.
    pub(crate) fn of(
        alloc: Global,
        sections: &'a Sections<'b>,
    ) -> Result<HalvesInFile<'a, 'b>, NoMemory>
        requires graph { IsGraph sections.now }
        ensures begins { IfOk result (λ finder. finder ≡ finder_at sections.now 0) }
    {
        let places = sections.edge_starts(alloc)?;
        Ok(HalvesInFile {
            sections,
            low: 0,
            places,
        })
    }
}

impl<'a, 'b> Halving for HalvesInFile<'a, 'b> {
    ghost hierarchy = { λ finder. decoded finder.bytes };

    ghost reached = { λ finder. edge_start finder.bytes finder.low };

    fn halves(&mut self, shortcut: Shortcut, middle: u32) -> (Shortcut, Shortcut) {
        let sections = self.sections;
        let low = sections.low_from(self.low, shortcut.edge);
        let high = sections.upper(shortcut.edge);
        self.low = low;
        halves_by(
            sections,
            &mut self.places,
            shortcut,
            Ends { low, high },
            middle,
        )
    }
}

// The halves of a shortcut between these ends at a middle, by places that follow the lower of them.
fn halves_by(
    sections: &Sections<'_>,
    places: &mut [u32],
    shortcut: Shortcut,
    ends: Ends,
    middle: u32,
) -> (Shortcut, Shortcut)
    requires graph { IsGraph sections.now }
    requires places { AreCursors sections.now ends.low places.old }
    requires ends { slice_get (decoded sections.now).edges shortcut.edge ≡ Some ends }
    requires middle { IsMiddle (decoded sections.now) shortcut.edge shortcut.dir middle }
    ensures halves { AreHalves (decoded sections.now) shortcut middle result.0 result.1 }
    ensures places { AreCursors sections.now ends.low places.new }
{
    sections.move_on(places, middle, ends.low);
    let leg = leg_of(ends, shortcut.dir);
    let first = Shortcut {
        edge: edge_to(sections, places, middle, leg.from),
        dir: Dir::Down,
    };
    let second = Shortcut {
        edge: edge_to(sections, places, middle, leg.to),
        dir: Dir::Up,
    };
    (first, second)
}

// The edge between two ranks, which there is.
fn edge_to(sections: &Sections<'_>, places: &[u32], low: u32, high: u32) -> u32
    requires graph { IsGraph sections.now }
    requires places { AreCursors sections.now high places.now }
    requires there { HasEdge (decoded sections.now).edges low high }
    ensures edge { slice_get (decoded sections.now).edges result
        ≡ Some (record { low = low; high = high }) }
{
    let Some(edge) = sections.edge_by(places, low, high) else {
        unreachable!()
    };
    edge
}
