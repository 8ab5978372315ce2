//! The table of roads: `arc,tail,head,profile`.

ghost use Rattle.std.specs.Prelude.{◌≡◌, ◌<◌, ◌≤◌, All, IfErr, IfOk, Ok, OnOk, Some, false, length, map};
ghost use Rattle.csv.specs.Records.{fields_of};
ghost use Rattle.cu_model.specs.declared.limits.TheConstants.{MAX_ARCS, MAX_NODES, MAX_PROFILES};
ghost use Rattle.cu_tables.specs.Checks.{Adds, Checked, IsRefused};
ghost use Rattle.cu_roads.specs.NetworkTexts.{arc_fault, arc_header, arc_of_row, arcs_of_text};
ghost use Rattle.cu_roads.specs.Steps.TableRows.{IsBetween, arc_row_of, is_of_profiles};
ghost use Rattle.cu_roads.specs.declared.refusals.RoadRefusal.TheVariants as refusal;

use crate::refusals::{File, RoadRefusal};
use csv::ByteRecord;
use cu_model::{MAX_ARCS, NoMemory, RoadArc};
use cu_tables::{TakesRows, each_row_below, number_at};
use std::alloc::Global;

/// The names of the four columns.
pub(crate) fn arc_header() -> [&'static [u8]; 4]
    ensures { map (λ f. f.now) result ≡ arc_header }
{
    [
        b"arc".as_slice(),
        b"tail".as_slice(),
        b"head".as_slice(),
        b"profile".as_slice(),
    ]
}

/// The numbers of a row of the table.
#[derive(Clone, Copy)]
pub(crate) struct ArcRow {
    number: u32,
    arc: RoadArc,
}

fn arc_row(row: &ByteRecord) -> Option<ArcRow>
    requires { 4 ≤ length (fields_of row.now) }
    ensures { result ≡ arc_row_of (fields_of row.now) }
{
    let number = number_at(row, 0)?;
    let tail = number_at(row, 1)?;
    let head = number_at(row, 2)?;
    let profile = number_at(row, 3)?;
    Some(ArcRow {
        number,
        arc: RoadArc {
            tail,
            head,
            profile,
        },
    })
}

// The road in the row with this number, or the first check that the row fails.
fn check_arc(
    row: &ByteRecord,
    number: u32,
    nodes: u32,
    profiles: u32,
) -> Result<RoadArc, RoadRefusal>
    requires number { number ≤ MAX_ARCS }
    requires nodes { nodes ≤ MAX_NODES }
    requires profiles { profiles ≤ MAX_PROFILES }
    ensures checked { Checked (arc_fault nodes profiles number (fields_of row.now))
        (arc_of_row (fields_of row.now)) result }
    ensures few { OnOk result (number < MAX_ARCS) }
    ensures range { IfOk result (IsBetween nodes profiles) }
    ensures table { IfErr result (λ why. is_of_profiles why ≡ false) }
{
    let file = File::Roads;
    if row.len() != 4 {
        return Err(RoadRefusal::Fields { file, row: number });
    }
    let Some(numbers) = arc_row(row) else {
        return Err(RoadRefusal::Number { file, row: number });
    };
    if number == MAX_ARCS {
        return Err(RoadRefusal::TooManyArcs { row: number });
    }
    if numbers.number != number {
        return Err(RoadRefusal::Sequence { file, row: number });
    }
    let arc = numbers.arc;
    if arc.tail >= nodes || arc.head >= nodes {
        return Err(RoadRefusal::NodeRange { row: number });
    }
    if arc.profile >= profiles {
        return Err(RoadRefusal::ProfileRange { row: number });
    }
    Ok(arc)
}

// The roads of the rows so far between so many nodes, by so many profiles.
#[derive(Drop)]
struct ArcRows {
    nodes: u32,
    profiles: u32,
    arcs: Vec<RoadArc>,
    ghost few_nodes: { nodes ≤ MAX_NODES },
    ghost few_profiles: { profiles ≤ MAX_PROFILES },
    ghost few_arcs: { length arcs.items ≤ MAX_ARCS },
    ghost in_range: { All (IsBetween nodes profiles) arcs.items },
}

impl TakesRows for ArcRows {
    type Refusal = RoadRefusal;

    ghost takes = { λ s row t. (t.nodes ≡ s.nodes) × (t.profiles ≡ s.profiles)
        × Adds (arc_fault s.nodes s.profiles (length s.arcs.items) row) (arc_of_row row)
        s.arcs.items t.arcs.items };

    ghost refuses = { λ s row why t. (is_of_profiles why ≡ false)
        × (arc_fault s.nodes s.profiles (length s.arcs.items) row ≡ Some why) × (t ≡ s) };

    fn take_row(
        &mut self,
        _alloc: Global,
        row: &ByteRecord,
    ) -> Result<Result<(), RoadRefusal>, NoMemory> {
        match check_arc(row, self.arcs.len() as u32, self.nodes, self.profiles) {
            Ok(arc) => {
                self.arcs.push(arc)?;
                Ok(Ok(()))
            }
            Err(refusal) => Ok(Err(refusal)),
        }
    }
}

/// The roads by number, where there are so many nodes and profiles.
pub(crate) fn read_arcs(
    alloc: Global,
    text: &[u8],
    nodes: u32,
    profiles: u32,
) -> Result<Vec<RoadArc>, RoadRefusal>
    requires nodes { nodes ≤ MAX_NODES }
    requires profiles { profiles ≤ MAX_PROFILES }
    ensures arcs { IfOk result (λ arcs. arcs_of_text nodes profiles text.now ≡ Ok arcs.items) }
    ensures few { IfOk result (λ arcs. length arcs.items ≤ MAX_ARCS) }
    ensures range { IfOk result (λ arcs. All (IsBetween nodes profiles) arcs.items) }
    ensures refused { IfErr result (IsRefused refusal.NoMemory
        (arcs_of_text nodes profiles text.now)) }
    ensures table { IfErr result (λ why. is_of_profiles why ≡ false) }
{
    let no_header = RoadRefusal::Header { file: File::Roads };
    let mut rows = ArcRows {
        nodes,
        profiles,
        arcs: Vec::new(alloc),
    };
    each_row_below(alloc, &arc_header(), no_header, text, &mut rows)??;
    Ok(rows.arcs)
}
