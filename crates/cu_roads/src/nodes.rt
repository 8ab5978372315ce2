//! The table of nodes: `node,x,y`.

ghost use Rattle.std.specs.Prelude.{◌≡◌, ◌<◌, ◌≤◌, IfErr, IfOk, Ok, OnOk, Some, None, false, length, map, if◌then◌else◌};
ghost use Rattle.csv.specs.Records.{fields_of};
ghost use Rattle.cu_model.specs.declared.limits.TheConstants.{MAX_NODES};
ghost use Rattle.cu_model.specs.Numbers.{number_value};
ghost use Rattle.cu_tables.specs.Checks.{Adds, Checked, IsRefused};
ghost use Rattle.cu_tables.specs.Tables.{field_of};
ghost use Rattle.cu_roads.specs.NetworkTexts.{is_coordinate, node_fault, node_header, place_of_row, places_of_text};
ghost use Rattle.cu_roads.specs.Steps.TableRows.{is_of_profiles, node_row_of};
ghost use Rattle.cu_roads.specs.declared.refusals.RoadRefusal.TheVariants as refusal;

use crate::places::{MAX_COORDINATE, Place};
use crate::refusals::{File, RoadRefusal};
use csv::ByteRecord;
use cu_model::{MAX_NODES, NoMemory};
use cu_tables::{TakesRows, each_row_below, number_at};
use std::alloc::Global;

/// The names of the three columns.
pub(crate) fn node_header() -> [&'static [u8]; 3]
    ensures { map (λ f. f.now) result ≡ node_header }
{
    [b"node".as_slice(), b"x".as_slice(), b"y".as_slice()]
}

/// The numbers of a row of the table.
#[derive(Clone, Copy)]
pub(crate) struct NodeRow {
    node: u32,
    place: Place,
}

fn node_row(row: &ByteRecord) -> Option<NodeRow>
    requires { 3 ≤ length (fields_of row.now) }
    ensures { result ≡ node_row_of (fields_of row.now) }
{
    let node = number_at(row, 0)?;
    let x = coordinate_at(row, 1)?;
    let y = coordinate_at(row, 2)?;
    Some(NodeRow {
        node,
        place: Place { x, y },
    })
}

/// The coordinate that a field names, none where it isn't a number of at most 1,000,000,000.
fn coordinate_at(row: &ByteRecord, index: usize) -> Option<u32>
    requires { index < length (fields_of row.now) }
    ensures { let word = field_of (fields_of row.now) index in
        result ≡ (if is_coordinate word then Some (number_value word) else None) }
{
    let value = number_at(row, index)?;
    if value <= MAX_COORDINATE {
        Some(value)
    } else {
        None
    }
}

// The place in the row with this number, or the first check that the row fails.
fn check_node(row: &ByteRecord, number: u32) -> Result<Place, RoadRefusal>
    requires { number ≤ MAX_NODES }
    ensures checked { Checked (node_fault number (fields_of row.now))
        (place_of_row (fields_of row.now)) result }
    ensures few { OnOk result (number < MAX_NODES) }
    ensures table { IfErr result (λ why. is_of_profiles why ≡ false) }
{
    let file = File::Nodes;
    if row.len() != 3 {
        return Err(RoadRefusal::Fields { file, row: number });
    }
    let Some(numbers) = node_row(row) else {
        return Err(RoadRefusal::Number { file, row: number });
    };
    if number == MAX_NODES {
        return Err(RoadRefusal::TooManyNodes { row: number });
    }
    if numbers.node != number {
        return Err(RoadRefusal::Sequence { file, row: number });
    }
    Ok(numbers.place)
}

// The places of the rows so far.
#[derive(Drop)]
struct NodeRows {
    places: Vec<Place>,
    ghost few: { length places.items ≤ MAX_NODES },
}

impl TakesRows for NodeRows {
    type Refusal = RoadRefusal;

    ghost takes = { λ s row t. Adds (node_fault (length s.places.items) row) (place_of_row row)
        s.places.items t.places.items };

    ghost refuses = { λ s row why t. (is_of_profiles why ≡ false)
        × (node_fault (length s.places.items) row ≡ Some why) × (t ≡ s) };

    fn take_row(
        &mut self,
        _alloc: Global,
        row: &ByteRecord,
    ) -> Result<Result<(), RoadRefusal>, NoMemory> {
        match check_node(row, self.places.len() as u32) {
            Ok(place) => {
                self.places.push(place)?;
                Ok(Ok(()))
            }
            Err(refusal) => Ok(Err(refusal)),
        }
    }
}

/// The places of the nodes, by node number.
pub(crate) fn read_places(alloc: Global, text: &[u8]) -> Result<Vec<Place>, RoadRefusal>
    ensures places { IfOk result (λ places. places_of_text text.now ≡ Ok places.items) }
    ensures few { IfOk result (λ places. length places.items ≤ MAX_NODES) }
    ensures refused { IfErr result (IsRefused refusal.NoMemory (places_of_text text.now)) }
    ensures table { IfErr result (λ why. is_of_profiles why ≡ false) }
{
    let no_header = RoadRefusal::Header { file: File::Nodes };
    let mut rows = NodeRows {
        places: Vec::new(alloc),
    };
    each_row_below(alloc, &node_header(), no_header, text, &mut rows)??;
    Ok(rows.places)
}
