//! Writing the places of nodes and the roads as table texts.

ghost use Rattle.std.specs.Prelude.{◌≡◌, IfOk, OnOk};
ghost use Rattle.csv.proofs.RoundTrip.{rows_text};
ghost use Rattle.cu_tables.specs.WrittenTexts.{AddsRow, MayFollow};
ghost use Rattle.cu_roads.specs.Written.{written_arc, arc_table, written_place, node_table};

use crate::arcs::arc_header;
use crate::nodes::node_header;
use crate::places::Place;
use cu_model::{NoMemory, RoadArc};
use cu_tables::RowWriter;
use itoa::Buffer;
use std::alloc::Global;

/// Writes the places of nodes, numbered from 0, as a table text: the header and one row for each node, `NODE,X,Y`, in plain
/// decimals, each ended by LF.
pub(crate) fn write_places(alloc: Global, places: &[Place]) -> Result<Vec<u8>, NoMemory>
    ensures { IfOk result (λ text. text.items ≡ rows_text (node_table places.now)) }
{
    let mut writer = RowWriter::new(alloc);
    writer.write_row(&node_header())?;
    for (number, place) in places.iter().enumerate() {
        write_place(&mut writer, number, *place)?;
    }
    writer.finish()
}

fn write_place(writer: &mut RowWriter, number: usize, place: Place) -> Result<(), NoMemory>
    requires { MayFollow writer.old 3 }
    ensures { OnOk result (AddsRow writer.old writer.new (written_place number place)) }
{
    let mut node = Buffer::new();
    let mut x = Buffer::new();
    let mut y = Buffer::new();
    writer.write_row(&[
        node.format(number).as_bytes(),
        x.format(place.x).as_bytes(),
        y.format(place.y).as_bytes(),
    ])
}

/// Writes roads, numbered from 0, as a table text: the header and one row for each road, `ARC,TAIL,HEAD,PROFILE`, in plain
/// decimals, each ended by LF.
pub(crate) fn write_roads(alloc: Global, roads: &[RoadArc]) -> Result<Vec<u8>, NoMemory>
    ensures { IfOk result (λ text. text.items ≡ rows_text (arc_table roads.now)) }
{
    let mut writer = RowWriter::new(alloc);
    writer.write_row(&arc_header())?;
    for (number, road) in roads.iter().enumerate() {
        write_road(&mut writer, number, *road)?;
    }
    writer.finish()
}

fn write_road(writer: &mut RowWriter, number: usize, road: RoadArc) -> Result<(), NoMemory>
    requires { MayFollow writer.old 4 }
    ensures { OnOk result (AddsRow writer.old writer.new (written_arc number road)) }
{
    let mut arc = Buffer::new();
    let mut tail = Buffer::new();
    let mut head = Buffer::new();
    let mut profile = Buffer::new();
    writer.write_row(&[
        arc.format(number).as_bytes(),
        tail.format(road.tail).as_bytes(),
        head.format(road.head).as_bytes(),
        profile.format(road.profile).as_bytes(),
    ])
}
