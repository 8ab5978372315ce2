//! Room for relaxations that remember.

ghost use Rattle.std.specs.Prelude.{◌≡◌, ◌≤◌, ◌*◌, IfOk, length, vec_capacity};
ghost use Rattle.cu_chordal.specs.declared.graph.TheConstants.{MAX_EDGES};
ghost use Rattle.cu_interval.specs.Hierarchies.{HierarchyValue};
ghost use Rattle.cu_recall.specs.Downs.{KnowsDowns};
ghost use Rattle.cu_recall.specs.Rooms.{rows_of};
ghost use Rattle.cu_recall.specs.Spans.{Knows};

use crate::downs::DownSpan;
use crate::pending::{Asked, Half, Pending, Seen};
use crate::spans::{Row, THIRDS};
use crate::walking::Glance;
use cu_chordal::MAX_EDGES;
use cu_model::NoMemory;
use std::alloc::Global;
use std::marker::Model;

/// Rows for the lists of a hierarchy, what is kept of the lists downwards, and places for the lists in work while one is
/// unpacked or its walk is written. Of the lists downwards there are three tables behind one another, each by the number of the
/// edge: one for the passes that leave in each third of the day. There is room for all of them from the start, but rows are
/// written when the first query comes, and the tables when the first pass goes down over many ranks, so that opening a file
/// costs none. Contracts see for how many nodes it was made, the rows, of which those that aren't written say nothing, and what
/// is kept of the lists downwards.
#[derive(Drop)]
pub struct Room {
    pub(crate) lists: usize,
    pub(crate) rows: Vec<Row>,
    pub(crate) downs: Vec<DownSpan>,
    pub(crate) pending: Vec<Pending>,
    pub(crate) waiting: Vec<Glance>,
}

impl Model for Room {
    ghost use Rattle.std.specs.Prelude.{◌≡◌, ◌≤◌, ◌*◌, length, vec_capacity};
    ghost use Rattle.cu_recall.specs.Rooms.{RoomValue, rows_of};

    ghost Value = { RoomValue };

    ghost view = { λ room. record {
      nodes = length room.pending.items;
      rows = rows_of room.lists room.rows.items;
      downs = room.downs.items;
    } };

    ghost invariant = { λ room. (length room.rows.items ≤ room.lists)
        × (room.lists ≤ vec_capacity room.rows)
        × (3 * room.lists ≤ 2 * vec_capacity room.downs)
        × (length room.waiting.items ≡ length room.pending.items) };
}

impl Room {
    /// Room for so many nodes and edges, at most [`MAX_EDGES`]. Nothing is known, so it fits every hierarchy with as many.
    pub fn new(alloc: Global, nodes: u32, edges: u32) -> Result<Room, NoMemory>
        requires edges { edges ≤ MAX_EDGES }
        ensures nodes { IfOk result (λ room. room.nodes ≡ nodes) }
        ensures lists { IfOk result (λ room. length room.rows ≡ 2 * edges) }
        ensures knows { IfOk result (λ room. (h : HierarchyValue) → Knows h room.rows) }
        ensures downs { IfOk result (λ room. (h : HierarchyValue) → KnowsDowns h room.downs) }
    {
        let nothing = Pending {
            asked: Asked { list: 0, second: 0 },
            back: 0,
            ahead: 0,
            half: Half::First {
                rest: 0,
                seen: Seen::NOTHING,
            },
        };
        let lists = 2 * edges as usize;
        Ok(Room {
            lists,
            rows: Vec::with_capacity(alloc, lists)?,
            downs: Vec::with_capacity(alloc, THIRDS as usize * edges as usize)?,
            pending: vec![in alloc; nothing; nodes as usize]?,
            waiting: vec![in alloc; Glance::NOTHING; nodes as usize]?,
        })
    }

    /// The rows that were written: those of the first lists, or none. Takes no memory.
    pub fn rows(&self) -> &[Row]
        ensures knows { (h : HierarchyValue) → Knows h self.now.rows → Knows h result.now }
    {
        &self.rows
    }

    /// Forgets all that is known, as must be done when the hierarchy was edited or is another. Takes no memory.
    pub fn forget(&mut self)
        ensures nodes { self.new.nodes ≡ self.old.nodes }
        ensures lists { length self.new.rows ≡ length self.old.rows }
        ensures knows { (h : HierarchyValue) → Knows h self.new.rows }
        ensures downs { (h : HierarchyValue) → KnowsDowns h self.new.downs }
    {
        self.rows.clear();
        self.downs.clear();
    }
}

/// Writes the rows of so many lists that aren't there yet, for which there is room.
#[inline(always)]
pub(crate) fn make_rows(rows: &mut Vec<Row>, lists: usize)
    requires most { length rows.old.items ≤ lists }
    requires room { lists ≤ vec_capacity rows.old }
    ensures rows { rows.new.items ≡ rows_of lists rows.old.items }
    ensures room { lists ≤ vec_capacity rows.new }
{
    if rows.len() < lists {
        write_rows(rows, lists);
    }
}

// The same, once for many queries.
#[cold]
#[inline(never)]
fn write_rows(rows: &mut Vec<Row>, lists: usize)
    requires most { length rows.old.items ≤ lists }
    requires room { lists ≤ vec_capacity rows.old }
    ensures rows { rows.new.items ≡ rows_of lists rows.old.items }
    ensures room { lists ≤ vec_capacity rows.new }
{
    match rows.resize(lists, Row::NOTHING) {
        Ok(()) => {}
        Err(_) => unreachable!(),
    }
}
