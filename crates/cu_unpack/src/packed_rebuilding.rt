//! Functions of shortcuts over the day as packed runs, rebuilt from their ways or put in.

ghost use Rattle.std.specs.Prelude.{◌≡◌, ◌<◌, ◌+◌, ◌*◌, ◌≤◌, ◌↔◌, All, IfOk, IfSome, IsTrue, None, OnErr, OnOk, Some, false, length, take, true};
ghost use Rattle.cu_chordal.specs.declared.graph.TheConstants.{MAX_EDGES};
ghost use Rattle.cu_interval.specs.Hierarchies.{IsHierarchy, list_number};
ghost use Rattle.cu_interval.specs.Shortcuts.{ways_of};
ghost use Rattle.cu_unpack.specs.RebuiltRuns.{AreSpared, IsFarList, IsFarWay, IsKnownList, IsNeeded, IsRebuiltRuns, IsSized, KeepsPacked, Learns, NeedsFarList, with_list};
ghost use Rattle.cu_unpack.specs.Steps.Rebuilding.{FindsMissing, HasHalves, HasWays, IsWayOf};
ghost use Rattle.cu_unpack.specs.Steps.PackedRebuilding.{AddsWay, HoldsLeast, IsKnown, LearnsIf};

use crate::missing::{Known, missing_half};
use crate::packed_table::PackedTable;
use crate::room::Room;
use crate::shortcuts::{is_among, take_next};
use cu_chordal::MAX_EDGES;
use cu_interval::{Dir, Shortcut, Way, Ways, halves};
use cu_model::NoMemory;
use cu_runs::{DayFunction, PlacedFunctions, Windows};
use std::alloc::Global;
use std::marker::Model;

// How many higher neighbours are many: from a lower end with fewer a function is compared too seldom to be bounded. More than a
// build's, since what edits leave as it is is asked for by few lists.
const MANY: u32 = 12;

// How many runs for each edge functions have before any is forgotten.
const RUNS_AN_EDGE: usize = 18;

/// Functions of lists as packed runs, by list number: rebuilt from their ways, or put in. Contracts see which lists are
/// known, and their functions.
#[derive(Drop)]
pub struct PackedFunctions {
    table: PackedTable,
    room: Room,
    windows: Windows,
    // The lists that were asked for since some were last forgotten, by number.
    asked: Vec<bool>,
    // How many runs the functions may have before some are forgotten.
    most_runs: usize,
}

impl Model for PackedFunctions {
    ghost use Rattle.cu_unpack.specs.RebuiltRuns.{PackedValue};

    ghost Value = { PackedValue };

    ghost view = { λ packed. packed.table };
}

impl PackedFunctions {
    /// Room for the functions of so many edges, at most [`MAX_EDGES`], in both directions. None is known. Those that
    /// are asked for, and may be halves of many candidates, are bounded in these windows of the day, so that settling by
    /// them compares less.
    pub fn new(alloc: Global, edges: u32, windows: Windows) -> Result<PackedFunctions, NoMemory>
        requires edges { edges ≤ MAX_EDGES }
        ensures size { IfOk result (λ packed. IsSized edges packed) }
        ensures unknown { IfOk result (λ packed. All (λ known. known ≡ false) packed.known) }
        ensures none { IfOk result (λ packed. All (λ function. function ≡ None) packed.functions) }
    {
        Ok(PackedFunctions {
            table: PackedTable::new(alloc, edges)?,
            room: Room::new(alloc)?,
            windows,
            asked: vec![in alloc; false; 2 * edges as usize]?,
            most_runs: RUNS_AN_EDGE * edges as usize,
        })
    }

    /// The functions, by list number: none where a list is empty or isn't known.
    pub fn functions(&self) -> PlacedFunctions<'_>
        ensures { result ≡ self.now.functions }
    {
        self.table.functions()
    }

    /// Whether the list of an edge in a direction is known. The edge's number is in range.
    pub fn knows(&self, edge: u32, dir: Dir) -> bool
        requires { list_number edge dir < length self.now.known }
        ensures { IsTrue result ↔ IsKnownList self.now (list_number edge dir) }
    {
        self.table.is_known(Shortcut { edge, dir })
    }

    /// The list of an edge in a direction is known from then on, with this function, and is one that was asked for. The edge's number
    /// is in range. Where memory runs out nothing changes.
    pub fn put(
        &mut self,
        edge: u32,
        dir: Dir,
        function: Option<DayFunction>,
    ) -> Result<(), NoMemory>
        requires known { list_number edge dir < length self.old.known }
        requires functions { list_number edge dir < length self.old.functions }
        ensures put { OnOk result (self.new ≡ with_list self.old (list_number edge dir) function) }
        ensures same { OnErr result (self.new ≡ self.old) }
    {
        let shortcut = Shortcut { edge, dir };
        self.table.put(shortcut, function)?;
        note(&mut self.asked, shortcut);
        Ok(())
    }

    /// Forgets the lists that weren't asked for since this last forgot some, where the functions take much room. Each time they may
    /// take a quarter more, so that the time it costs to learn lists again has a bound. Takes no memory.
    pub fn spare(&mut self)
        requires { length self.old.known ≡ length self.old.functions }
        ensures { AreSpared self.old self.new }
    {
        if self.table.runs() <= self.most_runs {
            return;
        }
        forget_unasked(&mut self.table, &self.asked);
        self.asked.fill(false);
        self.most_runs = self.most_runs.saturating_add(self.most_runs / 4);
    }

    /// Forgets both lists of an edge. Takes no memory.
    pub fn forget(&mut self, edge: u32)
        requires edge { 2 * edge + 1 < length self.old.known }
        requires same { length self.old.known ≡ length self.old.functions }
        ensures { AreSpared self.old self.new }
    {
        let up = Shortcut { edge, dir: Dir::Up }.list();
        self.table.forget(up);
        self.table.forget(up + 1);
    }

    /// Learns the list of an edge in a direction over these ways, and those that it needs: the least of its ways at
    /// each second of the day, as in this hierarchy. False only where the halves of a way that it needs take so long
    /// that, with a day more, packed runs can't say it. What was known is taken as it is, and stays, after a refusal
    /// too; so does what the edge doesn't need. Refused only for want of memory.
    pub fn learn<W: Ways>(
        &mut self,
        alloc: Global,
        ways: &W,
        edge: u32,
        dir: Dir,
    ) -> Result<bool, NoMemory>
        requires edge { edge < length (W.hierarchy ways.now).edges }
        requires size { IsSized (length (W.hierarchy ways.now).edges) self.old }
        requires keeps { KeepsPacked (W.hierarchy ways.now)
            (IsNeeded (W.hierarchy ways.now).edges edge) self.old }
        ensures known { IfOk result
            (λ is_near. is_near ≡ true → IsKnownList self.new (list_number edge dir)) }
        ensures far { IfOk result
            (λ is_near. is_near ≡ false → NeedsFarList (W.hierarchy ways.now) edge self.new) }
        ensures size { IsSized (length (W.hierarchy ways.now).edges) self.new }
        ensures learns { Learns (W.hierarchy ways.now) edge self.old self.new }
    {
        let shortcut = Shortcut { edge, dir };
        if self.table.is_known(shortcut) && is_noted(&self.asked, shortcut.list()) {
            return Ok(true);
        }
        if !learn_asked(alloc, ways, &mut self.table, &mut self.room, shortcut)? {
            return Ok(false);
        }
        if is_below_many(ways, edge) {
            self.table.find_bounds(alloc, shortcut, self.windows)?;
        }
        note(&mut self.asked, shortcut);
        Ok(true)
    }
}

// Forgets the lists that weren't asked for.
fn forget_unasked(table: &mut PackedTable, asked: &[bool])
    requires { length table.old.known ≡ length table.old.functions }
    ensures { AreSpared table.old table.new }
{
    for number in 0..table.lists() {
        if !is_noted(asked, number) {
            table.forget(number);
        }
    }
}

// Is the list with a number noted?
fn is_noted(notes: &[bool], number: usize) -> bool {
    number < notes.len() && notes[number]
}

// Notes a list, if there is room for it.
fn note(notes: &mut [bool], shortcut: Shortcut) {
    let place = shortcut.list();
    if place < notes.len() {
        notes[place] = true;
    }
}

// Has the lower end of an edge many higher neighbours, so that its lists may be halves of many candidates? The edges with
// one lower end follow each other.
fn is_below_many<W: Ways>(ways: &W, edge: u32) -> bool
    requires edge { edge < length (W.hierarchy ways.now).edges }
{
    let low = ways.ends(edge).low;
    'firsts: for back in 0..MANY {
        let first = edge.saturating_sub(back);
        let last = first.saturating_add(MANY - 1);
        if is_of_low(ways, first, low) && is_of_low(ways, last, low) {
            return true;
        }
    }
    false
}

// Has an edge this lower end? One that isn't there hasn't.
fn is_of_low<W: Ways>(ways: &W, edge: u32, low: u32) -> bool {
    edge < ways.edges() && ways.ends(edge).low == low
}

// Learns the list of a shortcut, unless it is known, and those that it needs. False where a way takes longer than
// packed runs can say.
fn learn_asked<W: Ways>(
    alloc: Global,
    ways: &W,
    table: &mut PackedTable,
    room: &mut Room,
    shortcut: Shortcut,
) -> Result<bool, NoMemory>
    requires edge { shortcut.edge < length (W.hierarchy ways.now).edges }
    requires size { IsSized (length (W.hierarchy ways.now).edges) table.old }
    requires keeps { KeepsPacked (W.hierarchy ways.now)
        (IsNeeded (W.hierarchy ways.now).edges shortcut.edge) table.old }
    ensures known { IfOk result (λ is_near. is_near ≡ true → IsKnown table.new shortcut) }
    ensures far { IfOk result (λ is_near. is_near ≡ false →
        NeedsFarList (W.hierarchy ways.now) shortcut.edge table.new) }
    ensures size { IsSized (length (W.hierarchy ways.now).edges) table.new }
    ensures learns { Learns (W.hierarchy ways.now) shortcut.edge table.old table.new }
{
    if table.is_known(shortcut) {
        return Ok(true);
    }
    if ways.entries(shortcut.edge, shortcut.dir) == 0 {
        table.put(shortcut, None)?;
        return Ok(true);
    }
    learn_all(alloc, ways, table, room, shortcut)
}

// Learns the list of a shortcut with a way, and those that it needs. False where a way takes longer than packed runs
// can say. The shortcuts that wait for a half stand in a list, each of a higher edge than the next, so that no call
// goes deeper however many levels of middles there are.
fn learn_all<W: Ways>(
    alloc: Global,
    ways: &W,
    table: &mut PackedTable,
    room: &mut Room,
    shortcut: Shortcut,
) -> Result<bool, NoMemory>
    requires ways { HasWays (W.hierarchy ways.now) shortcut }
    requires size { IsSized (length (W.hierarchy ways.now).edges) table.old }
    requires keeps { KeepsPacked (W.hierarchy ways.now)
        (IsNeeded (W.hierarchy ways.now).edges shortcut.edge) table.old }
    ensures known { IfOk result (λ is_near. is_near ≡ true → IsKnown table.new shortcut) }
    ensures far { IfOk result (λ is_near. is_near ≡ false →
        NeedsFarList (W.hierarchy ways.now) shortcut.edge table.new) }
    ensures size { IsSized (length (W.hierarchy ways.now).edges) table.new }
    ensures learns { Learns (W.hierarchy ways.now) shortcut.edge table.old table.new }
{
    let mut waiting = Vec::new(alloc);
    'shortcuts: while !table.is_known(shortcut) {
        let next = take_next(&mut waiting, shortcut);
        match missing_half(ways, table, next) {
            Some(half) => {
                waiting.push(next)?;
                waiting.push(half)?;
            }
            None => {
                if !learn_list(alloc, ways, table, room, next)? {
                    return Ok(false);
                }
            }
        }
    }
    Ok(true)
}

// Learns the list of a shortcut with a way, whose halves are known. False where a way takes longer than packed runs can
// say.
fn learn_list<W: Ways>(
    alloc: Global,
    ways: &W,
    table: &mut PackedTable,
    room: &mut Room,
    shortcut: Shortcut,
) -> Result<bool, NoMemory>
    requires ways { HasWays (W.hierarchy ways.now) shortcut }
    requires size { IsSized (length (W.hierarchy ways.now).edges) table.old }
    requires keeps { KeepsPacked (W.hierarchy ways.now)
        (IsNeeded (W.hierarchy ways.now).edges shortcut.edge) table.old }
    requires halves { FindsMissing (W.hierarchy ways.now) (IsKnown table.old) shortcut
        (ways_of (W.hierarchy ways.now) shortcut) None }
    ensures learned { IfOk result
        (LearnsIf (W.hierarchy ways.now) shortcut table.old table.new) }
    ensures same { OnErr result (table.new ≡ table.old) }
{
    let Some(function) = least_function(alloc, ways, table, room, shortcut)? else {
        return Ok(false);
    };
    table.put(shortcut, Some(function))?;
    Ok(true)
}

// The least function of a shortcut's ways, whose halves are known. None where a way takes longer than packed runs can
// say.
fn least_function<W: Ways>(
    alloc: Global,
    ways: &W,
    table: &PackedTable,
    room: &mut Room,
    shortcut: Shortcut,
) -> Result<Option<DayFunction>, NoMemory>
    requires ways { HasWays (W.hierarchy ways.now) shortcut }
    requires size { IsSized (length (W.hierarchy ways.now).edges) table.now }
    requires keeps { KeepsPacked (W.hierarchy ways.now)
        (IsNeeded (W.hierarchy ways.now).edges shortcut.edge) table.now }
    requires halves { FindsMissing (W.hierarchy ways.now) (IsKnown table.now) shortcut
        (ways_of (W.hierarchy ways.now) shortcut) None }
    ensures rebuilt { IfOk result (λ found. IfSome found (λ function.
        IsRebuiltRuns (W.hierarchy ways.now) shortcut.edge shortcut.dir (Some function))) }
    ensures far { IfOk result (λ found. found ≡ None →
        IsFarList (W.hierarchy ways.now) table.now shortcut.edge shortcut.dir) }
{
    room.clear();
    for index in 0..ways.entries(shortcut.edge, shortcut.dir) {
        if !add_entry(ways, table, room, shortcut, index)? {
            return Ok(None);
        }
    }
    let function = room.least(alloc)?;
    Ok(Some(function))
}

// Adds a way of a list to those before it, unless it is one of them, as in a list that turns back to a way. False where
// it takes longer than packed runs can say.
fn add_entry<W: Ways>(
    ways: &W,
    table: &PackedTable,
    room: &mut Room,
    shortcut: Shortcut,
    index: u32,
) -> Result<bool, NoMemory>
    requires edge { shortcut.edge < length (W.hierarchy ways.now).edges }
    requires size { IsSized (length (W.hierarchy ways.now).edges) table.now }
    requires keeps { KeepsPacked (W.hierarchy ways.now)
        (IsNeeded (W.hierarchy ways.now).edges shortcut.edge) table.now }
    requires halves { FindsMissing (W.hierarchy ways.now) (IsKnown table.now) shortcut
        (ways_of (W.hierarchy ways.now) shortcut) None }
    requires index { index < length (ways_of (W.hierarchy ways.now) shortcut) }
    requires held { HoldsLeast (W.hierarchy ways.now) shortcut
        (take index (ways_of (W.hierarchy ways.now) shortcut)) room.old }
    ensures held { IfOk result
        (λ is_near. is_near ≡ true → HoldsLeast (W.hierarchy ways.now) shortcut
        (take (index + 1) (ways_of (W.hierarchy ways.now) shortcut)) room.new) }
    ensures far { IfOk result (λ is_near. is_near ≡ false →
        IsFarList (W.hierarchy ways.now) table.now shortcut.edge shortcut.dir) }
{
    let entry = ways.entry(shortcut.edge, shortcut.dir, index);
    if is_among(ways, shortcut, index, entry.way) {
        return Ok(true);
    }
    let is_near = add_way(ways, table, room, shortcut, entry.way)?;
    Ok(is_near)
}

// Adds a way of a shortcut, whose halves are known. False where it takes longer than packed runs can say.
fn add_way<W: Ways>(
    ways: &W,
    table: &PackedTable,
    room: &mut Room,
    shortcut: Shortcut,
    way: Way,
) -> Result<bool, NoMemory>
    requires sound { IsHierarchy (W.hierarchy ways.now) }
    requires way { IsWayOf (W.hierarchy ways.now) shortcut way }
    requires size { IsSized (length (W.hierarchy ways.now).edges) table.now }
    requires keeps { KeepsPacked (W.hierarchy ways.now)
        (IsNeeded (W.hierarchy ways.now).edges shortcut.edge) table.now }
    requires halves { HasHalves (W.hierarchy ways.now) (IsKnown table.now) shortcut way }
    ensures adds { IfOk result (λ is_near. is_near ≡ true →
        AddsWay (W.hierarchy ways.now) shortcut way room.old room.new) }
    ensures far { IfOk result (λ is_near. is_near ≡ false →
        IsFarWay (W.hierarchy ways.now) table.now shortcut.edge shortcut.dir way) }
{
    match way {
        Way::Road(road) => {
            room.add_road(ways, road)?;
            Ok(true)
        }
        Way::Via(middle) => {
            let (first, second) = halves(ways, shortcut, middle);
            let is_near = room.add_both(table.function(first), table.function(second))?;
            Ok(is_near)
        }
    }
}
