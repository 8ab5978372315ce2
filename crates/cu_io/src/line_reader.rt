//! Lines of a source, as they come.
ghost use Rattle.std.specs.Prelude.{◌≡◌, ℕ, ◌+◌, ◌<◌, ◌≤◌, ◌==◌, [], ◌++◌, List, true, false, length, take, drop, is_some, IfOk, OnOk, OnErr, position, vec_len, vec_capacity, if◌then◌else◌};
ghost use Rattle.std.specs.Borrow.{sem};
ghost use Rattle.std.specs.Io.BufRead.{Rests};
ghost use Rattle.cu_io.specs.Counts.{Rose};
ghost use Rattle.cu_io.specs.Lines.{HasNoFeed, without_return};
ghost use Rattle.cu_io.specs.LineReading.{NextLine, Reads, is_last};
ghost use Rattle.cu_io.specs.Steps.LineSteps.{IsFeed, Steps, TakesMore, GivesChunk, holding_more};
ghost use Rattle.cu_io.specs.declared.line_reader.Found.TheVariants as found;
ghost use Rattle.cu_io.specs.contracts.line_reader.LineReader.{the_row};

use crate::source::{Source, SourceFailed};
use cu_model::NoMemory;
use std::alloc::Global;
use std::marker::Model;

/// What a line reader hands out.
#[derive(Drop)]
pub enum Line<'a> {
    /// A line, without its line feed and without one carriage return at its end.
    Text(&'a [u8]),
    /// A line with more bytes than the limit, which was passed over.
    Long,
    /// The end of input.
    End,
    /// The source failed.
    Fault,
    /// As many bytes as may be taken were taken before a read showed the end of input.
    Spent,
}

/// What a call of a line reader finds, as `Line`. The text of a line is kept by the reader.
#[derive(Clone, Copy)]
pub enum Found {
    Text,
    Long,
    End,
    Fault,
    Spent,
}

// What a step that may read gave.
#[derive(Clone, Copy)]
pub(crate) enum More {
    Bytes,
    End,
    Fault,
    Spent,
}

/// The most bytes that a reader's limit of a line may allow.
pub const MAX_LINE: u32 = 4_194_304;

// How many bytes are asked for in one read.
const CHUNK: usize = 8192;

/// Cuts what a source gives into lines: a line feed ends a line, and what follows the last one is a line only where it
/// isn't empty.
#[derive(Drop)]
pub struct LineReader {
    bytes: Vec<u8>,
    line_start: usize,
    line_end: usize,
    start: usize,
    taken: u64,
    shown: bool,
    over: bool,
    line_limit: usize,
    take_limit: u64,
}

impl Model for LineReader {
    ghost use Rattle.std.specs.Prelude.{◌≡◌, ◌+◌, ◌-◌, ◌≤◌, take, drop, vec_len, vec_capacity};
    ghost use Rattle.cu_io.specs.LineReading.{ReaderState};

    ghost Value = { ReaderState };

    ghost view = { λ r. record {
      held = drop r.start r.bytes.items;
      line = take (r.line_end - r.line_start) (drop r.line_start r.bytes.items);
      taken = r.taken;
      shown = r.shown;
      over = r.over;
      line_limit = r.line_limit;
      take_limit = r.take_limit;
    } };

    ghost invariant = { λ r. (r.line_start ≤ r.line_end) × (r.line_end ≤ r.start)
        × (r.start ≤ vec_len r.bytes) × (vec_len r.bytes ≤ r.line_limit + 1)
        × (r.line_limit + 1 ≤ vec_capacity r.bytes) × (r.taken ≤ r.take_limit) };
}

impl LineReader {
    /// A reader of lines with up to `line_limit` bytes, which takes up to `take_limit` bytes from its source. It reserves
    /// `line_limit + 1` bytes, which is all the memory that it takes.
    pub fn open(alloc: Global, line_limit: u32, take_limit: u64) -> Result<LineReader, NoMemory>
        requires { line_limit ≤ MAX_LINE }
        ensures { IfOk result (λ reader. reader ≡ record {
          held = [];
          line = [];
          taken = 0;
          shown = false;
          over = false;
          line_limit = line_limit;
          take_limit = take_limit;
        }) }
    {
        let line_limit = line_limit as usize;
        Ok(LineReader {
            bytes: Vec::with_capacity(alloc, line_limit + 1)?,
            line_start: 0,
            line_end: 0,
            start: 0,
            taken: 0,
            shown: false,
            over: false,
            line_limit,
            take_limit,
        })
    }

    /// The next line of the bytes held and those that the source gives: its text, or that it is too long and was passed
    /// over. Takes no memory. No call may follow one that answered `End`, `Fault` or `Spent`.
    ///
    /// What is handed out depends on the bytes alone, and not on how many of them a read gives. At `Fault` and `Spent`
    /// the bytes taken and not handed out have no line feed. `Fault` comes where the source's count rose, and only there:
    /// with any other answer it stays. Once a read showed the end of input, no more is made.
    pub fn next_line<S: Source>(&mut self, source: &mut S) -> Line<'_>
        requires { self.old.over ≡ false }
        ensures* after_borrow { sem 𝓛 (Rests the_row self.entry (λ after.
            NextLine self.old after (S.state source.old) (S.state source.new) result)) }
    {
        match self.advance(source) {
            Found::Text => Line::Text(trim_return(self.line())),
            Found::Long => Line::Long,
            Found::End => Line::End,
            Found::Fault => Line::Fault,
            Found::Spent => Line::Spent,
        }
    }

    // Finds the next line, and keeps its text.
    fn advance<S: Source>(&mut self, source: &mut S) -> Found
        requires { self.old.over ≡ false }
        ensures reads { Reads self.old self.new (S.state source.old) (S.state source.new) result }
        ensures room { length self.new.held ≤ self.new.line_limit + 1 }
    {
        let found = self.find_line(source);
        self.over = is_last(found);
        found
    }

    fn find_line<S: Source>(&mut self, source: &mut S) -> Found
        ensures { Steps self.old self.new (S.state source.old) (S.state source.new) result }
    {
        let _ = &self.bytes;
        let mut searched = 0;
        loop {
            if let Some(at) = self.feed_from(searched) {
                self.hand_out(at, 1);
                return Found::Text;
            }
            searched = self.held().len();
            if searched > self.line_limit {
                return self.pass_over(source);
            }
            match self.take_more(source) {
                More::Bytes => {}
                More::End => return self.hand_out_rest(),
                More::Fault => return Found::Fault,
                More::Spent => return Found::Spent,
            }
        }
    }

    // Passes over a line that is longer than the limit, of which no end has come.
    fn pass_over<S: Source>(&mut self, source: &mut S) -> Found
        requires long { self.old.line_limit < length self.old.held }
        requires open { HasNoFeed self.old.held }
        ensures { Steps self.old self.new (S.state source.old) (S.state source.new) result }
    {
        let _ = &self.bytes;
        loop {
            self.drop_held();
            match self.take_more(source) {
                More::Bytes => {}
                More::End => return Found::Long,
                More::Fault => return Found::Fault,
                More::Spent => return Found::Spent,
            }
            if let Some(at) = self.feed_from(0) {
                self.hand_out(at, 1);
                return Found::Long;
            }
        }
    }

    // Takes more bytes, unless the end was shown or no more may be taken.
    fn take_more<S: Source>(&mut self, source: &mut S) -> More
        requires room { length self.old.held ≤ self.old.line_limit }
        ensures { TakesMore self.old self.new (S.state source.old) (S.state source.new) result }
    {
        if self.shown {
            return More::End;
        }
        if self.taken == self.take_limit {
            return More::Spent;
        }
        match self.read(source) {
            Ok(0) => {
                self.shown = true;
                More::End
            }
            Ok(_) => More::Bytes,
            Err(_) => More::Fault,
        }
    }

    // Reads once.
    fn read<S: Source>(&mut self, source: &mut S) -> Result<usize, SourceFailed>
        requires room { length self.old.held ≤ self.old.line_limit }
        requires below { self.old.taken < self.old.take_limit }
        ensures ok { IfOk result (λ count. (chunk : List ℕ) × (length chunk ≡ count)
            × (self.new ≡ holding_more self.old chunk)
            × (count + self.old.taken ≤ self.old.take_limit)
            × GivesChunk (S.state source.old).left (S.state source.new).left chunk) }
        ensures tells { is_some (S.state source.new).left ≡ is_some (S.state source.old).left }
        ensures err { OnErr result ((self.new ≡ self.old)
            × ((S.state source.new).left ≡ (S.state source.old).left)) }
        ensures later { (S.state source.old).faults ≤ (S.state source.new).faults }
        ensures cause { OnErr result (Rose (S.state source.old).faults
            (S.state source.new).faults) }
        ensures quiet { OnOk result ((S.state source.new).faults ≡ (S.state source.old).faults) }
    {
        let room = self.line_limit + 1 - self.held().len();
        let most = (self.take_limit - self.taken).min(room.min(CHUNK) as u64) as usize;
        let mut chunk = [0; CHUNK];
        let count = source.read(&mut chunk[..most])?;
        self.append(&chunk[..count]);
        Ok(count)
    }

    // Adds bytes behind those held, in the room that was reserved.
    fn append(&mut self, chunk: &[u8])
        requires room { length self.old.held + length chunk.now ≤ self.old.line_limit + 1 }
        requires within { self.old.taken + length chunk.now ≤ self.old.take_limit }
        ensures { self.new ≡ holding_more self.old chunk.now }
    {
        remove_front(&mut self.bytes, self.start);
        self.line_start = 0;
        self.line_end = 0;
        self.start = 0;
        extend(&mut self.bytes, chunk);
        self.taken += chunk.len() as u64;
    }

    // Hands out what is held as the last line, if it isn't empty.
    fn hand_out_rest(&mut self) -> Found
        ensures found { result ≡ (if length self.old.held == 0 then found.End else found.Text) }
        ensures all { self.new ≡ record self.old { held = []; line = self.old.held } }
    {
        let length = self.held().len();
        self.hand_out(length, 0);
        if length == 0 { Found::End } else { Found::Text }
    }

    // Hands out the first `size` bytes held, and lets go of as many behind them.
    fn hand_out(&mut self, size: usize, behind: usize)
        requires { size + behind ≤ length self.old.held }
        ensures { self.new ≡ record self.old {
          held = drop
              (size + behind) self.old.held;
          line = take size self.old.held;
        } }
    {
        self.line_start = self.start;
        self.line_end = self.start + size;
        self.start += size + behind;
    }

    fn drop_held(&mut self)
        ensures { self.new ≡ record self.old { held = [] } }
    {
        self.start = self.bytes.len();
    }

    // Where the first line feed held stands; there is none before `searched`.
    fn feed_from(&self, searched: usize) -> Option<usize>
        requires within { searched ≤ length self.now.held }
        requires none { HasNoFeed (take searched self.now.held) }
        ensures feed { IsFeed self.now.held result }
        ensures limit { length self.now.held ≤ self.now.line_limit + 1 }
    {
        match feed(&self.held()[searched..]) {
            Some(at) => Some(searched + at),
            None => None,
        }
    }

    fn held(&self) -> &[u8]
        ensures all { result.now ≡ self.now.held }
        ensures limit { length self.now.held ≤ self.now.line_limit + 1 }
    {
        &self.bytes[self.start..]
    }

    // The line found last, without its line feed.
    fn line(&self) -> &[u8]
        ensures { result.now ≡ self.now.line }
    {
        &self.bytes[self.line_start..self.line_end]
    }
}

fn is_last(found: Found) -> bool
    ensures { result ≡ is_last found }
{
    match found {
        Found::Text | Found::Long => false,
        Found::End | Found::Fault | Found::Spent => true,
    }
}

fn feed(bytes: &[u8]) -> Option<usize>
    ensures { IsFeed bytes.now result }
{
    line_feed(bytes)
}

fn line_feed(bytes: &[u8]) -> Option<usize>
    ensures { result ≡ position (λ byte. byte == 10) bytes.now }
{
    bytes.iter().position(|byte| *byte == b'\n')
}

fn remove_front(bytes: &mut Vec<u8>, count: usize)
    requires { count ≤ vec_len bytes.old }
    ensures items { bytes.new.items ≡ drop count bytes.old.items }
    ensures capacity { vec_capacity bytes.new ≡ vec_capacity bytes.old }
{
    let left = bytes.len() - count;
    bytes.rotate_left(count);
    bytes.truncate(left);
}

fn extend(bytes: &mut Vec<u8>, more: &[u8])
    requires { vec_len bytes.old + length more.now ≤ vec_capacity bytes.old }
    ensures items { bytes.new.items ≡ bytes.old.items ++ more.now }
    ensures capacity { vec_capacity bytes.old ≤ vec_capacity bytes.new }
{
    match bytes.extend_from_slice(more) {
        Ok(()) => {}
        Err(_) => unreachable!(),
    }
}

// A line without one carriage return at its end.
fn trim_return(line: &[u8]) -> &[u8]
    ensures { result.now ≡ without_return line.now }
{
    match line {
        [front @ .., b'\r'] => front,
        _ => line,
    }
}
