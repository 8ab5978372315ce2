//! The commands: which of them the words ask for, and its work.

ghost use Rattle.std.specs.Prelude.{map, string_bytes};
ghost use Rattle.cu_cli.specs.Commands.{meaning_of};
ghost use Rattle.cu_cli.specs.Steps.Asks.{Parses, command_asked};
ghost use Rattle.cu_cli.specs.Steps.Outcomes.{Works, stop_of, world_of};

mod ask;
mod build;
mod desk;
mod edit;
mod make;
mod measure;
mod migrate;
mod order;
mod serve;
mod trial;
mod verify;
mod wait;

use crate::manner::Manner;
use crate::stops::Stop;
use ask::AskWords;
use build::BuildWords;
use cu_io::{Shelf, Sink, Source};
use cu_progress::Progress;
use desk::DeskWords;
use edit::EditWords;
use make::MakeWords;
use measure::MeasureWords;
use migrate::MigrateWords;
use order::OrderWords;
use serve::ServeWords;
use std::alloc::Global;
use trial::TrialWords;
use verify::VerifyWords;
use wait::WaitWords;

/// What the words ask for.
#[derive(Clone, Copy)]
pub enum Command<'a> {
    /// `serve NODES ROADS PROFILES ORDER`
    Serve(ServeWords<'a>),
    /// `wait NODES ROADS MEASURED ORDER`
    Wait(WaitWords<'a>),
    /// `order NODES ROADS PROFILES OUT`
    Order(OrderWords<'a>),
    /// `make START WIDTH HEIGHT NODES ROADS PROFILES`
    Make(MakeWords<'a>),
    /// `build NODES ROADS PROFILES ORDER OUT`
    Build(BuildWords<'a>),
    /// `ask HIERARCHY`
    Ask(AskWords<'a>),
    /// `desk HIERARCHY OUT`
    Desk(DeskWords<'a>),
    /// `edit HIERARCHY EDITS OUT`
    Edit(EditWords<'a>),
    /// `verify HIERARCHY`
    Verify(VerifyWords<'a>),
    /// `measure MEASURED OUT`
    Measure(MeasureWords<'a>),
    /// `migrate HIERARCHY OUT`
    Migrate(MigrateWords<'a>),
    /// `trial START WIDTH HEIGHT TURNS`
    Trial(TrialWords),
}

/// The command of the words; none where they are no command's.
pub fn parse_words(words: &Vec<String>) -> Option<Command<'_>>
    ensures { Parses command_asked (meaning_of (map string_bytes words.now.items)) result }
{
    let (command, words) = words.as_slice().split_first()?;
    match command.as_str() {
        "serve" => Some(Command::Serve(serve::parse(words)?)),
        "wait" => Some(Command::Wait(wait::parse(words)?)),
        "order" => Some(Command::Order(order::parse(words)?)),
        "make" => Some(Command::Make(make::parse(words)?)),
        "build" => Some(Command::Build(build::parse(words)?)),
        "ask" => Some(Command::Ask(ask::parse(words)?)),
        "desk" => Some(Command::Desk(desk::parse(words)?)),
        "edit" => Some(Command::Edit(edit::parse(words)?)),
        "verify" => Some(Command::Verify(verify::parse(words)?)),
        "measure" => Some(Command::Measure(measure::parse(words)?)),
        "migrate" => Some(Command::Migrate(migrate::parse(words)?)),
        "trial" => Some(Command::Trial(trial::parse(words)?)),
        _ => None,
    }
}

/// Does what a command asks for, in a manner.
pub fn perform<H: Shelf, S: Source, K: Sink, P: Progress>(
    alloc: Global,
    command: Command<'_>,
    shelf: &mut H,
    source: &mut S,
    sink: &mut K,
    manner: Manner<'_, P>,
) -> Result<(), Stop>
    ensures works { Works (command_asked command.entry) (stop_of result)
        (world_of (H.state shelf.old) (S.state source.old) (K.state sink.old))
        (world_of (H.state shelf.new) (S.state source.new) (K.state sink.new)) }
{
    match command {
        Command::Serve(asked) => serve::serve(alloc, asked, shelf, source, sink, manner),
        Command::Wait(asked) => wait::wait(alloc, asked, shelf, source, sink, manner),
        Command::Order(asked) => order::order(alloc, asked, shelf, sink, manner.progress),
        Command::Make(asked) => make::make(alloc, asked, shelf, sink),
        Command::Build(asked) => build::build(alloc, asked, shelf, sink, manner.progress),
        Command::Ask(asked) => ask::ask(alloc, asked, shelf, source, sink, manner),
        Command::Desk(asked) => desk::desk(alloc, asked, shelf, source, sink, manner),
        Command::Edit(asked) => edit::edit(alloc, asked, shelf, sink, manner.progress),
        Command::Verify(asked) => verify::verify(alloc, asked, shelf, sink, manner.progress),
        Command::Measure(asked) => measure::measure(alloc, asked, shelf, sink, manner.progress),
        Command::Migrate(asked) => migrate::migrate(alloc, asked, shelf, sink, manner.progress),
        Command::Trial(asked) => trial::trial(alloc, asked, sink),
    }
}
