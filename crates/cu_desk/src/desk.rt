//! A desk over a hierarchy: what is published, and the edit in work.

ghost use Rattle.std.specs.Prelude.{◌≡◌, ◌<◌, [], None, Some};
ghost use Rattle.std.specs.Option.{option_map};
ghost use Rattle.cu_io.specs.Sinks.{Wrote};
ghost use Rattle.cu_model.specs.declared.limits.TheConstants.{DAY};
ghost use Rattle.cu_model.specs.Edits.{IsEditInRange};
ghost use Rattle.cu_interval.specs.Hierarchies.{IsHierarchy};
ghost use Rattle.cu_interval.specs.Touching.{NumbersTouched};
ghost use Rattle.cu_pack.specs.Checks.{Spells};
ghost use Rattle.cu_desk.specs.HeldDesks.{MakesHeld, TouchesHeld, desk_over, state_of};
ghost use Rattle.cu_desk.specs.Machine.{Begins, Cancels, Steps, said_to};
ghost use Rattle.cu_desk.specs.Says.{PublishedAtOnce, begun_text, cancel_text, stepped_text};
ghost use Rattle.cu_desk.specs.Steps.Busies.{FitsSome, work_of};
ghost use Rattle.cu_router.specs.Answers.{IsHeldAnswer};
ghost use Rattle.cu_router.specs.Swept.{swept_reply};
ghost use Rattle.cu_router.specs.Working.{FitsBusy};

use crate::begun::Begun;
use crate::stepped::Stepped;
use cu_io::{Sink, SinkFailed};
use cu_model::{Edit, NoMemory, Query};
use cu_pack::PackedView;
use cu_router::{Busy, Router};
use std::alloc::Global;
use std::marker::Model;
use std::mem;

/// The hierarchy that is published, and the edit in work, if there is one. Contracts see both.
#[derive(Drop)]
pub struct Desk {
    router: Router,
    busy: Option<Busy>,
}

impl Model for Desk {
    ghost use Rattle.std.specs.Option.{option_map};
    ghost use Rattle.cu_desk.specs.Steps.Busies.{FitsSome, work_of};
    ghost use Rattle.cu_desk.specs.HeldDesks.{HeldDesk};

    ghost Value = { HeldDesk };

    ghost view = { λ desk. record {
      published = desk.router;
      work = option_map work_of desk.busy;
    } };

    ghost invariant = { λ desk. FitsSome desk.router desk.busy };
}

impl Desk {
    /// A desk over what a router holds, with no edit in work. Takes no memory.
    pub fn over(router: Router) -> Desk
        ensures over { result ≡ desk_over router }
    {
        Desk { router, busy: None }
    }

    /// The hierarchy that is published, over its bytes. Takes no memory.
    pub fn view(&self) -> PackedView<'_>
        ensures same { result ≡ self.now.published }
        ensures sound { IsHierarchy self.now.published }
    {
        self.router.view()
    }

    /// Whose edit is in work, if one is. Takes no memory.
    pub fn owner(&self) -> Option<u32>
        ensures owner { result ≡ option_map (λ work. work.client) self.now.work }
    {
        let busy = self.busy.as_ref()?;
        Some(busy.papers.client())
    }

    /// The packed file of the hierarchy that is published. An edit in work is dropped. Takes no memory.
    pub fn into_file(self) -> Vec<u8>
        ensures spelled { Spells result.items self.published }
    {
        let Desk { router, busy } = self;
        drop(busy);
        router.into_file()
    }

    /// Begins an edit of a client while none is in work; its numbers are in range. One that touches no edge is published at once.
    pub fn begin(&mut self, alloc: Global, client: u32, edit: Edit) -> Begun
        requires idle { self.old.work ≡ None }
        requires range { IsEditInRange self.old.published.network edit }
        ensures reply { Begins TouchesHeld MakesHeld (state_of self.old) client edit
            (said_to client (begun_text result)) (state_of self.new) }
    {
        let Ok(edges) = self.router.plan(alloc, &edit) else {
            return Begun::NoMemory;
        };
        if edges.is_empty() {
            return publish_at_once(alloc, &mut self.router, edit);
        }
        let count = edges.len() as u32;
        let Ok(busy) = self.router.begin(alloc, client, edges, edit) else {
            return Begun::NoMemory;
        };
        drop(mem::replace(&mut self.busy, Some(busy)));
        Begun::Begun(count)
    }

    /// Settles one edge more of the edit in work, and publishes it once none is left.
    pub fn step(&mut self, alloc: Global) -> Stepped
        ensures reply { Steps MakesHeld self.old.work (state_of self.old) (stepped_text result)
            (state_of self.new) }
    {
        let Some(busy) = self.busy.take() else {
            return Stepped::Idle;
        };
        let (busy, stepped) = step_busy(alloc, &mut self.router, busy);
        drop(mem::replace(&mut self.busy, busy));
        stepped
    }

    /// Drops a client's own edit in work, and answers whether there was one. Takes no memory.
    pub fn cancel(&mut self, client: u32) -> bool
        ensures reply { Cancels self.old.work (state_of self.old) client
            (said_to client (cancel_text result)) (state_of self.new) }
    {
        let Some(busy) = &self.busy else {
            return false;
        };
        if busy.papers.client() != client {
            return false;
        }
        let Some(busy) = self.busy.take() else {
            unreachable!()
        };
        self.router.cancel(busy);
        true
    }

    /// Writes the reply to a query over what is published. Takes no memory.
    pub fn put_answer<K: Sink>(&mut self, query: Query, sink: &mut K) -> Result<(), SinkFailed>
        requires from { query.from < self.old.published.network.nodes }
        requires to { query.to < self.old.published.network.nodes }
        requires second { query.second < DAY }
        ensures answer { IsHeldAnswer self.old.published query
            (swept_reply self.old.published query) }
        ensures wrote { Wrote (K.state sink.old) (K.state sink.new) result
            (swept_reply self.old.published query) }
        ensures stays { self.new ≡ self.old }
    {
        self.router.put_answer(query, sink)
    }
}

// Makes an edit that touches no edge.
fn publish_at_once(alloc: Global, router: &mut Router, edit: Edit) -> Begun
    requires range { IsEditInRange router.old.network edit }
    requires none { NumbersTouched router.old edit [] }
    ensures begun { PublishedAtOnce router.old edit result router.new }
{
    match router.edit(alloc, edit) {
        Ok(_edges) => Begun::Done,
        Err(NoMemory) => Begun::NoMemory,
    }
}

// Settles one edge more of an edit in work, and publishes it once none is left; else it is still in work.
fn step_busy(alloc: Global, router: &mut Router, busy: Busy) -> (Option<Busy>, Stepped)
    requires fits { FitsBusy router.old busy }
    ensures reply { Steps MakesHeld (Some (work_of busy))
        (record { published = router.old; work = Some (work_of busy) }) (stepped_text result.1)
        (record { published = router.new; work = option_map work_of result.0 }) }
    ensures fits { FitsSome router.new result.0 }
{
    let (busy, left) = router.go_on(alloc, busy);
    let Ok(left) = left else {
        return (Some(busy), Stepped::NoMemory);
    };
    if left > 0 {
        return (Some(busy), Stepped::Left(left));
    }
    let client = busy.papers.client();
    match router.publish(alloc, busy) {
        Ok(()) => (None, Stepped::Published(client)),
        Err(busy) => (Some(busy), Stepped::NoMemory),
    }
}
