//! Lines answered where profiles are measured, as far as no edit has set them.

ghost use Rattle.std.specs.Prelude.{◌≡◌, ◌≤◌, ℕ, List, Option, Ok, Some, IfOk, OnErr, length, map};
ghost use Rattle.cu_io.specs.Sinks.{Wrote};
ghost use Rattle.cu_model.specs.declared.roads.Edit.{Edit};
ghost use Rattle.cu_drive.specs.DriveLines.{drive_of};
ghost use Rattle.cu_router.specs.Edited.{IsEdited};
ghost use Rattle.cu_script.specs.EditLines.{edit_of};
ghost use Rattle.cu_wait.specs.declared.points.Point.{Point};
ghost use Rattle.cu_wait.specs.KeptPoints.{kept_after};
ghost use Rattle.cu_session.specs.Kept.{IsKeptDrive, IsKeptEdit, IsKeptText};
ghost use Rattle.cu_session.specs.Scripts.{line_limit};
ghost use Rattle.cu_session.specs.Steps.Forgetting.{kept_without};

use crate::answerer::LineAnswerer;
use crate::edit_lines::{put_done, put_edit_refusal};
use crate::questions::{Kind, kind_of, put_reply};
use crate::refusals::put_query_refusal;
use cu_drive::check_drive;
use cu_io::{Sink, SinkFailed, end_line, put_all};
use cu_model::{Edit, NoMemory, Roads};
use cu_router::Router;
use cu_script::{EditLine, check_edit};
use cu_wait::MeasuredProfile;
use std::alloc::Global;
use std::marker::Model;

/// A router over a network in pieces that stand for measured profiles, and the points of those that no edit has set. Contracts
/// see the hierarchy and these points.
#[derive(Drop)]
pub(crate) struct WaitingRouter {
    pub(crate) router: Router,
    pub(crate) kept: Vec<Option<MeasuredProfile>>,
}

impl Model for WaitingRouter {
    ghost use Rattle.cu_session.specs.Kept.{KeptValue};

    ghost Value = { KeptValue };

    ghost view = { λ waiting. record {
      hierarchy = waiting.router;
      kept = waiting.kept.items;
    } };
}

impl LineAnswerer for WaitingRouter {
    ghost use Rattle.cu_session.specs.Kept.{IsKeptText};

    ghost replies = { IsKeptText };

    fn answer_line<K: Sink>(
        &mut self,
        alloc: Global,
        line: &[u8],
        sink: &mut K,
    ) -> Result<(), SinkFailed> {
        put_waiting_reply(alloc, self, line, sink)?;
        end_line(sink)
    }
}

/// Measured profiles by number, of which none is set yet.
pub(crate) fn keep_all(
    alloc: Global,
    measured: Vec<MeasuredProfile>,
) -> Result<Vec<Option<MeasuredProfile>>, NoMemory>
    ensures kept { IfOk result (λ kept. kept.items ≡ map Some measured.items) }
{
    let mut kept = Vec::new(alloc);
    'profiles: for profile in measured {
        kept.push(Some(profile))?;
    }
    Ok(kept)
}

// Writes the reply to the text of a line; an edit is made before.
fn put_waiting_reply<K: Sink>(
    alloc: Global,
    waiting: &mut WaitingRouter,
    line: &[u8],
    sink: &mut K,
) -> Result<(), SinkFailed>
    requires few { length line.now ≤ line_limit }
    ensures reply { (reply : List ℕ) × IsKeptText waiting.old line.now reply waiting.new
        × Wrote (K.state sink.old) (K.state sink.new) result reply }
{
    put_kept_reply(alloc, &mut waiting.router, &mut waiting.kept, line, sink)
}

// The same, by a router and the points that are kept.
fn put_kept_reply<K: Sink>(
    alloc: Global,
    router: &mut Router,
    kept: &mut [Option<MeasuredProfile>],
    line: &[u8],
    sink: &mut K,
) -> Result<(), SinkFailed>
    requires few { length line.now ≤ line_limit }
    ensures reply { (reply : List ℕ) × IsKeptText
        (record { hierarchy = router.old; kept = kept.old }) line.now reply
        (record { hierarchy = router.new; kept = kept.new })
        × Wrote (K.state sink.old) (K.state sink.new) result reply }
{
    match kind_of(line) {
        Kind::Drive => put_waits_reply(router, kept, line, sink),
        Kind::Edit => put_kept_edit(alloc, router, kept, line, sink),
        _ => put_reply(alloc, router, line, sink),
    }
}

// Writes the reply to the text of a line that asks for the drive of a query.
fn put_waits_reply<K: Sink>(
    router: &mut Router,
    kept: &[Option<MeasuredProfile>],
    line: &[u8],
    sink: &mut K,
) -> Result<(), SinkFailed>
    ensures reply { (reply : List ℕ) × IsKeptDrive
        (record { hierarchy = router.old; kept = kept.now })
        (drive_of router.old.network.nodes line.now) reply
        × Wrote (K.state sink.old) (K.state sink.new) result reply }
    ensures stays { router.new ≡ router.old }
{
    match check_drive(line, router.view().nodes()) {
        Ok(query) => router.put_waits(kept, query, sink),
        Err(refusal) => put_query_refusal(refusal, sink),
    }
}

// Writes the reply to the text of a line that is no question; an edit is made before.
fn put_kept_edit<K: Sink>(
    alloc: Global,
    router: &mut Router,
    kept: &mut [Option<MeasuredProfile>],
    line: &[u8],
    sink: &mut K,
) -> Result<(), SinkFailed>
    requires few { length line.now ≤ line_limit }
    ensures reply { (reply : List ℕ) × IsKeptEdit
        (record { hierarchy = router.old; kept = kept.old })
        (edit_of (length router.old.network.arcs) (length router.old.network.profiles) line.now)
        reply (record { hierarchy = router.new; kept = kept.new })
        × Wrote (K.state sink.old) (K.state sink.new) result reply }
{
    let view = router.view();
    let arcs = view.arcs();
    let profiles = view.profiles();
    match check_edit(line, arcs, profiles) {
        Ok(checked) => put_made(alloc, router, kept, checked, sink),
        Err(refusal) => put_edit_refusal(refusal, sink),
    }
}

// Makes the edit of a line, and writes how many edges it touches, or that there was no memory for it.
fn put_made<K: Sink>(
    alloc: Global,
    router: &mut Router,
    kept: &mut [Option<MeasuredProfile>],
    checked: EditLine<'_>,
    sink: &mut K,
) -> Result<(), SinkFailed>
    requires arcs { checked.arcs ≡ length router.old.network.arcs }
    requires profiles { checked.profiles ≡ length router.old.network.profiles }
    ensures reply { (reply : List ℕ) × IsKeptEdit
        (record { hierarchy = router.old; kept = kept.old })
        (edit_of checked.entry.arcs checked.entry.profiles checked.entry.line)
        reply (record { hierarchy = router.new; kept = kept.new })
        × Wrote (K.state sink.old) (K.state sink.new) result reply }
{
    match make_kept(alloc, router, kept, checked) {
        Ok(count) => put_done(count, sink),
        Err(NoMemory) => put_all(sink, b"no memory"),
    }
}

// Makes the edit of a line, and answers how many edges it touches. Of a profile that it sets no points are kept then.
fn make_kept(
    alloc: Global,
    router: &mut Router,
    kept: &mut [Option<MeasuredProfile>],
    checked: EditLine<'_>,
) -> Result<usize, NoMemory>
    requires arcs { checked.arcs ≡ length router.old.network.arcs }
    requires profiles { checked.profiles ≡ length router.old.network.profiles }
    ensures edited { IfOk result (λ count. (edit : Edit)
        × (edit_of checked.entry.arcs checked.entry.profiles checked.entry.line ≡ Ok edit)
        × IsEdited router.old edit router.new count × (kept.new ≡ kept_after edit kept.old)) }
    ensures same { OnErr result (router.new ≡ router.old) }
    ensures kept { OnErr result (kept.new ≡ kept.old) }
{
    let edit = checked.take(alloc)?;
    let set = set_by(&edit);
    let count = router.edit(alloc, edit)?;
    forget(kept, set);
    Ok(count)
}

// The profile that an edit sets, if it sets one: that of which no points are kept behind it.
fn set_by(edit: &Edit) -> Option<u32>
    ensures { (kept : List (Option (List Point)))
        → kept_without result kept ≡ kept_after edit.now kept }
{
    match edit {
        Edit::Set { profile, .. } => Some(*profile),
        Edit::Assign { .. } => None,
    }
}

// Keeps no points of this profile, if it is one.
fn forget(kept: &mut [Option<MeasuredProfile>], profile: Option<u32>)
    ensures { kept.new ≡ kept_without profile kept.old }
{
    let Some(profile) = profile else {
        return;
    };
    let place = profile as usize;
    if place < kept.len() {
        kept[place] = None;
    }
}
