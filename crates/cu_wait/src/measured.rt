//! Measured profiles that are kept, and what is written of a road by them.

ghost use Rattle.std.specs.Prelude.{◌≡◌, ◌≤◌, ◌<◌, ◌+◌, ◌^◌, codes, slice_get};
ghost use Rattle.cu_model.specs.Days.{day};
ghost use Rattle.cu_wait.specs.LeftSeconds.{IsLeft, left_at};
ghost use Rattle.cu_wait.specs.KeptPoints.{kept_text, left_by, left_of_road};
ghost use Rattle.cu_wait.specs.Measured.{IsMeasured, raw_arrival};

use crate::left::left_second;
use crate::points::Point;
use cu_drive::{RoadText, WalkForm};
use cu_io::{Sink, SinkFailed, put_all};
use cu_model::Roads;
use std::marker::Model;

/// A measured profile. Contracts see its points.
#[derive(Drop)]
pub struct MeasuredProfile {
    points: Vec<Point>,
}

impl Model for MeasuredProfile {
    ghost use Rattle.std.specs.Prelude.{List};
    ghost use Rattle.cu_wait.specs.declared.points.Point.{Point};
    ghost use Rattle.cu_wait.specs.Measured.{IsMeasured};

    ghost Value = { List Point };

    ghost view = { λ measured. measured.points.items };

    ghost invariant = { λ measured. IsMeasured measured.points.items };
}

impl MeasuredProfile {
    /// The profile of these points. Takes no memory.
    pub fn of(points: Vec<Point>) -> MeasuredProfile
        requires { IsMeasured points.items }
        ensures { result ≡ points.items }
    {
        MeasuredProfile { points }
    }

    /// When one leaves who comes to a road with this profile at an absolute second of at most 2^62, and waits as little as
    /// serves. Takes no memory.
    pub fn left(&self, second: u64) -> u64
        requires { second ≤ 2 ^ 62 }
        ensures left { IsLeft (raw_arrival self.now) second result }
        ensures at { result ≡ left_at (raw_arrival self.now) second }
        ensures soon { result < second + day }
    {
        left_second(&self.points, second)
    }
}

/// Each road by its number and, behind commas, the second at which one comes to it and that at which one leaves, by the measured
/// profiles that are kept by number: at once where none is kept.
#[derive(Drop)]
pub struct WithLeft<'a, R: Roads> {
    roads: &'a R,
    kept: &'a [Option<MeasuredProfile>],
}

impl<'a, R: Roads> WithLeft<'a, R> {
    /// By the profiles of these roads, as far as they are kept. Takes no memory.
    pub fn of(roads: &'a R, kept: &'a [Option<MeasuredProfile>]) -> WithLeft<'a, R>
        ensures { result ≡ record { roads = roads.entry; kept = kept.entry } }
    {
        WithLeft { roads, kept }
    }
}

impl<'a, R: Roads> WalkForm for WithLeft<'a, R> {
    ghost word = { λ _. codes " drive=" };

    ghost text = { λ form first road second. kept_text form.kept.now
        (R.network form.roads.now).arcs first road second };

    fn word(&self) -> &[u8] {
        b" drive="
    }

    fn tells_seconds(&self) -> bool {
        true
    }

    fn put<K: Sink>(
        &self,
        road: u32,
        second: u64,
        first: bool,
        sink: &mut K,
    ) -> Result<(), SinkFailed> {
        let mut text = RoadText::of(left_on(self.roads, self.kept, road, second));
        text.put_before(second);
        text.put_before(u64::from(road));
        text.put_blank(first);
        put_all(sink, text.bytes())
    }
}

// When one leaves on a road, by the profiles that are kept; at once where there is no such road.
fn left_on<R: Roads>(roads: &R, kept: &[Option<MeasuredProfile>], road: u32, second: u64) -> u64
    requires { second ≤ 2 ^ 62 }
    ensures { result ≡ left_of_road kept.now (slice_get (R.network roads.now).arcs road) second }
{
    if road >= roads.arcs() {
        return second;
    }
    left_by(kept, roads.arc(road).profile, second)
}

// When one leaves on a profile, by those that are kept.
fn left_by(kept: &[Option<MeasuredProfile>], profile: u32, second: u64) -> u64
    requires { second ≤ 2 ^ 62 }
    ensures { result ≡ left_by (slice_get kept.now profile) second }
{
    match kept.get(profile as usize) {
        Some(Some(measured)) => measured.left(second),
        _ => second,
    }
}
