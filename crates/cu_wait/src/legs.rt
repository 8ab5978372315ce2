//! The legs of a day between the points of a measured profile.

ghost use Rattle.std.specs.Prelude.{◌≡◌, ◌≤◌, ◌<◌, ◌+◌, ◌-◌, ◌*◌, ◌/◌, ◌^◌, ℕ, min, true, false};
ghost use Rattle.cu_model.specs.Days.{day};
ghost use Rattle.cu_model.specs.declared.limits.TheConstants.{MAX_TRAVEL};
ghost use Rattle.cu_wait.specs.Legs.{IsLeg, best_from, falls, leg_arrival, leg_least};
ghost use Rattle.cu_wait.specs.Measured.{on_line};
ghost use Rattle.cu_wait.specs.Steps.Listed.{course_value};

use crate::stretches::{Course, Stretch};

// From a second of the day until before another, the travel times go from one to another on a straight line.
#[derive(Clone, Copy)]
pub(crate) struct Leg {
    pub from: u32,
    pub until: u32,
    pub first: u32,
    pub last: u32,
}

impl Leg {
    // The travel time at a second of the leg.
    fn travel(self, second: u32) -> u32
        requires leg { IsLeg self }
        requires within { (self.from ≤ second) × (second < self.until) }
        ensures line { result
            ≡ on_line self.first self.last (second - self.from) (self.until - self.from) }
        ensures limit { result ≤ MAX_TRAVEL }
    {
        on_line(
            self.first,
            self.last,
            second - self.from,
            self.until - self.from,
        )
    }

    // When it arrives, leaving at a second of the leg.
    pub fn arrival(self, second: u32) -> u32
        requires leg { IsLeg self }
        requires within { (self.from ≤ second) × (second < self.until) }
        ensures { result ≡ leg_arrival self second }
    {
        second + self.travel(second)
    }

    // Whether travel times fall by a second a second or more.
    pub fn falls(self) -> bool
        requires leg { IsLeg self }
        ensures { result ≡ falls self }
    {
        self.last + (self.until - self.from) <= self.first
    }

    // Whether travel times fall by more than half a second a second, so that arrivals change less often than they do.
    fn is_steep(self) -> bool
        requires leg { IsLeg self }
        ensures { result ≡ true → self.last < self.first }
    {
        self.last < self.first && self.until - self.from < 2 * (self.first - self.last)
    }

    // Until which second who leaves arrives as from this one on, where travel times fall.
    fn arrival_end(self, second: u32) -> u32
        requires leg { IsLeg self }
        requires within { (self.from ≤ second) × (second < self.until) }
        requires falling { self.last < self.first }
        requires slow { falls self ≡ false }
        ensures later { second < result }
        ensures inside { result ≤ self.until }
        ensures stays { (t : ℕ) → second ≤ t → t < result
            → leg_arrival self t ≡ leg_arrival self second }
    {
        let seconds = self.until - self.from;
        let rise = seconds - (self.first - self.last);
        self.from + rise_end(rise, second - self.from, seconds).min(seconds)
    }

    // The second of the leg, from this one on, at which who leaves arrives first.
    fn best_from(self, second: u32) -> u32
        requires leg { IsLeg self }
        ensures { result ≡ best_from self second }
    {
        if self.falls() { self.until - 1 } else { second }
    }

    // The least of what arrives in the leg from one of its seconds on and of what later legs allow, and how it goes on from
    // this second.
    pub fn hull_from(self, bound: u32, second: u32) -> Stretch
        requires leg { IsLeg self }
        requires within { (self.from ≤ second) × (second < self.until) }
        requires bound { (self.until ≤ bound) × (bound < 2 ^ 31) }
        ensures later { second < result.end }
        ensures inside { result.end ≤ self.until }
        ensures limit { result.arrival ≤ bound }
        ensures kept { (t : ℕ) → second ≤ t → t < result.end
            → min (leg_least self t) bound ≡ course_value result.course second result.arrival t }
    {
        if self.falls() {
            return Stretch {
                arrival: self.least(second).min(bound),
                course: Course::Stays,
                end: self.until,
            };
        }
        let travel = self.travel(second);
        let arrival = second + travel;
        if arrival > bound {
            return Stretch {
                arrival: bound,
                course: Course::Stays,
                end: self.until,
            };
        }
        if self.is_steep() {
            return Stretch {
                arrival,
                course: Course::Stays,
                end: self.arrival_end(second),
            };
        }
        let behind = second - self.from;
        let change = next_change(self.first, self.last, behind, self.until - self.from);
        Stretch {
            arrival,
            course: Course::Rises,
            end: (self.from + change).min(bound - travel + 1),
        }
    }

    // The least arrival of the leg from one of its seconds on.
    pub fn least(self, second: u32) -> u32
        requires leg { IsLeg self }
        requires within { (self.from ≤ second) × (second < self.until) }
        ensures { result ≡ leg_least self second }
    {
        self.arrival(self.best_from(second))
    }
}

// What is travelled so many seconds behind a point, where the travel times go on a straight line for `seconds` seconds.
fn on_line(first: u32, last: u32, behind: u32, seconds: u32) -> u32
    requires some { behind < seconds }
    requires first { first ≤ MAX_TRAVEL }
    requires last { last ≤ MAX_TRAVEL }
    ensures line { result ≡ on_line first last behind seconds }
    ensures limit { result ≤ MAX_TRAVEL }
{
    if first <= last {
        let rise = u64::from(last - first) * u64::from(behind) / u64::from(seconds);
        first + rise as u32
    } else {
        let product = u64::from(first - last) * u64::from(behind);
        let fall = (product + u64::from(seconds - 1)) / u64::from(seconds);
        first - fall as u32
    }
}

// The first second behind a point, later than this one, at which the travel time may be another; `seconds` where none is before.
fn next_change(first: u32, last: u32, behind: u32, seconds: u32) -> u32
    requires some { behind < seconds }
    requires limit { (first ≤ MAX_TRAVEL) × (last ≤ MAX_TRAVEL) × (seconds ≤ day) }
    ensures onward { behind < result }
    ensures within { result ≤ seconds }
    ensures stays { (later : ℕ) → behind ≤ later → later < result
        → on_line first last later seconds ≡ on_line first last behind seconds }
{
    if first < last {
        rise_end(last - first, behind, seconds).min(seconds)
    } else if last < first {
        fall_end(first - last, behind, seconds).min(seconds)
    } else {
        seconds
    }
}

// Until which second behind a point a rise stays rounded down as it is.
fn rise_end(rise: u32, behind: u32, seconds: u32) -> u32
    requires some { behind < seconds }
    requires limit { (0 < rise) × (rise ≤ MAX_TRAVEL) × (seconds ≤ day) }
    ensures { result
        ≡ min (((rise * behind / seconds + 1) * seconds + (rise - 1)) / rise) (2 ^ 32 - 1) }
{
    let rise = u64::from(rise);
    let seconds = u64::from(seconds);
    let whole = rise * u64::from(behind) / seconds;
    (((whole + 1) * seconds + (rise - 1)) / rise).min(u64::from(u32::MAX)) as u32
}

// Until which second behind a point a fall stays rounded up as it is.
fn fall_end(fall: u32, behind: u32, seconds: u32) -> u32
    requires some { behind < seconds }
    requires limit { (0 < fall) × (fall ≤ MAX_TRAVEL) × (seconds ≤ day) }
    ensures { result
        ≡ min ((fall * behind + (seconds - 1)) / seconds * seconds / fall + 1) (2 ^ 32 - 1) }
{
    let fall = u64::from(fall);
    let seconds = u64::from(seconds);
    let whole = (fall * u64::from(behind) + (seconds - 1)) / seconds;
    (whole * seconds / fall + 1).min(u64::from(u32::MAX)) as u32
}
