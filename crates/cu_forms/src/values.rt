//! Functions over a day, given by their values and by stretches on which a rule holds.

ghost use Rattle.std.specs.Prelude.{◌≡◌, ◌≤◌, ◌<◌, ◌^◌, ℕ};
ghost use Rattle.cu_forms.specs.Said.{rule_said};
ghost use Rattle.cu_model.specs.DayForms.{IsKept};
ghost use Rattle.cu_model.specs.declared.limits.TheConstants.{DAY};

/// What a function does with a departure on a stretch of the day.
#[derive(Clone, Copy, PartialEq, Eq)]
pub enum DayRule {
    /// Arrives this many seconds after the departure.
    Travel(u64),
    /// Arrives at this second, counted from the day's midnight, whenever it leaves.
    Until(u64),
}

/// A rule, and the second of the day before which it holds.
#[derive(Clone, Copy, PartialEq, Eq)]
pub struct Stretch {
    pub rule: DayRule,
    pub end: u32,
}

/// A function over a day: when it arrives, leaving at each of its seconds.
pub trait DayValues {
    /// The arrival, by the second of the day; other seconds don't count.
    ghost value: { Self → ℕ → ℕ };

    /// When it arrives, leaving at a second of the day: never before it leaves.
    fn at(&self, second: u32) -> u64
        requires { second < DAY }
        ensures value { result ≡ value self.now second }
        ensures onward { second ≤ result }
        ensures limit { result ≤ 2 ^ 62 };

    /// A rule that holds at a second of the day, and until when. It may go on holding behind that end.
    fn stretch(&self, second: u32) -> Stretch
        requires { second < DAY }
        ensures later { second < result.end }
        ensures within { result.end ≤ DAY }
        ensures kept { IsKept (value self.now) (rule_said result.rule) second result.end };
}
