//! Driving one road, for as long as its rule and the way over it are in force.

ghost use Rattle.std.specs.Prelude.{◌≡◌, ◌≤◌, ◌<◌, ◌-◌, length, min};
ghost use Rattle.cu_model.specs.Profiles.{rule_value};
ghost use Rattle.cu_interval.specs.Hierarchies.{IsHierarchy};
ghost use Rattle.cu_pack.specs.InForce.{AreAround};
ghost use Rattle.cu_recall.specs.Windows.{IsWindow};
ghost use Rattle.cu_recall.specs.Steps.Drives.{DrivesBy, DrivesRoad};

use crate::spans::Driven;
use cu_model::Rule;
use cu_pack::{PackedView, RuleInForce};

/// What driving a road from a second of the day takes, over no more of the seconds around it than these.
pub fn drive(view: &PackedView<'_>, road: u32, second: u32, back: u32, ahead: u32) -> Driven
    requires road { road < length view.now.network.arcs }
    requires window { IsWindow second back ahead }
    requires sound { IsHierarchy view.now }
    ensures drives { DrivesRoad view.now.network road second back ahead result }
{
    drive_by(view.rule_in_force(road, second), second, back, ahead)
}

// The same by the rule in force.
fn drive_by(found: RuleInForce, second: u32, back: u32, ahead: u32) -> Driven
    requires window { IsWindow second back ahead }
    requires around { AreAround second found.from found.until }
    requires onward { second ≤ rule_value found.rule 0 second }
    ensures drives { DrivesBy found second back ahead result }
{
    match found.rule {
        Rule::Travel(seconds) => drive_over(found, second, back, ahead, seconds),
        Rule::Until(arrival) => Driven {
            back: 0,
            ahead: 1,
            travel: u64::from(arrival - second),
            roads: 1,
        },
        Rule::Closed(_) => drive_over(found, second, back, ahead, 0),
    }
}

// A travel over the seconds at which a rule is in force.
fn drive_over(found: RuleInForce, second: u32, back: u32, ahead: u32, travel: u32) -> Driven
    requires around { AreAround second found.from found.until }
    ensures { result ≡ record {
      back = min back (second - found.from);
      ahead = min ahead (found.until - second);
      travel = travel;
      roads = 1;
    } }
{
    Driven {
        back: back.min(second - found.from),
        ahead: ahead.min(found.until - second),
        travel: u64::from(travel),
        roads: 1,
    }
}
