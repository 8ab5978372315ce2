//! The rule of a road at a second of the day, and for how long.

ghost use Rattle.std.specs.Prelude.{◌<◌, length};
ghost use Rattle.cu_pack.specs.InForce.{IsRuleInForce};

use crate::cutting::in_force::RuleInForce;
use crate::view::PackedView;
use cu_model::DAY;

impl<'a> PackedView<'a> {
    /// The rule of a road at a second of the day, 0 to 86,399, and the seconds around it, at most up to 86,400, at each of
    /// which it is the one; that it isn't the one just before and behind them is not promised. The road's number is below the
    /// number of roads. Takes no memory.
    pub fn rule_in_force(&self, arc: u32, second: u32) -> RuleInForce
        requires road { arc < length self.now.network.arcs }
        requires day { second < DAY }
        ensures found { IsRuleInForce self.now.network arc second result }
    {
        self.sections
            .rule_begun(self.sections.arc(arc).profile, second)
    }
}
