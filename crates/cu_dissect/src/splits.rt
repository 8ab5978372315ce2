//! What a part of a network is split into.

use std::marker::Model;

/// A part of a network, split into two sides and what separates them: three lists of nodes, each by rising number. No road
/// joins the sides. Contracts see the three lists.
#[derive(Drop)]
pub struct Split {
    pub left: Vec<u32>,
    pub right: Vec<u32>,
    pub separator: Vec<u32>,
}

impl Model for Split {
    ghost use Rattle.cu_dissect.specs.Dissection.{SplitValue};

    ghost Value = { SplitValue };

    ghost view = { λ split. record {
      left = split.left.items;
      right = split.right.items;
      separator = split.separator.items;
    } };
}
