//! The network of a packed file.

use crate::view::PackedView;
use cu_model::{Piece, RoadArc, Roads};

impl<'a> Roads for PackedView<'a> {
    ghost network = { λ h. h.network };

    fn nodes(&self) -> u32 {
        self.ways_in_file().nodes()
    }

    fn arcs(&self) -> u32 {
        self.ways_in_file().arcs()
    }

    fn profiles(&self) -> u32 {
        self.ways_in_file().profiles()
    }

    fn arc(&self, arc: u32) -> RoadArc {
        self.ways_in_file().arc(arc)
    }

    fn closed(&self, arc: u32) -> bool {
        self.ways_in_file().closed(arc)
    }

    fn drive(&self, arc: u32, second: u64) -> u64 {
        self.ways_in_file().drive(arc, second)
    }

    fn pieces(&self, profile: u32) -> u32 {
        self.ways_in_file().pieces(profile)
    }

    fn piece(&self, profile: u32, index: u32) -> Piece {
        self.ways_in_file().piece(profile, index)
    }
}
