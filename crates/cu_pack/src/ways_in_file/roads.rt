//! The network that the sections of a packed file say.

use crate::ways_in_file::WaysInFile;
use cu_model::{Piece, RoadArc, Roads};

impl<'a, 'b> Roads for WaysInFile<'a, 'b> {
    ghost network = { λ h. h.network };

    fn nodes(&self) -> u32 {
        self.sections.counts().nodes
    }

    fn arcs(&self) -> u32 {
        self.sections.counts().arcs
    }

    fn profiles(&self) -> u32 {
        self.sections.counts().profiles
    }

    fn arc(&self, arc: u32) -> RoadArc {
        self.sections.arc(arc)
    }

    fn closed(&self, arc: u32) -> bool {
        self.sections.is_closed(arc)
    }

    fn drive(&self, arc: u32, second: u64) -> u64 {
        self.sections.arrive(arc, second)
    }

    fn pieces(&self, profile: u32) -> u32 {
        self.sections.piece_count(profile)
    }

    fn piece(&self, profile: u32, index: u32) -> Piece {
        self.sections.piece_of(profile, index)
    }
}
