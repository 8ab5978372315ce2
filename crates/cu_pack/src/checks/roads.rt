//! The roads of a packed file: tail, head and profile are there.

ghost use Rattle.std.specs.Prelude.{◌<◌, ◌↔◌, IsTrue};
ghost use Rattle.cu_pack.specs.Checks.{FindsFirst, IsWrongArc};
ghost use Rattle.cu_pack.specs.Reading.{counts_in};

use crate::cutting::Sections;

/// The least road whose tail, head or profile isn't there.
pub fn wrong_arc(sections: &Sections<'_>) -> Option<u32>
    ensures first { FindsFirst (IsWrongArc sections.now) (counts_in sections.now).arcs result }
{
    for arc in 0..sections.counts().arcs {
        if is_wrong_arc(sections, arc) {
            return Some(arc);
        }
    }
    None
}

fn is_wrong_arc(sections: &Sections<'_>, arc: u32) -> bool
    requires arc { arc < (counts_in sections.now).arcs }
    ensures { IsTrue result ↔ IsWrongArc sections.now arc }
{
    let counts = sections.counts();
    let road = sections.arc(arc);
    road.tail >= counts.nodes || road.head >= counts.nodes || road.profile >= counts.profiles
}
