//! The halves of the ways by the middles of an edge's lower triangles.

ghost use Rattle.std.specs.Prelude.{◌≡◌, All, true};
ghost use Rattle.cu_edits.specs.Steps.Moving.{BothAre, IsUnmoved, TellsBoth};
ghost use Rattle.cu_edits.specs.Steps.Triangles.{HalvesByAre, TellsSides, halves_by};

use crate::moved_lists::MovedLists;
use cu_customize::Triangle;
use cu_interval::Dir;

/// The edges of both halves of the way by a triangle's middle: the first half is the one's list downwards, and the second the
/// other's upwards.
pub fn half_edges(triangle: Triangle, dir: Dir) -> (u32, u32)
    ensures { result ≡ halves_by dir triangle }
{
    match dir {
        Dir::Up => (triangle.to_low, triangle.to_high),
        Dir::Down => (triangle.to_high, triangle.to_low),
    }
}

/// Are both halves that these edges have not moved?
pub fn are_both_unmoved(moved: &MovedLists, edges: (u32, u32)) -> bool
    requires { TellsBoth moved.now edges }
    ensures { result ≡ true → BothAre (IsUnmoved moved.now) edges }
{
    moved.is_unmoved(edges.0, Dir::Down) && moved.is_unmoved(edges.1, Dir::Up)
}

/// Is none of the halves moved of which the ways by the middles of these triangles are made in a direction?
pub fn are_halves_unmoved(moved: &MovedLists, triangles: &[Triangle], dir: Dir) -> bool
    requires { All (TellsSides moved.now) triangles.now }
    ensures { result ≡ true → All (HalvesByAre (IsUnmoved moved.now) dir) triangles.now }
{
    for triangle in triangles {
        if !are_both_unmoved(moved, half_edges(*triangle, dir)) {
            return false;
        }
    }
    true
}
