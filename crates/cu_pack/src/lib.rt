//! The packed file of a hierarchy: written, opened and asked as it lies.
//!
//! [`pack`] gives the bytes of `spelling` (`specs/Spelling.antt`). [`PackedView::open`] takes bytes that are the
//! packed file of a hierarchy, and refuses all others by the first check that fails ([`PackRefusal`],
//! `specs/Checks.antt`). [`PackedView::adopt`] takes bytes that are known to be such a file, and checks nothing. A
//! view stands for the hierarchy (`Roads`, `Ways`, `BoundedWays`), and each look-up reads the borrowed bytes:
//! [`WaySlice`] is a way list in them. [`WayInForce`] and [`RuleInForce`] say a way or a rule with the seconds at which it
//! holds (`specs/InForce.antt`). [`HalvesInFile`] finds the halves of its shortcuts by rising edge
//! (`specs/Halves.antt`). [`order_of`] and [`chordal_of`] copy the order and the graph. [`repack`] gives the file of
//! a view's hierarchy with other roads and the way lists of some edges replaced, as edits leave it: its order, its graph
//! and way lists that stay are copied as they lie, and the least bounds are found anew. [`repack_unsealed`] saves the digest, [`PackedView::adopt_unsealed`] reads its
//! bytes as they are, and [`seal`] writes the digest once the whole file is asked for. [`repack_touched`] is for edits that
//! leave the least bounds of all other lists: it finds those of the replaced lists alone. [`Repacked`] is the same file before any
//! of its bytes is made: it is written piece by piece, and the digest is made on the way.
//!
//! A file has a version. The first keeps no least bounds; all calls mean the second, but for [`migrate`], which makes a
//! file of version 2 from one of version 1.
//!
//! Two laws speak of files alone, in each version. [`file_of_one_hierarchy`]: no two hierarchies have the same file, and a
//! file is as long as its counts say. [`file_is_read_back`]: a file says its hierarchy (`specs/Reading.antt`), and no check
//! refuses it.
//!
//! Where each section of a file lies is said once, by [`Layout`] (`specs/Layouts.antt`). What is private stands on it
//! in layers: `bytes` reads a number at a place, `searching` counts the numbers of a column up to a bound, `body` does
//! both before a digest that needn't be there, `cutting` looks up whatever a section holds, and `copying` reads whole
//! columns into memory. `driving` and `joining` answer for roads and edges as soon as the checks of their sections have
//! passed; the later checks (`checks`) and the view call the same ones. `ways_in_file` stands for the hierarchy of sections
//! whose bounds nobody has looked at, `bounds_in_file` for the numbers in their place, and `halving` finds the halves of
//! its shortcuts by rising edge, for the check of the bounds and for a view. `sections` puts the sections of a
//! hierarchy, `replacing` the way lists of a view's after edits, `bounding` the bounds. They put them into any `Target`: a
//! vector, or the `SealedWriter` that makes the digest as it writes. `edited_ways` stands for a view's hierarchy as edits leave
//! it, and `edited_halves` for its halves. What only private functions cite is in `specs/Steps`.
//!
//! It stands on `cu_model`, `cu_chordal` and `cu_interval`, on `cu_bounds` for the least bounds, on `cu_io` for what a file is
//! stored from, and on the crate `sha2` for the digest (FIPS 180-4).
#![tactic(auto)]

mod body;
mod bounding;
mod bounds_in_file;
mod bytes;
mod checked_roads;
mod checks;
mod copying;
mod counting;
mod cutting;
mod driving;
mod edited_halves;
mod edited_ways;
mod halving;
mod joining;
mod laws;
mod layout;
mod migrating;
mod numbers;
mod opening;
mod packing;
mod refusals;
mod repacked;
mod repacking;
mod replacing;
mod sealed_writer;
mod sealing;
mod searching;
mod sections;
mod targets;
mod view;
mod way_slices;
mod ways_in_file;

pub use cutting::in_force::RuleInForce;
pub use halving::HalvesInFile;
pub use laws::{file_is_read_back, file_of_one_hierarchy};
pub use layout::{Counts, Layout};
pub use migrating::{migrate, migrate_telling};
pub use packing::{pack, pack_telling};
pub use refusals::{Field, PackRefusal};
pub use repacked::Repacked;
pub use repacking::{bounds_after, repack, repack_touched, repack_unsealed};
pub use sealing::seal;
pub use view::PackedView;
pub use view::copies::{chordal_of, order_of};
pub use way_slices::WaySlice;
pub use way_slices::in_force::WayInForce;
