//! Relaxations that remember: what driving a list of ways took is taken from what is known of it, as far as that goes. How
//! much is kept from one relaxation to the next is no promise; that what is known is so, is.
//!
//! [`Recall`] relaxes the shortcuts of a packed file as `Relaxer` of `cu_interval` says. Its answers are those of an
//! unpacking, and in a built hierarchy those over all low walks, whatever its [`Room`] holds of earlier relaxations, as long
//! as that is so of the hierarchy (`Fits` in `specs/Rooms.antt`). It writes the walk of one that arrives, by what the room
//! holds, each road as a form of `cu_drive` says; a list that has the same roads at every second is written at once, by the sequences
//! of `cu_sequences` that it is lent, and where the form doesn't tell seconds these roads aren't driven: when they arrive is asked only
//! where a list waits behind them, and told by the functions of `cu_store` that it is lent, as far as these are known. It takes no
//! memory, and gives its room back.
//!
//! A [`Row`] has, for one list, up to four [`Span`]s, over each of which the list's walk takes as long over as many roads,
//! and an entry that was [`Met`]. Each is a fact of the hierarchy alone (`Knows` in `specs/Spans.antt`), so no query
//! makes it wrong, and it doesn't matter which span is written over. [`travels_add`] is the law that it rests on: near a
//! second the walk by a middle is those of both halves joined, so that travels and roads add.
//!
//! [`SweepRecall`] is for passes down over many ranks, which ask most lists downwards once, in the order of their edges. Of
//! each it keeps a [`DownSpan`] in the same room, the list's least bound and its latest span, in each of three tables, one for
//! the passes that leave in each third of the day (`KnowsDowns` in `specs/Downs.antt`). It looks into the row only where the
//! second isn't in that span.
//!
//! [`RecalledWays`] are the file's ways for whoever settles an edit behind such relaxations: where the entry that was met last
//! is in force its way is read from the row, and the ends of an edge from the graph.
//!
//! What is private stands in layers over what a row holds: `remembering` keeps it, row by row, and `downs` edge by edge;
//! `driving` drives one road, `looking` looks a list up in what is known or else in the bytes, and `unpacking` parts a list at
//! its middles until each part is known or a road, while others wait (`pending`); `walking` parts it until each part is a road
//! or has a sequence, which it writes. What only private functions cite is in `specs/Steps`.
//!
//! It stands on `cu_model`, `cu_io`, `cu_drive`, `cu_arrival`, `cu_chordal`, `cu_interval`, `cu_sequences`, `cu_store`, `cu_unpack` and
//! `cu_pack`.
#![tactic(auto)]

mod downs;
mod driving;
mod kept;
mod laws;
mod looking;
mod pending;
mod recall;
mod recalled;
mod remembering;
mod room;
mod spans;
mod sweep_recall;
mod unpacking;
mod walking;

pub use downs::{DownSpan, NO_BOUND};
pub use kept::Kept;
pub use laws::travels_add;
pub use recall::Recall;
pub use recalled::RecalledWays;
pub use room::Room;
pub use spans::{Driven, Met, Parts, Row, Span};
pub use sweep_recall::SweepRecall;
