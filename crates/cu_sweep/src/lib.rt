//! The two sweeps of a query, up from its start and down to its end, and the route of the walk that they find; and the two of a
//! reach, down to all ranks.
//!
//! [`query`] answers the earliest arrival by labels of both sweeps (`specs/Labels.antt`, `specs/Sweeps.antt`): in a built
//! hierarchy the least arrival over all walks, or that there is none, and in any hierarchy that of a real walk
//! (`specs/Answers.antt`). [`SweepDesk`] holds that walk's calls (`specs/Desks.antt`), whose roads [`route`] writes by whatever
//! is a `Walker` of `cu_unpack`, and [`route_by`] with what else is asked of each, as the seconds at which they are entered. A law,
//! [`routes_are_drives`], says that what is written so is the drive of all these roads.
//!
//! [`Labels`] makes both sweeps step by step, the downward one over any path of ranks that has all higher neighbours of its
//! ranks (`specs/Swept.antt`): each is then reached as its downward label says. A query goes down over the ancestors of its
//! end, and [`Labels::reach_all`] over all ranks, so that each has its earliest arrival (`specs/ToAll.antt`). A law speaks of the
//! definitions alone, [`sweeps_take_arcs_once`]: a query's sweep takes sweep arcs, and a reach's downward one any edges, each at
//! most once (`specs/ArcsOnce.antt`).
//!
//! From where each label came is a [`Linking`]'s: a desk's are a chain of `cu_links`, whose links give the calls of the walk that
//! was found, and a reach, of which only seconds are asked, keeps none ([`Unlinked`]).
//!
//! A sweep leaves out each call whose end already has a label no later than the call's second and its list's least bound:
//! whatever the call answered, no label would be earlier, so all labels and walks are those of all calls.
//!
//! [`led_query`] finds the same where no walk is too long, by fewer calls: along a way that is driven first, and then of each sweep
//! those that may still be in time for the end (`specs/LedCalls.antt`). They too are over sweep arcs alone, each at most once along
//! the way and at most once a sweep: [`led_queries_take_arcs_once`]. What is at least still to go (`specs/Outlooks.antt`) is found by
//! the `NearBounds` of `cu_bounds`, the least bounds of all lists in 8 bytes an edge, of which only "no more" is needed. The
//! sweeps by the calls in time take a bound from there too where it is kept as it is, and ask whoever relaxes only for a greater one.
//!
//! It stands on `cu_model`, `cu_io`, `cu_drive`, `cu_links`, `cu_chordal`, `cu_elimtree`, `cu_interval`, `cu_bounds` and `cu_unpack`. Private are the steps
//! of both sweeps, and where a desk keeps its labels and links. `specs/Steps` is cited by private functions alone.
#![tactic(auto)]

mod bounding;
mod desk;
mod driving;
mod finding;
mod labels;
mod laws;
mod leading;
mod limits;
mod linking;
mod looking;
mod outlook;
mod over_ranks;
mod querying;
mod routing;
mod sweeping;
mod timing;

pub use desk::SweepDesk;
pub use driving::{led_to, place_on};
pub use finding::Found;
pub use labels::Labels;
pub use laws::{led_queries_take_arcs_once, routes_are_drives, sweeps_take_arcs_once};
pub use leading::{Ground, led_query};
pub use linking::{Linking, Unlinked};
pub use outlook::Outlook;
pub use querying::{Question, query};
pub use routing::{route, route_by};
