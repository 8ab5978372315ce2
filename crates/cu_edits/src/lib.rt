//! Edits of travel times: the edges that one touches, and the hierarchy after it.
//!
//! [`plan`] answers exactly the edges whose lists an edit may change (`NumbersTouched` in `specs/Touching.antt` of
//! `cu_interval`): those of the changed roads, and those over a lower triangle with a touched side.
//!
//! [`touch`] makes an edit of any hierarchy by its touched edges alone (`IsResettled` in `specs/Resettling.antt` of
//! `cu_interval`). [`recustomize`] settles them by rising number, each after those of its lower triangles, by a [`Settler`];
//! [`EditSettler`] is the one that [`touch`] takes. It settles by functions that are packed runs, whose promise is the same as
//! that of plain ones; once a way takes longer than packed runs can say, as in a file that isn't built, it goes over to plain
//! functions. One that knows the least bounds of lists ([`EditGround`]) learns no functions of halves that take longer than another
//! way does at most. One that keeps only what it needs ([`Keeping`]) lets go of functions that no list of a later edge is made of, as
//! long as edges come by rising number.
//!
//! [`touch_over`] is the same for whoever makes one edit after the other, and knows of lists what earlier edits left:
//! [`CustomizedEdges`] tells which edges are known to be customized (`specs/Customized.antt`), as all are in a built hierarchy,
//! and an edit keeps those that are and adds those that it settles; [`Learned`] has functions of lists (`specs/Learned.antt`),
//! and an edit puts the new ones in the place of those of lists that it moved. What such an edit borrows is an [`EditGround`]: the graph,
//! the roads of its edges, these marks, and the least bounds.
//!
//! Many edits are made at once by a list of them ([`EditList`], `specs/EditLists.antt`; [`Edits`] is one or such a list).
//! [`plan_all`] adds one behind the others, and tells how many edges it touches; [`EditList::touched`] answers the edges that some
//! of them touch, and [`settle_each`] settles each of these once.
//!
//! [`InWork`] makes an edit one touched edge a step (`specs/InWork.antt`), so that others may read the hierarchy in between:
//! [`plan`] gives it its edges. A settler borrows what it settles over; [`EditSettler::pause`] lets go of that between two steps
//! and [`EditSettler::resume`] takes it again (`specs/Paused.antt`), while [`WorkPapers`] keep the rest.
//! [`PausedSettler::into_earlier`] gives back what was learned of the hierarchy before an edit that isn't made.
//!
//! It stands on `cu_progress`, `cu_model`, `cu_links`, `cu_arrival`, `cu_runs`, `cu_chordal`, `cu_interval`, `cu_bounds`, `cu_customize`,
//! `cu_unpack`, and on `cu_resettled` for its laws. Private are how touched edges spread, what an edit is settled over, and what a settler
//! holds; `specs/Steps` is cited by private functions alone.
#![tactic(auto)]

mod climbing;
mod copied_lists;
mod customized;
mod edge_functions;
mod edit_ground;
mod edit_list;
mod edit_parts;
mod edit_settler;
mod edited_roads;
mod edits;
mod finding;
mod found_edges;
mod in_work;
mod keeping;
mod learned;
mod learning;
mod learning_packed;
mod letting_go;
mod moved_lists;
mod new_list;
mod paused;
mod plain_functions;
mod planning;
mod reading;
mod recustomizing;
mod road_functions;
mod settler;
mod settler_state;
mod settling_packed;
mod touching;
mod triangle_halves;
mod unchanged_lists;
mod work_papers;

pub use customized::CustomizedEdges;
pub use edit_ground::EditGround;
pub use edit_list::EditList;
pub use edit_settler::EditSettler;
pub use edited_roads::EditedRoads;
pub use edits::Edits;
pub use in_work::InWork;
pub use keeping::Keeping;
pub use learned::Learned;
pub use paused::PausedSettler;
pub use planning::plan_all;
pub use recustomizing::{Touched, recustomize, settle_each, touch, touch_over};
pub use settler::Settler;
pub use touching::plan;
pub use work_papers::WorkPapers;
