//! Scripts and edits answered over the packed bytes of a hierarchy.
//!
//! [`session`] answers the script of a source (`EndsSession` in `specs/Sessions.antt`): each query by the two sweeps over the
//! hierarchy that the bytes spell, each question for a whole day by its day function, each edit by the touched edges, after which the bytes are those of the resettled hierarchy
//! (`specs/Held.antt`). Where the first hierarchy is built, the replies are right over all walks of the network as edited so
//! far (`specs/Replies.antt`), and no clause of those speaks of a hierarchy but for the choice among equal walks and the number of
//! touched edges. [`answer_edits`] makes the lines of a file of edits, and [`answer_edits_telling`] gives the file
//! that they leave, by an [`Editor`], which has no room for queries. [`Router`] is what all others answer from: it adopts its bytes anew for each line, takes no memory for a
//! query, and keeps what queries learn of the hierarchy until the next edit.
//! An edit writes no digest; [`Router::into_file`] does, once the file is asked for.
//!
//! [`answer_built`] and [`Router::built`] are for bytes that are known to be those of a built hierarchy: an edit then settles an
//! edge that it touches only where something that its lists may be made of has changed. A router keeps which edges are known
//! to be customized; an edit adds those that it settles.
//!
//! [`answer_waiting`] answers where profiles are measured, by a router over pieces that stand for them and by their points, which tell
//! when to leave (`specs/Kept.antt`); its replies are right over all walks and all waits (`EndsWaiting` in `specs/Sessions.antt`).
//!
//! It stands on `cu_model` and `cu_io` for lines, queries and sinks, on `cu_script` for lines of edits, on `cu_wait` for measured profiles, on `cu_day` for lines
//! that ask for a day and how it is written, on `cu_chordal`,
//! `cu_interval` and `cu_pack` for the hierarchies that bytes spell, and on `cu_router` for what answers them.
//! [`answer_lines`] answers the lines of a source by whatever answers one ([`LineAnswerer`], `EndsLines` in `specs/Sessions.antt`);
//! a router is one such, and what else keeps a state from line to line can be another. Private is the turn over one line. `specs/Steps` is cited by private functions alone.
#![tactic(auto)]

mod answerer;
mod answering;
mod edit_lines;
mod editing;
mod questions;
mod refusals;
mod stops;
mod waiting;

pub use answerer::LineAnswerer;
pub use answering::{answer_built, answer_lines, answer_script, answer_waiting, session};
pub use cu_router::{
    EditedFile, Editor, ListRoom, Router, put_dir, put_word_and_long, put_word_and_number,
};
pub use editing::{answer_edits, answer_edits_telling};
pub use refusals::put_piece_refusal;
pub use stops::SessionStop;
