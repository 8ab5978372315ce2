//! What queries and edits of a hierarchy are answered from: its packed bytes, and beside them room for each of both.
//!
//! A [`Router`] is three things. [`HeldFile`] holds the bytes, with the graph, the tree and the marks of the hierarchy that they
//! spell: it lends a view of them, writes the bytes of the hierarchy after an edit, and changes over to those. [`QueryRoom`]
//! answers queries over a held file (`IsHeldAnswer` in `specs/Answers.antt`), takes no memory for them, and keeps what they
//! learn of the hierarchy until it is told to forget; reaches, tables and latest departures are answered in the same room
//! (`specs/Reaches.antt`), by a desk of their own. The third is room for edits, made by the first edit or the first whole day: it
//! keeps the functions of lists that either learned, for the next of both, until an edit moves them. A whole day is answered over a
//! held file by these functions (`specs/Days.antt`), and takes memory. Whoever works at
//! an edit may borrow the held file while queries are answered; what these keep stays true of the bytes until they change over.
//!
//! An edit writes no digest; [`Router::into_file`] does, once the file is asked for. [`Router::built`] is for bytes that are
//! known to be those of a built hierarchy: an edit then settles an edge that it touches only where something that its lists may
//! be made of has changed. A held file keeps which edges are known to be customized; an edit adds those that it settles.
//!
//! An [`Editor`] is a held file for who makes edits at once and asks for the file after them: an [`EditedFile`], which is packed as
//! it is written.
//!
//! An edit may also be made one touched edge a step: [`Router::plan`] tells these edges, [`Router::begin`] and [`Router::go_on`] hand
//! on a [`Busy`], which borrows nothing (`specs/Working.antt`), and [`Router::publish`] makes the edit once no edge is left;
//! [`Router::cancel`] lets go of it. A step costs what its own edge costs: all room for all edges is made as the edit begins.
//!
//! It stands on `cu_model` and `cu_io` for queries and sinks, on `cu_pack` for the bytes, on `cu_sweep`, `cu_recall`, `cu_unpack`,
//! `cu_elimtree` and `cu_chordal` for queries, on `cu_short` for whether these may be led to their end, on `cu_day` for
//! days, on `cu_reach` for reaches, tables and latest departures, and on `cu_edits`, `cu_interval` and `cu_links` for edits.
//! Private is the room for edits; `specs/Steps` is cited by private functions alone.
#![tactic(auto)]

mod busy;
mod days;
mod edit_room;
mod edited_file;
mod editor;
mod held_file;
mod known_lists;
mod learned_days;
mod list_room;
mod query_room;
mod reaches;
mod router;
mod settling_all;
mod sweeps;
mod working;
mod writing;

pub use busy::Busy;
pub use cu_reach::{put_damage, put_dir, put_word_and_long};
pub use edited_file::EditedFile;
pub use editor::Editor;
pub use held_file::HeldFile;
pub use known_lists::KnownLists;
pub use list_room::ListRoom;
pub use query_room::QueryRoom;
pub use router::Router;
pub use writing::put_word_and_number;
