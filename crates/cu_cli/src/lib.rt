//! `catchup` as a function of its words: it loads the tables of a road network, or a packed hierarchy, and answers the
//! queries and edits of a script, or stores an order, a grid's tables, a packed file or an edited one, or compares a packed
//! file with the built hierarchy, or tries a grid; and it ends with a status.
//!
//! Its promise is the contract of [`run`]: how every run ends (`EndsRun` in `specs/Runs.antt`), what it leaves of its
//! source, its sink and its shelf, and that nothing but its causes ends it early. Over a built hierarchy each line gets
//! its reply over the network that the edits before it left; over any hierarchy its reply is by the ways that are held
//! at it. Both are definitions of `cu_session`. Files are stored as `specs/Storing.antt` says, and opened as
//! `specs/Opening.antt` says. [`run_telling`] is [`run`], and tells how far long
//! work is; [`run_within`] keeps besides to so much memory for what is known of shortcuts ([`Manner`]). [`run_surely`] says of
//! objects that never fail that no fault ends a run over them.
//!
//! It stands on the readers and writers of tables and orders, on `cu_dissect` for orders by dissection, on
//! `cu_customize` for the hierarchy, on `cu_pack` for its file, on `cu_verify` for its comparison with the built one, on
//! `cu_session` for scripts and edits, and on `cu_io` for what a write leaves. Private are the commands and the reasons to
//! stop; what only these cite is in `specs/Steps`.
#![tactic(auto)]

mod commands;
mod faults;
mod manner;
mod measuring;
mod opening;
mod preparing;
mod program;
mod saying;
mod stops;
mod storing;
mod sure;
mod words;

pub use manner::Manner;
pub use program::{run, run_telling, run_within};
pub use sure::run_surely;
