//! A desk: many clients' queries answered while one of their edits is in work.
//!
//! A [`Desk`] is a hierarchy that is published and, at most, one edit in work, which is settled one shortcut a step and published
//! behind the last. It answers lines ([`cu_session::LineAnswerer`]): each reply is that of the machine of `specs/Machine.antt`, over
//! the hierarchies that are published (`specs/HeldDesks.antt`) and, where the first of them is built, over their networks alone
//! (`specs/NetworkDesks.antt`). `specs/DeskLines.antt` says what a line asks for.
//!
//! It stands on `cu_router` for the hierarchy, its queries and its edits by steps, on `cu_session` for the lines of a source, on
//! `cu_script` and `cu_model` for lines of edits and queries, and on `cu_io` for sinks. Private is the reply to one line;
//! `specs/Steps` is cited by private functions alone.
#![tactic(auto)]

mod begun;
mod desk;
mod lines;
mod replies;
mod stepped;

pub use begun::Begun;
pub use desk::Desk;
pub use lines::MAX_CLIENT;
pub use stepped::Stepped;
