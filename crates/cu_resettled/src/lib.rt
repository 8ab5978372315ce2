//! What an edit leaves of a hierarchy, said of the definitions alone.
//!
//! Laws of one edit carry it. [`resettled_is_built`]: a built hierarchy that is resettled by an edit (`specs/Resettling.antt` of
//! `cu_interval`) is the built one of the edited network. [`resettled_is_one`]: there is one resettled hierarchy alone, whatever
//! the order in which its edges were settled. [`resettled_is_there`]: there is always one. So do the same laws of edits whose
//! touched edges are resettled at once (`specs/ResettlingAll.antt`), and [`at_once_is_in_turn`]: what is resettled
//! at once is what one edit after the other leaves. The crates above may cite besides that roads which an edit doesn't change lead and
//! arrive as before (`proofs/Unchanged.antt`), and that the closed graph stays (`proofs/Unmoved.antt`).
//!
//! It stands on `cu_model`, `cu_chordal` and `cu_interval`, and has no code but the laws.
#![tactic(auto)]

mod laws;

pub use laws::{
    at_once_by_edits, at_once_is_built, at_once_is_in_turn, at_once_is_one, resettled_is_built,
    resettled_is_one, resettled_is_there,
};
