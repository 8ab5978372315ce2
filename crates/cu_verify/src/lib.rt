//! Whether a packed file's hierarchy is the built one.
//!
//! [`verify`] customizes the network of a packed file anew, under its order, and compares the way lists: [`Verdict::Same`]
//! exactly where the hierarchy is the built one, else where it first differs (`specs/Verdicts.antt`). A file's own checks find
//! bytes that changed and ways that lead nowhere; that the ways are the best ones, this tells.
//! [`verify_telling`] is the same, and tells how far it is.
//!
//! It stands on `cu_model`, `cu_interval`, `cu_customize`, `cu_pack`, and on `cu_resettled` for a law. `specs/Steps` is cited by
//! private functions alone.
#![tactic(auto)]

mod comparing;
mod verdicts;

pub use verdicts::{Verdict, verify, verify_telling};
