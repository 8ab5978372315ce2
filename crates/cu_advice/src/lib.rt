//! What the program says on standard error where it ends with a status from 2 on: one line, or two, that name the file by its path,
//! the line of it as an editor counts, what was found there, what is allowed, and what to do.
//!
//! Its promise to the crates above: a text of advice is one line or two of printable bytes, each with a line feed (`specs/Texts.antt`),
//! and nothing is said at status 0. What advice says is tested, and no clause says it, nor what a [`Watched`] writer remembers.
//! All of it goes by what a run left, its status, its words and its last line, and by files that are read once more: no status and no
//! byte of standard output depends on it. It stands on `cu_model` and `cu_io`, on `cu_chordal` and `cu_roads` for their limits, on
//! `csv`, and on `strsim` for the nearest command.
#![tactic(auto)]

mod commands;
mod ended;
mod endings;
mod looking;
mod measured;
mod network;
mod noted;
mod orders;
mod packed;
mod pieces;
mod rows;
mod shelf;
mod tables;
mod texts;
mod watched;
mod words;

pub use ended::{Ended, Texts, advise, brief};
pub use looking::look;
pub use noted::{Fault, Noted};
pub use watched::Watched;
