//! Tests of sessions and edits over packed files: what no clause says, as that calls succeed, and replies that were worked out by
//! hand.
#![tactic(auto)]

#[cfg(test)]
mod grids;
#[cfg(test)]
mod known;
#[cfg(test)]
mod sessions;
