//! Tests of edits: their lines, the edges that they touch, the lists that those get, and what a store knows behind them. What no clause
//! says: that calls succeed, and values that were worked out by hand.
#![tactic(auto)]

#[cfg(test)]
mod lines;
#[cfg(test)]
mod marks;
#[cfg(test)]
mod stores;
#[cfg(test)]
mod touching;
