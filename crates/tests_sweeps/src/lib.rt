//! Tests of what sweeps answer: queries and their walks, led to their end or not, and whole days. What no clause says: that calls
//! succeed, and values that were worked out by hand.
#![tactic(auto)]

#[cfg(test)]
mod days;
#[cfg(test)]
mod led_days;
#[cfg(test)]
mod sweep;
#[cfg(test)]
mod unpack;
#[cfg(test)]
mod written;
