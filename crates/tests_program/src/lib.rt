//! Tests of the program as a function of its words, over tables, packed files, scripts and edits in memory. What the runs come to was
//! worked out by hand, or by another program.
#![tactic(auto)]

#[cfg(test)]
mod asking;
#[cfg(test)]
mod commands;
#[cfg(test)]
mod damage;
#[cfg(test)]
mod days;
#[cfg(test)]
mod deep;
#[cfg(test)]
mod desks;
#[cfg(test)]
mod editing;
#[cfg(test)]
mod edits;
#[cfg(test)]
mod failing;
#[cfg(test)]
mod migrating;
#[cfg(test)]
mod packed;
#[cfg(test)]
mod reaches;
#[cfg(test)]
mod runs;
#[cfg(test)]
mod serving;
#[cfg(test)]
mod stars;
#[cfg(test)]
mod sure;
#[cfg(test)]
mod talk;
#[cfg(test)]
mod trials;
#[cfg(test)]
mod verifying;
#[cfg(test)]
mod waiting;
