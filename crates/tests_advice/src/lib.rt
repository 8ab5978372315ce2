//! Tests of what is said on standard error: for each line that says why a run ended, the advice, over texts of tables. What no clause
//! says: its words.
#![tactic(auto)]

#[cfg(test)]
mod asked;
#[cfg(test)]
mod files;
#[cfg(test)]
mod refused;
#[cfg(test)]
mod watching;
