//! Tests of packed files: written, opened, migrated, asked as they lie, verified, and relaxed with what is remembered or known of them. What
//! no clause says: that calls succeed, and files that were made by hand and hashed by another program.
#![tactic(auto)]

#[cfg(test)]
mod migrating;
#[cfg(test)]
mod packing;
#[cfg(test)]
mod recalls;
#[cfg(test)]
mod refusals;
#[cfg(test)]
mod sequences;
#[cfg(test)]
mod stored;
#[cfg(test)]
mod verifying;
#[cfg(test)]
mod views;
#[cfg(test)]
mod walks;
