//! Tests of `cu_model`, of the readers and writers of tables, and of sources, sinks and shelves: what no clause says, as that
//! calls succeed, and values from outside.
#![tactic(auto)]

#[cfg(test)]
mod devices;
#[cfg(test)]
mod left_seconds;
#[cfg(test)]
mod measured;
#[cfg(test)]
mod networks;
#[cfg(test)]
mod orders;
#[cfg(test)]
mod pieces;
#[cfg(test)]
mod profiles;
#[cfg(test)]
mod roads;
#[cfg(test)]
mod tables;
