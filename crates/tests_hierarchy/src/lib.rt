//! Tests of what stands between the tables of a network and its packed file: closed graphs, functions of a day, hierarchies, their
//! least bounds and roads. What no clause says: that calls succeed, and values that were worked out by hand.
#![tactic(auto)]

#[cfg(test)]
mod arrivals;
#[cfg(test)]
mod bounds;
#[cfg(test)]
mod brief;
#[cfg(test)]
mod chordal;
#[cfg(test)]
mod customize;
#[cfg(test)]
mod dissect;
#[cfg(test)]
mod elimtree;
#[cfg(test)]
mod interval;
#[cfg(test)]
mod links;
#[cfg(test)]
mod ranked;
#[cfg(test)]
mod runs;
#[cfg(test)]
mod short;
