//! Relaxations by what a store knows of lists.
//!
//! [`Stored`] relaxes as another relaxer does: a list of which the store knows something is answered by that, without asking the
//! other, and any other list by the other. So the answers are the other's, word for word, however much the store knows, and it
//! writes the other's walks.
#![tactic(auto)]

mod stored;

pub use stored::Stored;
