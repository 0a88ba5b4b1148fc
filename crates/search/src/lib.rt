//! The two searches: a comparison of two plans, over pairs of a programme state and a set of rule states, and the
//! question whether a plan is open, over sets of its states.
//!
//! What the items of each are stands in `specs/Pairs.antt` and `specs/StateSets.antt`, and what the searches find in
//! `specs/Findings.antt` and `specs/Searching.antt`.
#![tactic(auto)]

mod admission;
pub mod cases;
pub mod compare;
pub mod open;
pub mod pair;
mod pairs;
mod reducing;
mod state_sets;
