//! Orders between the states of two compared plans: what an order answers, three orders, and the test of the four laws
//! that an order has to keep.
//!
//! In a comparison, state `s` of the programme is number `s`, and state `s` of the rule is number `32 + s`.
#![tactic(auto)]

pub mod delivered;
pub mod greatest;
pub mod interface;
pub mod laws;
mod refining;
pub mod rows;
pub mod same;
mod sets;
mod sides;
mod sources;
