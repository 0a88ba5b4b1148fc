//! Calls on a guard: what they are, what each does, and what a list of them is promised (`specs/`), with the proof
//! (`proofs/`). The guard itself is in the crate above.
#![tactic(auto)]

pub mod drawing;
pub mod standing;
