//! The guard: two plans that are drawn, their comparison, and release.
//!
//! `guard` has the guard and its calls, `replay` works a list of calls through. What the calls mean and what is promised
//! of them stands in the crate `calls`; `specs/Meanings.antt` says how the values of the code are read as theirs.
#![tactic(auto)]

pub mod call;
mod drawing;
pub mod guard;
pub mod replay;
mod searches;
mod sides;
mod transition;
