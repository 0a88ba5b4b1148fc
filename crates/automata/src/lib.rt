//! Nondeterministic finite automata: the definitions that every other crate rests on (`specs/`), what follows from
//! them (`proofs/`), and sets of states as 32-bit numbers.
#![tactic(auto)]

pub mod sets;
