//! The walk: one search that keeps an antichain of items, for any kind of item.
//!
//! A kind brings its items (`search::Search`); the walk brings the rest: it stores items in slots, drops those that
//! a stored one covers, takes them in turn, and hands back a shortest run that is missed, or says that there is none.
//! What the walk is stands in `specs/Walks.antt`, and what follows from it in `specs/Statements.antt`.
#![tactic(auto)]

mod offer;
mod origin;
mod run;
pub mod search;
pub mod slot;
mod stored;
pub mod verdict;
pub mod walk;
