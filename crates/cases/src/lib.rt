//! Examples of plans, plan files, orders, statements and the guard, run as tests. They stand in a crate of their own, so that proving them
//! does not prove the crates that they try a second time.
#![tactic(auto)]

#[cfg(test)]
mod drawing;
#[cfg(test)]
mod files;
#[cfg(test)]
mod laws;
#[cfg(test)]
mod outcome;
#[cfg(test)]
mod releases;
#[cfg(test)]
mod statements;
