//! The statements of a script, read from the words of a line. All text is bytes, so that no input is an error of encoding.
#![tactic(auto)]

mod arguments;
pub mod hex;
pub mod numbers;
pub mod order_name;
pub mod pairs;
pub mod search_statement;
mod search_verb;
pub mod statement;
pub mod terms;
mod verb;
pub mod words;
