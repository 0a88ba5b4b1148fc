//! Plans: what every plan answers, the plan that is drawn, and the plan that is read from a file.
#![tactic(auto)]

pub mod drawing;
pub mod file;
pub mod interface;
pub mod lookup;
pub mod reader;
mod records;
pub mod refusal;
pub mod runs;
pub mod table;
pub mod table_plan;
mod values;
pub mod writer;
