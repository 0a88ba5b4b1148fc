//! The words of answers: what a statement came to, files in hexadecimal, plans for a person to read or as a picture, what a
//! search answered and stored, and the statement as its answer repeats it. All text is bytes and is appended to what stands
//! there already.
#![tactic(auto)]

pub mod answer;
pub mod draw;
pub mod echo;
pub mod hex;
mod names;
pub mod notice;
pub mod pairs;
pub mod show;
pub mod slots;
mod text;
pub mod verdict;
