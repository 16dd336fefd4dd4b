// Text: names and numbers, reading and writing them, and what an answer says. Every format of the product stands on it.
#![tactic(auto)]

pub mod names;
pub mod numbers;
pub mod output;
pub mod refusals;
pub mod store;
pub mod words;
