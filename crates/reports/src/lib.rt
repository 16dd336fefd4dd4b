// The tokens of a report, found in its bytes.
#![tactic(auto)]

mod attributes;
pub mod limits;
mod order;
mod scan;
mod tags;
pub mod tokens;
