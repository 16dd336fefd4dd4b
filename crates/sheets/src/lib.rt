// The class sheet: the matched paths of a run on pages to pin up.
#![tactic(auto)]

pub mod limits;
mod lines;
pub mod printing;
mod rows;
pub mod sheet;
