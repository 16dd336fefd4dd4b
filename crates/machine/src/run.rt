// The calls on a run.
pub mod asking;
mod candidates;
pub mod close;
pub mod layout;
pub mod lent;
pub mod matches;
pub mod open;
mod refusals;
mod row;
mod rows;
pub mod session;
pub mod shape;
pub mod start;
mod steps;
