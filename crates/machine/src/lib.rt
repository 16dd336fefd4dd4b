// The shared machine of a folder set: its automaton, its run and the calls on them.
#![tactic(auto)]

mod automaton;
mod bits;
pub mod build;
mod hash;
pub mod layout;
mod lookup;
pub mod run;
pub mod set;
mod shape;
mod walk;
mod words;
pub mod write;
