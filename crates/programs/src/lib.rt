// What the programs share: their two files are read, and what was made of them is printed.
#![tactic(auto)]

pub mod files;
pub mod output;
