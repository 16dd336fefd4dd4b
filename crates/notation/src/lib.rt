// The notation: names, folder sets and what a path means.
#![tactic(auto)]

mod entries;
pub mod layout;
pub mod limits;
pub mod read;
pub mod reads;
mod steps;
mod take;
mod tally;
pub mod write;

// A path's place: its index among all paths of the set.
#[derive(Clone, Copy)]
pub struct PathPlace(pub usize);

// A folder's number, as its line gives it.
#[derive(Clone, Copy)]
pub struct FolderNumber(pub usize);
