// What the programs of cases share: a script is carried out line by line, and what is answered to each line is printed.
#![tactic(auto)]

pub mod answers;
pub mod bytes;
pub mod lent;
pub mod script;
pub mod texts;
