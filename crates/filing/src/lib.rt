// Filing reports, and what the filing program prints.
#![tactic(auto)]

pub mod limits;
pub mod listing;
pub mod printing;
pub mod report;
pub mod shown;
