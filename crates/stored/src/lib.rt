// What the machine stores: an automaton and a run as bytes, and what each call makes of them. specs has the definitions, proofs the laws; the code here is types, and the counters' sums.
#![tactic(auto)]

pub mod counters;
pub mod place;
pub mod walk;
