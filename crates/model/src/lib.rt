// The shared machine of a folder set, as it is defined: specs has the definitions, proofs the laws. There is no code here.
#![tactic(auto)]
