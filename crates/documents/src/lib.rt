// Reports as they are defined: tokens, the document tree and XPath 1.0. specs has the definitions, proofs the laws. There is no code here.
#![tactic(auto)]
