// The promises about a window's charges, and about a month's under a ceiling, as theorems over what settling computes. There is no code here: see
// specs/ and proofs/.

#![tactic(auto)]
