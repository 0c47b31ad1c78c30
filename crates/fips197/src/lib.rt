// FIPS-197 as definitions (specs/) and the theorems about it alone (proofs/). There is no code here: the crates above prove theirs
// equal to these definitions.
#![tactic(auto)]
