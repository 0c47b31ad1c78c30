// Lists as loops over lent slices make them: definitions (specs/) and the laws that the proofs of such loops cite (proofs/). There is no
// code here.
#![tactic(auto)]
