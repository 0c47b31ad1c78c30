// The theory of runs: no code. proofs/ has what each party does alone, a run of such maps with inversions between, and what the cipher and
// the inverse on shares open to.
#![tactic(auto)]
