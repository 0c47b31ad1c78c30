// The worked examples of document 01, as one list of what the definitions give and what the document says (specs/), and one claim: they
// are equal (proofs/). There is no code here.
#![tactic(auto)]
