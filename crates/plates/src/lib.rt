// The worked examples of document 01 that are proved, in specs/ and proofs/. There is no code.
#![tactic(auto)]
