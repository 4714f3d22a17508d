// Floating-point definitions and laws, in specs/ and proofs/. There is no code.
#![tactic(auto)]
