// No code: the claim that an enlarged drawing is the same drawing enlarged, over every call.
#![tactic(auto)]
