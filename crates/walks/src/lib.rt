// No code: proofs/ has the laws by which a function is proved that the borrow checker does not cover, by a walk through its compiled code.
#![tactic(auto)]
