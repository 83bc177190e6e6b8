// Theory only: what stands in specs/ is used by the proofs of the crates above.

#![tactic(auto)]
