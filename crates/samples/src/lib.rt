// Theory only: the samples stand in specs/, and that they are right in proofs/.

#![tactic(auto)]
