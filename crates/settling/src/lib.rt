// Theory only: what settles a subword, and that the key-equation solver finds it, stand in specs/.

#![tactic(auto)]
