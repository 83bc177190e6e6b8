// Theory only: the three forms of the key-equation solver as definitions, and what is proved of them, stand in specs/.

#![tactic(auto)]
