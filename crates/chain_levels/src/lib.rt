// Reach, loop groups, levels and the chain that they give, as definitions with their laws. There is no function here.
#![tactic(auto)]
