// Levels taken off one after the other: laws of the levels and of the chain for the code that builds it. There is no
// function here.
#![tactic(auto)]
