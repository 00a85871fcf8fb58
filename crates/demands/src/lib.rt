// The three demands over the contracts of the calls: no function.
#![tactic(auto)]
