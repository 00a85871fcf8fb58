// The chain that the levels give, and that no other chain is better: theorems about the definitions of the crates
// below. There is no function here.
#![tactic(auto)]
