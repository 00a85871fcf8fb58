// When a chain is within another: definitions and theorems only. Start at specs/Inclusion.antt and proofs/Search.antt.
#![tactic(auto)]
