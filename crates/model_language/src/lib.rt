#![tactic(auto)]

// The language of a chain: definitions and theorems only. Start at proofs/Theorem.antt.
