// The marked samples of paper 01, and samples with text, as printed: no function.
#![tactic(auto)]
