// A declaration read in a walk along its tokens: its form, one state after another, then its names and its record.
// Definitions and theorems only.
#![tactic(auto)]
