// Theorems alone.
#![tactic(auto)]
