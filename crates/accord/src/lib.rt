// Theorems alone: what the readers and the writer say of one text.
#![tactic(auto)]
