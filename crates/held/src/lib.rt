// Theorems alone: the definition of the ordinary reading, computed on recorded texts, gives the Rust's answers.
#![tactic(auto)]
