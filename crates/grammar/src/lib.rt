// Theorems alone: a reader of strict forms at the level of texts, put together from pieces, against the definition of strict forms.
#![tactic(auto)]
