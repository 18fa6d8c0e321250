// Theorems: how often the keys of an application were used is how many requests used them. There is no code.
#![tactic(auto)]
